use anyhow::Result;
use replay_lines::field_lines::{fill, number_line};
use rng::Rng;
use sample::hash::Fnv;
use sample::inputs::{Kind, SEED};

// 96 sites, so links are 6912 numbers. Each hash is over the answers of calls at one site, all sites in turn.
const EXTENTS: [usize; 4] = [2, 6, 4, 2];

// The loops' quarks, x, y, z each.
const UNIT: [[i32; 3]; 3] = [[1, 0, 0], [0, 1, 0], [0, 0, 1]];

pub const NEAR: [[i32; 3]; 3] = [[0, 5, 1], [2, 3, 1], [3, 1, 2]];

const BACKWARD: [[i32; 3]; 3] = [[2, -1, 0], [0, 0, -2], [0, 0, 0]];

const FAR: [[i32; 3]; 3] = [[32, 31, 30], [-32, -32, -32], [7, 0, -1]];

// The steps of the path from a site: each is the top three bits of a draw.
fn steps_from(site: usize) -> [u8; 96] {
    let mut rng = Rng::stream(SEED, 5, 0, site as u64);
    std::array::from_fn(|_| (rng.next_u64() >> 61) as u8)
}

// From a site a path of as many steps as its number.
fn paths(links: &[f64]) -> Fnv {
    Fnv::over(96, |site| {
        baryon::path(EXTENTS, site, links, &steps_from(site)[..site])
    })
}

fn time_lines(links: &[f64]) -> Fnv {
    Fnv::over(96, |site| {
        [0, 1, 3, 64].map(|t_len| baryon::time_line(EXTENTS, site, t_len, links))
    })
}

fn baryon_loops(links: &[f64]) -> Fnv {
    Fnv::over(96, |site| {
        [(UNIT, 2), (NEAR, 3), (BACKWARD, 0), (FAR, 64)].map(|(quarks, t_len)| {
            baryon::baryon_loop(EXTENTS, site, quarks, t_len, links)
        })
    })
}

// The lines of a field of a kind.
pub fn lines(rt: &impl Print, kind: Kind) -> Result<()> {
    let mut links = [0.0; 6912];
    fill(kind, &mut links);
    println!(rt; "baryon {kind}")?;
    println!(rt; "paths {}", paths(&links))?;
    println!(rt; "time_lines {}", time_lines(&links))?;
    println!(rt; "baryon_loops {}", baryon_loops(&links))?;
    number_line(
        rt,
        "baryon_loop",
        baryon::baryon_loop(EXTENTS, 0, UNIT, 2, &links),
    )
}
