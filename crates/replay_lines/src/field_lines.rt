use anyhow::{Error, Result};
use complex::C64;
use lattice::Plan;
use rows::{Refusal, row_and_value};
use sample::hash::{Bits, Fnv};
use sample::inputs::{Kind, link};

const PLANES: [(usize, usize); 6] = [(0, 1), (0, 2), (0, 3), (1, 2), (1, 3), (2, 3)];

// Makes every link of a field by itself: link n is the one of direction n / sites at site n % sites.
pub fn fill(kind: Kind, links: &mut [f64]) {
    let sites = links.len() / 72;
    if sites == 0 {
        return;
    }
    for (n, numbers) in links.chunks_exact_mut(18).enumerate() {
        let u = link(kind, (n / sites) as u64, (n % sites) as u64);
        links::store(numbers, 0, u);
    }
}

fn plaquettes(extents: [usize; 4], links: &[f64]) -> Fnv {
    Fnv::over(links.len() / 72, |site| {
        PLANES.map(|(mu, nu)| lattice::plaquette(extents, site, mu, nu, links))
    })
}

fn staples(plan: Plan, links: &[f64]) -> Fnv {
    Fnv::over(links.len() / 72, |site| {
        [0, 1, 2, 3].map(|mu| lattice::staple(plan, site, mu, links))
    })
}

// A refusal's row, or 0, and a number, or +0.
pub fn number_line(rt: &impl Print, label: &str, r: Result<f64, Refusal>) -> Result<()> {
    let (row, x) = row_and_value(r, 0.0);
    let x = Bits(x);
    println!(rt; "{label} {row} {x}")?;
    Ok(())
}

fn loop_line(rt: &impl Print, extents: [usize; 4], links: &[f64]) -> Result<()> {
    let (row, z) = row_and_value(lattice::polyakov_loop(extents, links), C64::ZERO);
    let re = Bits(z.re);
    let im = Bits(z.im);
    println!(rt; "polyakov_loop {row} {re} {im}")?;
    Ok(())
}

// The list has room for every link of the largest field.
fn check_line(rt: &impl Print, extents: [usize; 4], links: &[f64]) -> Result<()> {
    let mut found = [0u32; 384];
    let count = lattice::link_check(extents, links, &mut found).map_err(Error::msg)?;
    let h = found.iter().take(count).fold(Fnv::EMPTY, |h, n| h.add(*n));
    println!(rt; "link_check {count} {h}")?;
    Ok(())
}

// The lines of a field of a kind, which is made here in a list of its length.
pub fn lines(rt: &impl Print, extents: [usize; 4], kind: Kind, links: &mut [f64]) -> Result<()> {
    fill(kind, links);
    println!(rt; "field {kind} {}", Fnv::of(&*links))?;
    let plan = Plan {
        extents,
        coupling: 5.75,
        seed: 0,
        pass: 0,
    };
    number_line(
        rt,
        "average_plaquette",
        lattice::average_plaquette(extents, links),
    )?;
    number_line(rt, "action", lattice::action(plan, links))?;
    loop_line(rt, extents, links)?;
    println!(rt; "plaquettes {}", plaquettes(extents, links))?;
    println!(rt; "staples {}", staples(plan, links))?;
    check_line(rt, extents, links)
}
