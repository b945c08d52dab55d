use crate::field_lines::fill;
use anyhow::{Error, Result};
use lattice::Plan;
use mat::Su3;
use rows::row_and_value;
use sample::hash::{Bits, Fnv};
use sample::inputs::Kind;
use sweep::Job;

// A frame of this size visits all that is left.
const ALL: usize = usize::MAX;

// The identity's update with itself scaled as the staple: every norm is the scale.
fn bound_line(rt: &impl Print, scale: f64) -> Result<()> {
    let updated = sweep::update_link(Su3::IDENTITY, Su3::IDENTITY.scale(scale));
    let (row, link) = row_and_value(updated, Su3::ZERO);
    println!(rt; "bound {} {row} {}", Bits(scale), Fnv::of(link))?;
    Ok(())
}

// 1e-12, below which a link is stuck, and its neighbours.
pub fn bound_lines(rt: &impl Print) -> Result<()> {
    for scale in [9.999999999999998e-13, 1e-12, 1.0000000000000002e-12] {
        bound_line(rt, scale)?;
    }
    Ok(())
}

// A frame, and its line.
fn frame(rt: &impl Print, job: &mut Job, size: usize, links: &mut [f64]) -> Result<()> {
    sweep::frame_overrelax(job, size, links).map_err(Error::msg)?;
    let visited = job.visited;
    let stuck = job.stuck;
    println!(rt; "frame {size} {visited} {stuck} {}", Fnv::of(&*links))?;
    Ok(())
}

// The first half-sweep, in four frames.
fn frames(rt: &impl Print, plan: &mut Plan, links: &mut [f64]) -> Result<()> {
    let mut job = sweep::open_overrelax(plan, 0, 0).map_err(Error::msg)?;
    for size in [3, 0, 9, ALL] {
        frame(rt, &mut job, size, links)?;
    }
    Ok(())
}

// A half-sweep in one frame. Its line, and none where it is not finished.
fn half_sweep(
    rt: &impl Print,
    plan: &mut Plan,
    direction: usize,
    parity: usize,
    links: &mut [f64],
) -> Result<()> {
    let mut job = sweep::open_overrelax(plan, direction, parity).map_err(Error::msg)?;
    sweep::frame_overrelax(&mut job, ALL, links).map_err(Error::msg)?;
    if sweep::finished(job).map_err(Error::msg)? {
        let stuck = job.stuck;
        println!(rt;
            "half_sweep {direction} {parity} {stuck} {}",
            Fnv::of(&*links)
        )?;
    }
    Ok(())
}

// A whole sweep of a field of a kind, which is made here: the list is one of extents 4, 2, 2, 2.
// Nothing in it is refused. By number: half-sweep n is of direction n / 2 and parity n % 2, the first one in frames.
pub fn lines(rt: &impl Print, kind: Kind, links: &mut [f64]) -> Result<()> {
    fill(kind, links);
    println!(rt; "sweep {kind} {}", Fnv::of(&*links))?;
    let mut plan = Plan {
        extents: [4, 2, 2, 2],
        coupling: 5.75,
        seed: 0,
        pass: 0,
    };
    frames(rt, &mut plan, links)?;
    for n in 1..8 {
        half_sweep(rt, &mut plan, n / 2, n % 2, links)?;
    }
    let pass = plan.pass;
    println!(rt; "pass {pass}")?;
    Ok(())
}
