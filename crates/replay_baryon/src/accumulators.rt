use crate::walks::NEAR;
use anyhow::{Error, Result};
use flux::FluxAccumulator;
use replay_lines::field_lines::{fill, number_line};
use sample::hash::{Bits, Filled, Fnv};
use sample::inputs::Kind;

// A grid of 16 cells and two densities. Lists hold sevens before their calls, and still do where a call is
// refused that leaves them as they were.

// The action density, and after it the topological charge density; where one is refused, its part stays as it was.
fn fill_densities(extents: [usize; 4], links: &[f64], densities: &mut [f64]) {
    let (action, charge) = densities.split_at_mut(densities.len() / 2);
    let _ = fields::action_density(extents, links, action);
    let _ = fields::topological_charge_density(extents, links, charge);
}

// Adds a field of a kind, which is made here: the lists have 72 numbers and 2 for each of its sites. The
// line has the accumulator, the grid and the scratch as they are then.
fn add(
    rt: &impl Print,
    acc: &mut FluxAccumulator,
    kind: Kind,
    extents: [usize; 4],
    links: &mut [f64],
    densities: &mut [f64],
    grid: &mut [f64],
) -> Result<()> {
    fill(kind, links);
    fill_densities(extents, links, densities);
    let mut scratch = [7.0; 64];
    let added = acc.add(extents, 2, links, densities, grid, &mut scratch);
    let row = rows::row(added);
    let samples = acc.samples;
    print!(rt; "add {row} {samples} {}", Bits(acc.w))?;
    for sum in &acc.s[..2] {
        print!(rt; " {}", Bits(*sum))?;
    }
    println!(rt; " {} {}", Fnv::of(&*grid), Fnv::of(scratch))?;
    Ok(())
}

fn mean_lines(rt: &impl Print, acc: FluxAccumulator, grid: &[f64]) -> Result<()> {
    number_line(rt, "mean_loop", acc.mean_loop())?;
    let [action, charge] = [0, 1].map(|k| {
        Filled::by(&mut [7.0; 16], |list| acc.correlation(k, grid, list))
    });
    println!(rt; "correlation {action} {charge}")?;
    Ok(())
}

// Two fields of a kind are added to a new accumulator, by a call with numbers of its own for each line.
pub fn lines(rt: &impl Print, kind: Kind) -> Result<()> {
    let mut grid = [7.0; 32];
    let mut acc = FluxAccumulator::new([2, 4, 2], NEAR, 3, 2, &mut grid).map_err(Error::msg)?;
    add(
        rt,
        &mut acc,
        kind,
        [2, 2, 4, 2],
        &mut [0.0; 2304],
        &mut [7.0; 64],
        &mut grid,
    )?;
    add(
        rt,
        &mut acc,
        kind,
        [4, 2, 4, 2],
        &mut [0.0; 4608],
        &mut [7.0; 128],
        &mut grid,
    )?;
    mean_lines(rt, acc, &grid)
}
