// The lines of replay on complex numbers, matrices, sites, fields and sweeps.
#![tactic(auto)]

mod arithmetic;
mod complex_lines;
pub mod field_lines;
mod site_lines;
mod sweep_lines;

use anyhow::Result;
use sample::inputs::{KINDS, Kind, Set};

// The list is 72 numbers for each site.
fn lattice_lines(rt: &impl Print, extents: [usize; 4], links: &mut [f64]) -> Result<()> {
    site_lines::lines(rt, extents)?;
    for kind in KINDS {
        field_lines::lines(rt, extents, kind, links)?;
    }
    Ok(())
}

// Overrelaxation, one update and whole sweeps.
fn sweep_part(rt: &impl Print) -> Result<()> {
    arithmetic::update_line(rt, Set::Raw)?;
    arithmetic::update_line(rt, Set::Units)?;
    sweep_lines::bound_lines(rt)?;
    let mut links = [0.0; 2304];
    for kind in [Kind::Group, Kind::Damaged, Kind::Units] {
        sweep_lines::lines(rt, kind, &mut links)?;
    }
    Ok(())
}

pub fn all_lines(rt: &impl Print) -> Result<()> {
    complex_lines::lines(rt)?;
    arithmetic::lines(rt, Set::Raw)?;
    arithmetic::lines(rt, Set::Units)?;
    lattice_lines(rt, [2, 2, 2, 2], &mut [0.0; 1152])?;
    lattice_lines(rt, [4, 2, 2, 2], &mut [0.0; 2304])?;
    lattice_lines(rt, [2, 6, 4, 2], &mut [0.0; 6912])?;
    sweep_part(rt)
}
