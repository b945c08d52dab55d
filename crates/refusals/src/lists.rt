// Rows 3, 5 and 12 of lists that are lent beside a cold field of 16 sites, and row 10.
use crate::{EXTENTS, cold, line};
use anyhow::Result;

fn lengths(rt: &impl Print) -> Result<()> {
    let average = |links: &[f64]| lattice::average_plaquette(EXTENTS, links);
    line(rt, "1151 link numbers", average(&[0.0; 1151]))?;
    let r = lattice::plaquette(EXTENTS, 16, 0, 1, &[0.0; 1151]);
    line(rt, "plaquette at site 16 of 1151 link numbers", r)?;
    line(rt, "1153 link numbers", average(&[0.0; 1153]))?;
    line(rt, "1152 link numbers", average(&[0.0; 1152]))
}

fn smearing(rt: &impl Print, links: &[f64]) -> Result<()> {
    let r = fields::stout_step(EXTENTS, 0.1, links, &mut [7.0; 1151]);
    line(rt, "1151 smeared numbers", r)?;
    let r = fields::stout_step(EXTENTS, f64::NAN, links, &mut [7.0; 1152]);
    line(rt, "smearing by NaN", r)?;
    let r = fields::stout_step(EXTENTS, 0.1, links, &mut [7.0; 1152]);
    line(rt, "smearing by 0.1", r)
}

fn densities(rt: &impl Print, links: &[f64]) -> Result<()> {
    let r = fields::electric_sq(EXTENTS, 2, links, &mut [7.0; 17]);
    line(rt, "17 density numbers", r)?;
    let r = fields::electric_sq(EXTENTS, 3, links, &mut [7.0; 16]);
    line(rt, "electric axis 3", r)?;
    let r = fields::electric_sq(EXTENTS, 2, links, &mut [7.0; 16]);
    line(rt, "electric axis 2", r)
}

fn rooms(rt: &impl Print, links: &[f64]) -> Result<()> {
    let r = lattice::link_check(EXTENTS, links, &mut [7; 63]);
    line(rt, "room for 63 unsound links", r)?;
    let r = lattice::link_check(EXTENTS, links, &mut [7; 64]);
    line(rt, "room for 64 unsound links", r)
}

pub fn lines(rt: &impl Print) -> Result<()> {
    lengths(rt)?;
    let links = cold()?;
    smearing(rt, &links)?;
    densities(rt, &links)?;
    rooms(rt, &links)
}
