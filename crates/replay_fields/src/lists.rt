use anyhow::Result;
use sample::hash::{Bits, Filled};

// Lines of calls that fill a list. It holds sevens before, and still does where a call is refused.

pub fn density_lines(rt: &impl Print, extents: [usize; 4], links: &[f64]) -> Result<()> {
    let action = Filled::by(&mut [7.0; 96], |d| {
        fields::action_density(extents, links, d)
    });
    println!(rt; "action_density {action}")?;
    let charge = Filled::by(&mut [7.0; 96], |d| {
        fields::topological_charge_density(extents, links, d)
    });
    println!(rt; "topological_charge_density {charge}")?;
    let [x, y, z] = [0, 1, 2].map(|axis| {
        Filled::by(&mut [7.0; 96], |d| {
            fields::electric_sq(extents, axis, links, d)
        })
    });
    println!(rt; "electric_sq {x} {y} {z}")?;
    Ok(())
}

// A smearing step with a number: the line has its pattern.
pub fn step_line(rt: &impl Print, extents: [usize; 4], rho: f64, links: &[f64]) -> Result<()> {
    let smeared = Filled::by(&mut [7.0; 6912], |s| {
        fields::stout_step(extents, rho, links, s)
    });
    println!(rt; "stout_step {} {smeared}", Bits(rho))?;
    Ok(())
}
