use crate::Tally;
use anyhow::{Error, Result};
use baryon::Step;
use rows::Refusal;

// The steps as the digits of a number: twice the axis, and 1 more where it goes forward.
fn digits(steps: &[Step]) -> u64 {
    steps.iter().fold(0u64, |x, step| {
        x.wrapping_mul(10).wrapping_add(u64::from(u8::from(*step)))
    })
}

fn staircase(t: &mut Tally, d: [i32; 3], wanted: u64) -> Result<()> {
    let mut steps = [Step::default(); 96];
    let count = baryon::staircase(d, &mut steps).map_err(Error::msg)?;
    let [x, y, z] = d;
    let label = format_args!("staircase to {x} {y} {z}");
    t.whole(label, digits(&steps[..count]), wanted)
}

// Staircases that no theorem computes: two of the worked examples, and four where distances as exact
// fractions would tie otherwise. Each is laid in a list that is lent.
pub fn points(t: &mut Tally) -> Result<()> {
    staircase(t, [2, 1, 0], 353)?;
    staircase(t, [0, 0, -2], 66)?;
    staircase(t, [0, 5, 1], 557555)?;
    staircase(t, [2, 3, 1], 537535)?;
    staircase(t, [3, 1, 2], 375373)?;
    staircase(t, [-3, 1, -2], 265262)?;
    let ends = [
        ([32, -32, 32], None),
        ([33, 0, 0], Some(Refusal::Reach)),
        ([0, 0, -33], Some(Refusal::Reach)),
    ];
    for (d, refusal) in ends {
        let [x, y, z] = d;
        let laid = baryon::staircase(d, &mut [Step::default(); 96]);
        t.row(format_args!("{x} {y} {z}"), laid, refusal)?;
    }
    Ok(())
}
