// Lines along time, in a field of zeros.
use crate::Tally;
use anyhow::{Error, Result};
use mat::Su3;
use rows::Refusal;

// A line of no links is the identity, whatever the field.
fn identity(t: &mut Tally, links: &[f64]) -> Result<()> {
    let (u, site) = baryon::time_line([2, 2, 2, 2], 5, 0, links).map_err(Error::msg)?;
    let far = u64::from(u.dist_sqr(Su3::IDENTITY) != 0.0);
    t.whole("time length 0 is off the identity", far, 0)?;
    t.whole("time length 0 ends at", site as u64, 5)
}

pub fn points(t: &mut Tally) -> Result<()> {
    let links = [0.0; 1152];
    identity(t, &links)?;
    for (t_len, refusal) in [(64, None), (65, Some(Refusal::Reach))] {
        let line = baryon::time_line([2, 2, 2, 2], 5, t_len, &links);
        t.row(format_args!("time length {t_len}"), line, refusal)?;
    }
    Ok(())
}
