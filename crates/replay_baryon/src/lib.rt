// The lines of replay on staircases, paths, loops and accumulators. compare/src/sample/baryon.rs has them.
#![tactic(auto)]

mod accumulators;
mod staircases;
mod walks;

use anyhow::Result;
use sample::inputs::KINDS;

pub fn all_lines(rt: &impl Print) -> Result<()> {
    staircases::lines(rt)?;
    for kind in KINDS {
        walks::lines(rt, kind)?;
        accumulators::lines(rt, kind)?;
    }
    Ok(())
}
