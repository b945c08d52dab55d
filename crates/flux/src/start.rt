#![tactic(auto, unfolding(rows::specs::Refusals::first_refusal, rows::specs::Refusals::refusal_in, rows::specs::Refusals::answered, rows::specs::Refusals::finally, rows::specs::Refusals::unless, crate::specs::Situations::bad_per_density, crate::specs::Calls::empty_acc))]

ghost use Rattle.flux.specs.Calls.{NewCall};

use crate::{FluxAccumulator, checks};
use rows::Refusal;

impl FluxAccumulator {
    // A new accumulator, with nothing added yet: its lent grid is set to +0.
    pub fn new(
        n: [usize; 3],
        offsets: [[i32; 3]; 3],
        t_len: usize,
        count: u32,
        grid: &mut [f64],
    ) -> Result<Self, Refusal>
        ensures { NewCall n offsets t_len count grid.old result grid.new }
    {
        let cells = checks::grid(n)?.cells();
        checks::length(grid.len(), count as usize * cells)?;
        checks::parameters(offsets, t_len, count)?;
        slices::clear(grid);
        Ok(Self {
            n,
            offsets,
            t_len,
            count,
            samples: 0,
            w: 0.0,
            s: [0.0; 4],
        })
    }
}
