#![tactic(auto, unfolding(rows::specs::Refusals::first_refusal, rows::specs::Refusals::refusal_in, rows::specs::Refusals::answered, rows::specs::Refusals::finally, rows::specs::Refusals::unless, crate::specs::Situations::no_samples, crate::specs::Situations::no_means, crate::specs::Situations::bad_density, crate::specs::Situations::bad_per_density, crate::specs::Situations::bad_correlation, crate::specs::Calls::mean_call, crate::specs::Calls::correlation_refusal, crate::specs::Means::mean_loop, crate::specs::Means::means_of))]

ghost use Rattle.std.specs.Prelude.{◌≡◌, ◌<◌, length};
ghost use Rattle.flux.specs.Means.{means_of};
ghost use Rattle.flux.specs.Calls.{mean_call, CorrelationCall};

use crate::{FluxAccumulator, checks};
use rows::Refusal;
use sums::{mean, ratios_finite, store_ratios};

impl FluxAccumulator {
    // The mean of the loops so far.
    pub fn mean_loop(self) -> Result<f64, Refusal>
        ensures { result ≡ mean_call self }
    {
        checks::grid(self.n)?;
        checks::parameters(self.offsets, self.t_len, self.count)?;
        if self.samples == 0 {
            return Err(Refusal::NoMean);
        }
        field_checks::checks::finite(mean(self.w, self.samples))
    }

    // Mean loop times mean density.
    fn product_of_means(self, k: u32) -> f64
        requires { k < 4 }
        ensures { result ≡ means_of self k }
    {
        mean(self.w, self.samples) * mean(self.s[k as usize], self.samples)
    }

    // The correlation of the loop with the k-th density at every offset.
    pub fn correlation(self, k: u32, grid: &[f64], out: &mut [f64]) -> Result<(), Refusal>
        ensures { CorrelationCall self k grid.now out.old result out.new }
    {
        let cells = checks::grid(self.n)?.cells();
        checks::length(grid.len(), self.count as usize * cells)?;
        checks::length(out.len(), cells)?;
        checks::parameters(self.offsets, self.t_len, self.count)?;
        if k >= self.count {
            return Err(Refusal::Densities);
        }
        let means = self.product_of_means(k);
        if self.samples == 0 || means == 0.0 {
            return Err(Refusal::NoMean);
        }
        let samples = std::num::nearest_u64_to_f64(self.samples);
        let first = k as usize * cells;
        let sums = &grid[first..first + cells];
        if !ratios_finite(sums, samples, means) {
            return Err(Refusal::NotFinite);
        }
        store_ratios(sums, samples, means, out);
        Ok(())
    }
}
