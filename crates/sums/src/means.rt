#![tactic(auto, unfolding(crate::specs::Means::mean_of))]

ghost use Rattle.std.specs.Prelude.{◌≡◌, length, map};
ghost use Rattle.rows.specs.Finite.{finite_numbers};
ghost use Rattle.sums.specs.Means.{mean_of, ratio};

// A sum over the number of samples.
pub fn mean(sum: f64, samples: u64) -> f64
    ensures { result ≡ mean_of sum samples }
{
    sum / std::num::nearest_u64_to_f64(samples)
}

// A cell's mean over the product of the means.
fn ratio(samples: f64, means: f64, sum: f64) -> f64
    ensures { result ≡ ratio samples means sum }
{
    sum / samples / means
}

// Whether the ratios of all sums are finite, by working them out.
pub fn ratios_finite(sums: &[f64], samples: f64, means: f64) -> bool
    ensures { result ≡ finite_numbers (map (ratio samples means) sums.now) }
{
    sums.iter()
        .all(|sum| rows::is_finite(ratio(samples, means, *sum)))
}

// Stores them.
#[tactic(auto, unfolding(folds::specs::Folds::fill))]
pub fn store_ratios(sums: &[f64], samples: f64, means: f64, out: &mut [f64])
    requires { length out.old ≡ length sums.now }
    ensures { out.new ≡ map (ratio samples means) sums.now }
{
    // Not by a `zip` of `out.iter_mut()`: a proof knows nothing of what an adapter of it has written.
    for (i, x) in out.iter_mut().enumerate() {
        *x = ratio(samples, means, sums[i]);
    }
}
