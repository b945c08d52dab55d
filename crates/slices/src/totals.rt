// Sums of the numbers of a list, from +0.
ghost use Rattle.std.specs.Prelude.{◌≡◌, ◌≤◌};
ghost use Rattle.std.specs.Float.{binary64};
ghost use Rattle.std.specs.Float.Ieee.{add};
ghost use Rattle.std.specs.List.{fold};
ghost use Rattle.complex.specs.Rounded.{fzero};
ghost use Rattle.slices.specs.Slices.{sums_of};

use crate::Densities;

pub fn total(l: &[f64]) -> f64
    ensures { result ≡ fold (add binary64) fzero l.now }
{
    l.iter().fold(0.0, |sum, x| sum + *x)
}

// The densities' sums over all sites, each added to the sum so far.
#[tactic(auto, unfolding(folds::specs::Folds::fill))]
pub fn density_sums(densities: &Densities, s: [f64; 4]) -> [f64; 4]
    requires { densities.now.count ≤ 4 }
    ensures { result ≡ sums_of densities.now.extents.d densities.now.numbers.now densities.now.count s }
{
    let mut sums = s;
    let sites = densities.extents.sites();
    for (k, density) in densities.numbers.chunks_exact(sites).enumerate() {
        sums[k] += total(density);
    }
    sums
}
