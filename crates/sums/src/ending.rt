#![tactic(auto, unfolding(rows::specs::Refusals::first_refusal, rows::specs::Refusals::answered, rows::specs::Refusals::unless, rows::specs::Finite::bad_numbers, field_checks::specs::Situations::bad_number, crate::specs::Ending::bad_sums, crate::specs::Ending::sums_refusal))]

ghost use Rattle.std.specs.Prelude.{◌≡◌, ◌+◌, min, length};
ghost use Rattle.rows.specs.Refusals.{answered};
ghost use Rattle.sums.specs.Ending.{sums_refusal, SumsStored};

use field_checks::checks;
use rows::Refusal;

// So many more samples, at most 2^64 − 1.
pub fn more_samples(samples: u64, sites: usize) -> u64
    ensures { result ≡ min (samples + sites) 0xffff_ffff_ffff_ffff }
{
    samples.saturating_add(sites as u64)
}

// The sums of the loops and of each density.
#[derive(Clone, Copy, Debug, PartialEq)]
pub struct Sums {
    pub w: f64,
    pub s: [f64; 4],
}

// The test that all new sums are finite.
fn finite_sums(grid: &[f64], sums: Sums) -> Result<(), Refusal>
    ensures { result ≡ answered (sums_refusal grid.now sums.w sums.s) tt }
{
    checks::all_finite(grid)?;
    checks::all_finite(&sums.s)?;
    checks::finite(sums.w)?;
    Ok(())
}

// Stores a grid that stands in the second half of the scratch, where it and the sums are finite. The
// scratch is cleared.
pub fn store(grid: &mut [f64], scratch: &mut [f64], sums: Sums) -> Result<(), Refusal>
    requires { length scratch.old ≡ length grid.old + length grid.old }
    ensures { SumsStored sums.w sums.s grid.old scratch.old result grid.new scratch.new }
{
    let g = grid.len();
    let finite = finite_sums(&scratch[g..], sums);
    if finite.is_ok() {
        slices::copy(grid, &scratch[g..]);
    }
    slices::clear(scratch);
    finite
}
