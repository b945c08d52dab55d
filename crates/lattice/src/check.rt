#![tactic(auto, unfolding(rows::specs::Refusals::first_refusal, rows::specs::Refusals::refusal_in, rows::specs::Refusals::answered))]

ghost use Rattle.std.specs.Prelude.{◌≤◌, IfOk};
ghost use Rattle.lattice.specs.Check.{CheckCall};

use field_checks::checks;
use rows::Refusal;

// Writes the number of each unsound link, direction times sites + site, to the front of a list, and
// gives their count.
pub fn link_check(extents: [usize; 4], links: &[f64], found: &mut [u32]) -> Result<usize, Refusal>
    ensures call { CheckCall extents links.now found.old result found.new }
    ensures few { IfOk result (λ n. n ≤ 262144) }
{
    let lattice = checks::field(extents, links)?;
    checks::room(lattice.extents, found.len())?;
    Ok(sound::list_unsound(&lattice, found))
}
