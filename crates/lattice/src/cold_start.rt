#![tactic(auto, unfolding(rows::specs::Refusals::first_refusal, rows::specs::Refusals::refusal_in, rows::specs::Refusals::answered, rows::specs::Refusals::unless))]

ghost use Rattle.std.specs.Prelude.{◌≡◌, ◌*◌, length};
ghost use Rattle.lattice.specs.Cold.{cold_links, ColdCall};
ghost use Rattle.geometry.specs.Radix.{volume};

use crate::Plan;
use field_checks::checks;
use geometry::Extents;
use mat::Su3;
use rows::Refusal;

// Sets every link of a list to the identity. By number. Tried: `chunks_exact_mut`, after which a proof knows the list's
// length alone. There is no type of a list that is written: each of its methods would promise that its extents and its
// loan stay, two clauses for this one `requires`.
fn set_identities(links: &mut [f64], extents: Extents)
    requires { length links.old ≡ 72 * volume extents.d }
    ensures { links.new ≡ cold_links extents.d }
{
    for k in 0..4 * extents.sites() {
        links::store(links, 18 * k, Su3::IDENTITY);
    }
}

// Cold start: every link is the identity, and the plan is new.
pub fn cold(
    extents: [usize; 4],
    coupling: f64,
    seed: u64,
    links: &mut [f64],
) -> Result<Plan, Refusal>
    ensures { ColdCall extents coupling seed links.old result links.new }
{
    let fitting = checks::coupled_field(extents, coupling, links)?.extents;
    set_identities(links, fitting);
    Ok(Plan {
        extents,
        coupling,
        seed,
        pass: 0,
    })
}
