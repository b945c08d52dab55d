#![tactic(auto, unfolding(rows::specs::Refusals::first_refusal, rows::specs::Refusals::refusal_in, rows::specs::Refusals::answered, rows::specs::Refusals::finally, contraction::specs::Baryon::baryon_of, crate::specs::Calls::baryon_call))]

ghost use Rattle.std.specs.Prelude.{◌≡◌};
ghost use Rattle.baryon.specs.Calls.{baryon_call};

use field_checks::checks;
use paths::Walker;
use rows::Refusal;

// The loop of three quarks at offsets x, y, z each from the junction at a site, with t_len links along
// time.
pub fn baryon_loop(
    extents: [usize; 4],
    site: usize,
    offsets: [[i32; 3]; 3],
    t_len: usize,
    links: &[f64],
) -> Result<f64, Refusal>
    ensures { result ≡ baryon_call extents site offsets t_len links.now }
{
    let lattice = checks::field(extents, links)?;
    checks::site(lattice.extents, site)?;
    let quarks = stairs::checks::quarks(offsets)?;
    stairs::checks::time(t_len)?;
    let paths = stairs::staircases(quarks);
    checks::finite(contraction::baryon_loop(Walker::new(lattice, site), &paths, t_len))
}
