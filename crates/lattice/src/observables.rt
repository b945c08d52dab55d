#![tactic(auto, unfolding(rows::specs::Refusals::first_refusal, rows::specs::Refusals::refusal_in, rows::specs::Refusals::answered, rows::specs::Refusals::finally, crate::specs::Answers::plaquette_call, crate::specs::Answers::staple_call, crate::specs::Answers::average_call, crate::specs::Answers::action_call, crate::specs::Answers::polyakov_call))]

ghost use Rattle.std.specs.Prelude.{◌≡◌};
ghost use Rattle.lattice.specs.Answers.{plaquette_call, staple_call, average_call, action_call, polyakov_call};

use crate::Plan;
use complex::C64;
use field_checks::checks;
use mat::Su3;
use rows::Refusal;

// The plaquette of two directions at a site.
pub fn plaquette(
    extents: [usize; 4],
    site: usize,
    mu: usize,
    nu: usize,
    links: &[f64],
) -> Result<Su3, Refusal>
    ensures { result ≡ plaquette_call extents site mu nu links.now }
{
    let lattice = checks::field(extents, links)?;
    checks::site(lattice.extents, site)?;
    checks::plane(mu, nu)?;
    checks::finite(lattice.plaquette(site, mu, nu))
}

// The sum of the six staples around a link.
pub fn staple(plan: Plan, site: usize, mu: usize, links: &[f64]) -> Result<Su3, Refusal>
    ensures { result ≡ staple_call plan site mu links.now }
{
    let lattice = checks::coupled_field(plan.extents, plan.coupling, links)?;
    checks::site(lattice.extents, site)?;
    checks::direction(mu)?;
    checks::finite(lattice.staple(site, mu))
}

// ⟨Re Tr U_P⟩ / 3, averaged over all sites and the six planes.
pub fn average_plaquette(extents: [usize; 4], links: &[f64]) -> Result<f64, Refusal>
    ensures { result ≡ average_call extents links.now }
{
    let lattice = checks::field(extents, links)?;
    checks::finite(lattice.average_plaquette())
}

// The Wilson action β Σ (1 − Re Tr U_P / 3).
pub fn action(plan: Plan, links: &[f64]) -> Result<f64, Refusal>
    ensures { result ≡ action_call plan links.now }
{
    let lattice = checks::coupled_field(plan.extents, plan.coupling, links)?;
    checks::finite(lattice.action(plan.coupling))
}

// The Polyakov loop ⟨Tr Π U_0⟩ / 3, averaged over space.
pub fn polyakov_loop(extents: [usize; 4], links: &[f64]) -> Result<C64, Refusal>
    ensures { result ≡ polyakov_call extents links.now }
{
    let lattice = checks::field(extents, links)?;
    checks::finite(lattice.polyakov_loop())
}
