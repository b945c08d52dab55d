// Stout smearing of one link of a field.
#![tactic(auto, unfolding(crate::specs::Stout::stout_of, crate::specs::Stout::exponent_of))]

ghost use Rattle.std.specs.Prelude.{◌≡◌, ◌<◌};
ghost use Rattle.geometry.specs.Radix.{volume};
ghost use Rattle.gauge.specs.Field.{link_of};
ghost use Rattle.stout.specs.Stout.{stout_of};

use gauge::Su3Lattice;
use mat::Su3;

// The smeared link, from the links of the list as they are.
pub fn stout_link(lattice: Su3Lattice<'_>, n: usize, mu: usize, rho: f64, terms: u32) -> Su3
    requires { (n < volume lattice.extents.d) × (mu < 4) }
    ensures { let d = lattice.entry.extents.d in result ≡ stout_of d (link_of d lattice.entry.links.now) terms rho n mu }
{
    let u = lattice.link(mu, n);
    let x = (u * lattice.staple(n, mu)).traceless_antihermitian();
    Su3::exp_series(x.scale(-rho), terms).reunitarize() * u
}
