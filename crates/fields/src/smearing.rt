#![tactic(auto, using(crate::proofs::Placed::links_listed), unfolding(rows::specs::Refusals::first_refusal, rows::specs::Refusals::refusal_in, rows::specs::Refusals::answered, rows::specs::Refusals::finally, rows::specs::Refusals::unless, crate::specs::Calls::stout_call, crate::specs::Calls::smear_refusal, rows::specs::Finite::bad_numbers, crate::specs::Places::link_numbers))]

ghost use Rattle.std.specs.Prelude.{◌≡◌, ◌*◌};
ghost use Rattle.geometry.specs.Radix.{volume};
ghost use Rattle.fields.specs.Calls.{stout_call, SmearCall};
ghost use Rattle.fields.specs.Places.{link_numbers};

use crate::places;
use crate::places::Filling;
use field_checks::checks;
use gauge::Su3Lattice;
use mat::Su3;
use rows::Refusal;

// How many terms of the exponential's series are summed.
const TERMS: u32 = 12;

// The smeared value of one link.
pub fn stout_link(
    extents: [usize; 4],
    site: usize,
    mu: usize,
    rho: f64,
    links: &[f64],
) -> Result<Su3, Refusal>
    ensures { result ≡ stout_call extents site mu rho links.now }
{
    let lattice = checks::field(extents, links)?;
    checks::site(lattice.extents, site)?;
    checks::direction(mu)?;
    checks::finite(stout::stout_link(lattice, site, mu, rho, TERMS))
}

// The smeared links of a field, by direction, then site.
#[derive(Clone, Copy)]
struct Smearing<'a> {
    lattice: Su3Lattice<'a>,
    rho: f64,
}

impl Filling<18> for Smearing<'_> {
    ghost places = { λ s. 4 * volume s.lattice.extents.d };

    ghost numbers = { λ s. link_numbers s.lattice.extents.d s.lattice.links.now s.rho };

    fn places(&self) -> usize {
        4 * self.lattice.extents.sites()
    }

    fn numbers(&self, k: usize) -> [f64; 18] {
        let v = self.lattice.extents.sites();
        stout::stout_link(self.lattice, k % v, k / v, self.rho, TERMS).into()
    }
}

// One stout step on every link at once, from one list into another.
pub fn stout_step(
    extents: [usize; 4],
    rho: f64,
    links: &[f64],
    smeared: &mut [f64],
) -> Result<(), Refusal>
    ensures { SmearCall extents rho links.now smeared.old result smeared.new }
{
    let lattice = checks::field(extents, links)?;
    checks::lattice(lattice.extents, smeared)?;
    let links = Smearing { lattice, rho };
    places::check(&links)?;
    places::store(&links, smeared);
    Ok(())
}
