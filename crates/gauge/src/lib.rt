// Observables and staples of a field that fits. The crates above check what a host hands in.
#![tactic(auto)]

ghost use Rattle.std.specs.Prelude.{◌≡◌, ◌+◌, ◌*◌, ◌<◌, ◌≤◌, length};
ghost use Rattle.geometry.specs.Radix.{volume};
ghost use Rattle.links.specs.Field.{place_of, field_of};
ghost use Rattle.links.specs.Store.{matrix_at};

mod paired;
mod plaquettes;
mod polyakov;
mod staples;
mod traces;

use geometry::Extents;
use links::Lent;
use mat::Su3;

// A gauge field in a lent list that has the length for its extents.
#[derive(Clone, Copy)]
pub struct Su3Lattice<'a> {
    pub extents: Extents,
    pub links: &'a [f64],
    ghost holds: { length links.now ≡ 72 * volume extents.d },
}

impl Su3Lattice<'_> {
    // Where the link of a direction at a site begins in the list.
    #[tactic(auto, using(links::proofs::Laws::room_at))]
    fn place(&self, mu: usize, n: usize) -> usize
        requires { (mu < 4) × (n < volume self.now.extents.d) }
        ensures place { result ≡ place_of (volume self.now.extents.d) mu n }
        ensures room { result + 18 ≤ length self.now.links.now }
    {
        links::place(self.extents.sites(), mu, n)
    }

    // The link of a direction at a site.
    pub fn link(&self, mu: usize, n: usize) -> Su3
        requires { (mu < 4) × (n < volume self.now.extents.d) }
        ensures { result ≡ field_of (volume self.now.extents.d) self.now.links.now mu n }
    {
        links::link(self.links, self.extents.sites(), mu, n)
    }

    // The same link where it stands.
    fn lend(&self, mu: usize, n: usize) -> Lent<'_>
        requires { (mu < 4) × (n < volume self.now.extents.d) }
        ensures { matrix_at result.links.now result.place ≡ field_of (volume self.now.extents.d) self.now.links.now mu n }
    {
        links::lend(self.links, self.extents.sites(), mu, n)
    }
}
