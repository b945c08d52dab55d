#![tactic(auto, using(mat::proofs::Tables::products, geometry::proofs::Neighbour::near_up, geometry::proofs::Neighbour::near_down, geometry::proofs::Neighbour::fwd_below, geometry::proofs::Neighbour::bwd_below, geometry::proofs::Neighbour::up_down, crate::proofs::Around::corner_low, geometry::proofs::Shape::volume_high), unfolding(crate::specs::Staple::add_staples, crate::specs::Staple::staples_to, crate::specs::Staple::staple_of))]

ghost use Rattle.std.specs.Prelude.{◌≡◌, ◌≢◌, ◌<◌};
ghost use Rattle.geometry.specs.Radix.{volume};
ghost use Rattle.geometry.specs.Steps.{neighbours_of};
ghost use Rattle.gauge.specs.Field.{link_of};
ghost use Rattle.gauge.specs.Staple.{add_staples, staple_of};
ghost use Rattle.gauge.specs.Paired.{matrix_of};

use crate::Su3Lattice;
use crate::paired::Paired;
use geometry::Neighbours;
use mat::Su3;
use products::Adjoint;
use steps::Position;

impl Su3Lattice<'_> {
    // a, and then the two staples in the plane of mu and nu at n. The sites: f is n + mu, u is n + nu,
    // b is n - nu, s is n + mu - nu.
    fn add_staples(&self, n: usize, mu: usize, nu: usize, near: &Neighbours, a: Paired) -> Paired
        requires plane { (n < volume self.now.extents.d) × (mu < 4) × (nu < 4) × (nu ≢ mu) }
        requires sides { near.now ≡ neighbours_of self.now.extents.d n }
        ensures { let d = self.now.extents.d in matrix_of result ≡ add_staples d (link_of d self.now.links.now) n mu nu (matrix_of a) }
    {
        let f = near.up[mu];
        let u = near.up[nu];
        let b = near.down[nu];
        let s = f + b - n;
        let upper = Su3::product(
            &Su3::product(self.lend(nu, f), Adjoint(self.lend(mu, u))),
            Adjoint(self.lend(nu, n)),
        );
        let lower = Su3::product(
            &Su3::product(Adjoint(self.lend(nu, s)), Adjoint(self.lend(mu, b))),
            self.lend(nu, b),
        );
        a + upper + lower
    }

    // The sum of the six staples around a link. Two calls of `add_staples`, so that it stands by itself
    // in the machine's code: merged into a loop it would lose its pairs.
    pub fn staple(&self, n: usize, mu: usize) -> Su3
        requires { (n < volume self.now.extents.d) × (mu < 4) }
        ensures { let d = self.now.extents.d in result ≡ staple_of d (link_of d self.now.links.now) n mu }
    {
        let near = Position::new(self.extents, n).neighbours();
        let mut a = Paired::ZERO;
        for nu in 0..mu {
            a = self.add_staples(n, mu, nu, &near, a);
        }
        for nu in mu + 1..4 {
            a = self.add_staples(n, mu, nu, &near, a);
        }
        a.into()
    }
}
