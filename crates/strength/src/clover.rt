#![tactic(auto, using(geometry::proofs::Shape::volume_high, geometry::proofs::Neighbour::near_up, geometry::proofs::Neighbour::near_down, geometry::proofs::Neighbour::fwd_below, geometry::proofs::Neighbour::bwd_below, geometry::proofs::Neighbour::up_down, geometry::proofs::Neighbour::down_up, geometry::proofs::Neighbour::down_down, crate::proofs::Corners::up_down_low, crate::proofs::Corners::down_up_low, crate::proofs::Corners::down_down_low), unfolding(gauge::specs::Plaquette::plaquette_of, crate::specs::Clover::clover_of, crate::specs::Clover::strength_of, crate::specs::Clover::strengths_of))]

ghost use Rattle.std.specs.Prelude.{◌≡◌, ◌<◌};
ghost use Rattle.geometry.specs.Radix.{volume};
ghost use Rattle.geometry.specs.Steps.{fwd_of, bwd_of};
ghost use Rattle.gauge.specs.Field.{link_of};
ghost use Rattle.strength.specs.Clover.{upper_left, lower_left, lower_right, clover_of, strength_of, strengths_of};

use crate::{Plane, Site};
use mat::Su3;

impl Site<'_> {
    // n + mu
    fn up(&self, mu: usize) -> usize
        requires { mu < 4 }
        ensures step { result ≡ fwd_of self.now.lattice.extents.d self.now.n mu }
        ensures below { result < volume self.now.lattice.extents.d }
    {
        self.near.up[mu]
    }

    // n - mu
    fn down(&self, mu: usize) -> usize
        requires { mu < 4 }
        ensures step { result ≡ bwd_of self.now.lattice.extents.d self.now.n mu }
        ensures below { result < volume self.now.lattice.extents.d }
    {
        self.near.down[mu]
    }

    // In the six planes.
    pub fn field_strength_at(&self) -> [Su3; 6]
        ensures { let l = self.now.lattice in result ≡ strengths_of l.extents.d (link_of l.extents.d l.links.now) self.now.n }
    {
        [
            self.plane(0, 1).strength(),
            self.plane(0, 2).strength(),
            self.plane(0, 3).strength(),
            self.plane(1, 2).strength(),
            self.plane(1, 3).strength(),
            self.plane(2, 3).strength(),
        ]
    }
}

// A corner's number is a sum where mu and nu differ: n - mu + nu is (n - mu) + (n + nu) - n.
impl Plane<'_> {
    // n + nu - mu
    fn above_left(&self) -> usize
        ensures corner { let d = self.now.site.now.lattice.extents.d in result ≡ bwd_of d (fwd_of d self.now.site.now.n self.now.nu) self.now.mu }
        ensures below { result < volume self.now.site.now.lattice.extents.d }
    {
        self.site.up(self.nu) + self.site.down(self.mu) - self.site.n
    }

    // n - mu - nu
    fn below_left(&self) -> usize
        ensures corner { let d = self.now.site.now.lattice.extents.d in result ≡ bwd_of d (bwd_of d self.now.site.now.n self.now.mu) self.now.nu }
        ensures below { result < volume self.now.site.now.lattice.extents.d }
    {
        self.site.down(self.mu) + self.site.down(self.nu) - self.site.n
    }

    // n - nu + mu
    fn below_right(&self) -> usize
        ensures corner { let d = self.now.site.now.lattice.extents.d in result ≡ fwd_of d (bwd_of d self.now.site.now.n self.now.nu) self.now.mu }
        ensures below { result < volume self.now.site.now.lattice.extents.d }
    {
        self.site.down(self.nu) + self.site.up(self.mu) - self.site.n
    }

    // U_ν(n) U_μ†(w) U_ν†(b) U_μ(b): b is n - mu, w is n + nu - mu.
    fn upper_left(&self) -> Su3
        ensures { let l = self.now.site.now.lattice in let d = l.extents.d in let n = self.now.site.now.n in let mu = self.now.mu in let nu = self.now.nu in result ≡ upper_left (link_of d l.links.now) mu nu n (bwd_of d n mu) (bwd_of d (fwd_of d n nu) mu) }
    {
        let Plane { site, mu, nu } = *self;
        let u = site.lattice;
        let b = site.down(mu);
        u.link(nu, site.n)
            .mul_dag(u.link(mu, self.above_left()))
            .mul_dag(u.link(nu, b))
            * u.link(mu, b)
    }

    // U_μ†(b) U_ν†(w) U_μ(w) U_ν(c): b is n - mu, c is n - nu, w is n - mu - nu.
    fn lower_left(&self) -> Su3
        ensures { let l = self.now.site.now.lattice in let d = l.extents.d in let n = self.now.site.now.n in let mu = self.now.mu in let nu = self.now.nu in result ≡ lower_left (link_of d l.links.now) mu nu (bwd_of d n mu) (bwd_of d n nu) (bwd_of d (bwd_of d n mu) nu) }
    {
        let Plane { site, mu, nu } = *self;
        let u = site.lattice;
        let w = self.below_left();
        let x = u.link(nu, w) * u.link(mu, site.down(mu));
        let y = u.link(mu, w) * u.link(nu, site.down(nu));
        x.dag_mul(y)
    }

    // U_ν†(c) U_μ(c) U_ν(w) U_μ†(n): c is n - nu, w is n - nu + mu.
    fn lower_right(&self) -> Su3
        ensures { let l = self.now.site.now.lattice in let d = l.extents.d in let n = self.now.site.now.n in let mu = self.now.mu in let nu = self.now.nu in result ≡ lower_right (link_of d l.links.now) mu nu n (bwd_of d n nu) (fwd_of d (bwd_of d n nu) mu) }
    {
        let Plane { site, mu, nu } = *self;
        let u = site.lattice;
        let c = site.down(nu);
        let x = u.link(nu, c).dag_mul(u.link(mu, c));
        let y = u.link(nu, self.below_right()).mul_dag(u.link(mu, site.n));
        x * y
    }

    // The sum of the four leaves, the plaquette first.
    pub fn clover_leaves(&self) -> Su3
        ensures { let l = self.now.site.now.lattice in result ≡ clover_of l.extents.d (link_of l.extents.d l.links.now) self.now.site.now.n self.now.mu self.now.nu }
    {
        let Plane { site, mu, nu } = *self;
        let l1 = site
            .lattice
            .plaquette_at(site.n, mu, nu, site.up(mu), site.up(nu));
        let l2 = self.upper_left();
        let l3 = self.lower_left();
        let l4 = self.lower_right();
        l1 + l2 + l3 + l4
    }

    // F_μν.
    pub fn strength(&self) -> Su3
        ensures { let l = self.now.site.now.lattice in result ≡ strength_of l.extents.d (link_of l.extents.d l.links.now) self.now.site.now.n self.now.mu self.now.nu }
    {
        self.clover_leaves().traceless_antihermitian().scale(0.25)
    }
}
