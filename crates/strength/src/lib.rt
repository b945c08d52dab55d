// The clover field strength and the densities at a site of a field.
#![tactic(auto)]

ghost use Rattle.std.specs.Prelude.{◌≡◌, ◌≢◌, ◌<◌};
ghost use Rattle.geometry.specs.Radix.{volume};
ghost use Rattle.geometry.specs.Steps.{neighbours_of};

mod clover;
mod densities;

use gauge::Su3Lattice;
use geometry::Neighbours;
use steps::Position;

// A density, and for the electric one its axis of space: 0 is x. An enum and no closure: the claims on densities
// are over it.
#[derive(Clone, Copy)]
pub enum Density {
    Action,
    Charge,
    Electric(usize),
}

// A site of a field, and the sites next to it.
#[derive(Clone, Copy)]
pub struct Site<'a> {
    pub lattice: Su3Lattice<'a>,
    pub n: usize,
    pub near: Neighbours,
    ghost below: { n < volume lattice.extents.d },
    ghost sides: { near ≡ neighbours_of lattice.extents.d n },
}

// A plane of two directions at a site.
#[derive(Clone, Copy)]
pub struct Plane<'a> {
    pub site: &'a Site<'a>,
    pub mu: usize,
    pub nu: usize,
    ghost axis: { mu < 4 },
    ghost other: { nu < 4 },
    ghost apart: { nu ≢ mu },
}

impl<'a> Site<'a> {
    // Always inline: called, it would copy the site.
    #[inline(always)]
    pub fn new(lattice: Su3Lattice<'a>, n: usize) -> Self
        requires { n < volume lattice.extents.d }
        ensures field { result.lattice ≡ lattice.entry }
        ensures place { result.n ≡ n }
    {
        let near = Position::new(lattice.extents, n).neighbours();
        Site { lattice, n, near }
    }

    pub fn plane(&self, mu: usize, nu: usize) -> Plane<'_>
        requires { (mu < 4) × (nu < 4) × (nu ≢ mu) }
        ensures site { result.site.now ≡ self.now }
        ensures axes { (result.mu ≡ mu) × (result.nu ≡ nu) }
    {
        Plane { site: self, mu, nu }
    }
}
