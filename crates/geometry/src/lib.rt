// Sites, their coordinates and parity. The extents d are those of t, x, y and z.
#![tactic(auto)]

ghost use Rattle.std.specs.List.{list_all};
ghost use Rattle.std.specs.Prelude.{◌≡◌, ◌+◌, ◌%◌, ◌<◌, ◌≤◌, ◌↔◌, true, IsSome, IfSome, drop};
ghost use Rattle.geometry.specs.Radix.{volume, coords_of, index_of, Within};
ghost use Rattle.geometry.specs.Shape.{Shape, extent_test, fits_of};
ghost use Rattle.geometry.specs.Steps.{parity_of, spot_of};
ghost use Rattle.geometry.specs.Order.{half_of, nth_of};

mod grid;

pub use grid::Grid;

// The sites next to a site, up and down each axis.
#[derive(Clone, Copy)]
pub struct Neighbours {
    pub up: [usize; 4],
    pub down: [usize; 4],
}

// A site and its coordinates t, x, y, z.
#[derive(Clone, Copy)]
pub struct Spot {
    pub site: usize,
    pub at: [usize; 4],
}

// A number below 2n, modulo n.
pub fn wrap(a: usize, n: usize) -> usize
    requires { a < n + n }
    ensures { result ≡ a % n }
{
    if a < n { a } else { a - n }
}

// Whether an extent is even and from 2 to 16.
#[tactic(auto, unfolding(crate::specs::Shape::extent_test))]
pub fn extent_fits(e: usize) -> bool
    ensures { result ≡ extent_test e }
{
    (2..=16).contains(&e) && e % 2 == 0
}

// Whether a field, or a grid in space, can have these extents.
pub fn fits<const N: usize>(d: [usize; N]) -> bool
    ensures { result ≡ list_all extent_test d.entry }
{
    d.iter().all(|e| extent_fits(*e))
}

// The extents of a field along t, x, y and z.
#[derive(Clone, Copy, Debug, PartialEq, Eq)]
pub struct Extents {
    pub d: [usize; 4],
    ghost fits: { Shape d },
    ghost few: { (0 < volume d) × (volume d ≤ 65536) },
}

impl Extents {
    // None where an extent is odd, below 2 or above 16.
    #[tactic(auto, using(crate::proofs::Shape::all_fit, crate::proofs::Shape::fits_shape, crate::proofs::Shape::volume_pos, crate::proofs::Shape::volume_high))]
    pub fn new(d: [usize; 4]) -> Option<Self>
        ensures fits { IsSome result ↔ (fits_of d ≡ true) }
        ensures extents { IfSome result (λ e. e.d ≡ d) }
    {
        if fits(d) { Some(Self { d }) } else { None }
    }

    // Those along x, y and z.
    #[tactic(auto, using(crate::proofs::Shape::space_fits, crate::proofs::Shape::space_are))]
    pub fn space(self) -> Grid
        ensures { result.n ≡ drop 1 self.d }
    {
        let d = self.d;
        Grid {
            n: [d[1], d[2], d[3]],
        }
    }

    // The number of sites.
    #[tactic(auto, using(crate::proofs::Shape::volume_is, crate::proofs::Bounds::shape_high))]
    pub fn sites(self) -> usize
        ensures { result ≡ volume self.d }
    {
        self.d[0] * self.space().cells()
    }

    // The coordinates t, x, y, z of a site. What is left of the number for z is below its extent.
    #[tactic(auto, using(crate::proofs::Bounds::shape_low, crate::proofs::Bounds::coords_are))]
    pub fn coords(self, site: usize) -> [usize; 4]
        requires { site < volume self.d }
        ensures { result ≡ coords_of self.d site }
    {
        let d = self.d;
        let a = site / d[0];
        let b = a / d[1];
        [site % d[0], a % d[1], b % d[2], b / d[2]]
    }

    // A site with its coordinates.
    #[tactic(auto, unfolding(crate::specs::Steps::spot_of))]
    pub fn spot(self, site: usize) -> Spot
        requires { site < volume self.d }
        ensures { result ≡ spot_of self.d site }
    {
        Spot {
            site,
            at: self.coords(site),
        }
    }

    // The site at coordinates.
    #[tactic(auto, using(crate::proofs::Bounds::index_small, crate::proofs::Bounds::index_is))]
    pub fn index(self, c: [usize; 4]) -> usize
        requires { Within self.d c }
        ensures { result ≡ index_of self.d c }
    {
        let d = self.d;
        c[0] + d[0] * (c[1] + d[1] * (c[2] + d[2] * c[3]))
    }

    // 0 or 1: whether the coordinates' sum is even or odd.
    #[tactic(auto, using(crate::proofs::Bounds::coords_high, crate::proofs::Bounds::parity_is))]
    pub fn parity(self, site: usize) -> usize
        requires { site < volume self.d }
        ensures { result ≡ parity_of self.d site }
    {
        let c = self.coords(site);
        (c[0] + c[1] + c[2] + c[3]) % 2
    }

    // The k-th site of a parity in ascending order, counted from 0.
    #[tactic(auto, using(crate::proofs::Order::halves, crate::proofs::Steps::parity_small), unfolding(crate::specs::Order::nth_of))]
    pub fn nth(self, p: usize, k: usize) -> usize
        requires { (p < 2) × (k < half_of self.d) }
        ensures { result ≡ nth_of self.d p k }
    {
        let at = 2 * k;
        at + (p + self.parity(at)) % 2
    }
}
