ghost use Rattle.std.specs.List.{list_all};
ghost use Rattle.std.specs.Prelude.{◌≡◌, ◌<◌, ◌≤◌, ◌↔◌, true, IsSome, IfSome};
ghost use Rattle.geometry.specs.Radix.{volume, coords_of};
ghost use Rattle.geometry.specs.Shape.{GridShape, extent_test};

// The extents of a grid in space along x, y and z.
#[derive(Clone, Copy, Debug, PartialEq, Eq)]
pub struct Grid {
    pub n: [usize; 3],
    ghost fits: { GridShape n },
}

impl Grid {
    // None where an extent is odd, below 2 or above 16.
    #[tactic(auto, using(crate::proofs::Shape::grid_extents))]
    pub fn new(n: [usize; 3]) -> Option<Self>
        ensures fits { IsSome result ↔ (list_all extent_test n ≡ true) }
        ensures extents { IfSome result (λ g. g.n ≡ n) }
    {
        if crate::fits(n) {
            Some(Self { n })
        } else {
            None
        }
    }

    // The number of its places.
    #[tactic(auto, using(crate::proofs::Bounds::cells_small, crate::proofs::Bounds::cells_are))]
    pub fn cells(self) -> usize
        ensures volume { result ≡ volume self.n }
        ensures bounds { (0 < result) × (result ≤ 4096) }
    {
        let [x, y, z] = self.n;
        x * (y * z)
    }

    // The coordinates x, y, z of a place. What is left of its number for z is below its extent.
    #[tactic(auto, using(crate::proofs::Bounds::grid_low, crate::proofs::Bounds::cell_coords))]
    pub fn coords(self, k: usize) -> [usize; 3]
        requires { k < volume self.n }
        ensures { result ≡ coords_of self.n k }
    {
        let [x, y, _] = self.n;
        let a = k / x;
        [k % x, a % y, a / y]
    }
}
