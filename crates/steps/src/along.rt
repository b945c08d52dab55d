#![tactic(auto, using(crate::proofs::Moves::stride_there, crate::proofs::Moves::coord_there, crate::proofs::Moves::fits, crate::proofs::Moves::up_inside, crate::proofs::Moves::up_around, crate::proofs::Moves::down_inside, crate::proofs::Moves::down_around))]

ghost use Rattle.std.specs.Prelude.{◌≡◌, ◌<◌, get_or};
ghost use Rattle.geometry.specs.Radix.{volume, coords_of};
ghost use Rattle.geometry.specs.Steps.{fwd_of, bwd_of};

use crate::Strides;
use geometry::Extents;

impl Strides {
    #[tactic(auto, using(geometry::proofs::Stride::strides_are))]
    pub fn new(extents: Extents) -> Self
        ensures { result.extents ≡ extents }
    {
        let d = extents.d;
        let s2 = d[0] * d[1];
        let s3 = s2 * d[2];
        Self {
            extents,
            s: [1, d[0], s2, s3, s3 * d[3]],
        }
    }

    // The next site along an axis, wrapping: c is the site's coordinate there. Up and down stay two: one
    // with a flag would have both bodies.
    pub(crate) fn up(&self, n: usize, c: usize, mu: usize) -> usize
        requires { (n < volume self.now.extents.d) × (mu < 4) × (c ≡ get_or (coords_of self.now.extents.d n) mu 0) }
        ensures { result ≡ fwd_of self.now.extents.d n mu }
    {
        let s = self.s[mu];
        let w = self.s[mu + 1];
        if c + 1 < self.extents.d[mu] {
            n + s
        } else {
            n + s - w
        }
    }

    // The site before along an axis, wrapping: c is the site's coordinate there.
    pub(crate) fn down(&self, n: usize, c: usize, mu: usize) -> usize
        requires { (n < volume self.now.extents.d) × (mu < 4) × (c ≡ get_or (coords_of self.now.extents.d n) mu 0) }
        ensures { result ≡ bwd_of self.now.extents.d n mu }
    {
        let s = self.s[mu];
        let w = self.s[mu + 1];
        if 0 < c { n - s } else { n + w - s }
    }

    // A site's coordinate on an axis.
    fn coordinate(&self, n: usize, mu: usize) -> usize
        requires { (n < volume self.now.extents.d) × (mu < 4) }
        ensures { result ≡ get_or (coords_of self.now.extents.d n) mu 0 }
    {
        n / self.s[mu] % self.extents.d[mu]
    }

    // The next site along an axis, wrapping.
    pub fn fwd(&self, n: usize, mu: usize) -> usize
        requires { (n < volume self.now.extents.d) × (mu < 4) }
        ensures { result ≡ fwd_of self.now.extents.d n mu }
    {
        self.up(n, self.coordinate(n, mu), mu)
    }

    // The site before along an axis, wrapping.
    pub fn bwd(&self, n: usize, mu: usize) -> usize
        requires { (n < volume self.now.extents.d) × (mu < 4) }
        ensures { result ≡ bwd_of self.now.extents.d n mu }
    {
        self.down(n, self.coordinate(n, mu), mu)
    }
}
