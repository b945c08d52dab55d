ghost use Rattle.std.specs.Prelude.{◌≡◌, ◌<◌};
ghost use Rattle.mat.specs.Matrix.{trace_of};
ghost use Rattle.mat.specs.Product.{mul_of};
ghost use Rattle.links.specs.Lent.{lent_of};
ghost use Rattle.geometry.specs.Radix.{volume};
ghost use Rattle.gauge.specs.Field.{link_of};
ghost use Rattle.gauge.specs.Polyakov.{space, polyakov_trace, polyakov_of};

use crate::Su3Lattice;
use complex::C64;
use links::Lent;
use mat::Su3;

// Tr p·u. With p by value, since the compiler then leaves the product of the line in its place: by a
// reference, each turn of the loop copies it.
#[tactic(auto, using(mat::proofs::Tables::product_is))]
fn trace(p: Su3, u: Lent) -> C64
    ensures { result ≡ trace_of (mul_of p (lent_of u.entry)) }
{
    Su3::trace_of_product(&p, u)
}

impl Su3Lattice<'_> {
    // The trace of the line around time at the k-th place of space. Its sites have consecutive numbers;
    // of the last product only the diagonal is worked out.
    #[tactic(auto, using(geometry::proofs::Bounds::shape_low, crate::proofs::TimeLine::line_in, crate::proofs::TimeLine::line_first, crate::proofs::TimeLine::line_none, crate::proofs::TimeLine::line_next))]
    fn loop_trace(&self, k: usize) -> C64
        requires { k < volume (space self.now.extents.d) }
        ensures { let d = self.now.extents.d in result ≡ polyakov_trace d (link_of d self.now.links.now) k }
    {
        let last = self.extents.d[0] - 1;
        let first = self.extents.d[0] * k;
        let mut p = Su3::IDENTITY;
        for t in 0..last {
            p = p * self.link(0, first + t);
        }
        trace(p, self.lend(0, first + last))
    }

    // ⟨Tr Π U_0⟩ / 3 over all places of space. By number: a field has no list of them.
    #[tactic(auto, unfolding(crate::specs::Polyakov::polyakov_of))]
    pub fn polyakov_loop(&self) -> C64
        ensures { let d = self.now.extents.d in result ≡ polyakov_of d (link_of d self.now.links.now) }
    {
        let places = self.extents.space().cells();
        let mut s = C64::ZERO;
        for k in 0..places {
            s += self.loop_trace(k);
        }
        s.scale(1.0 / (3.0 * (places as u32) as f64))
    }
}
