ghost use Rattle.std.specs.Prelude.{◌≡◌};
ghost use Rattle.mat.specs.Unitary.{rows_of, of_rows, unitary_of, reunitarize_of};

use crate::Su3;
use complex::Row;

impl Su3 {
    #[tactic(auto, unfolding(crate::specs::Unitary::rows_of, crate::specs::Unitary::row_of))]
    pub fn rows(self) -> [Row; 3]
        ensures { result ≡ rows_of self }
    {
        let [u0, u1, u2, v0, v1, v2, w0, w1, w2] = self.m;
        [
            Row {
                c0: u0,
                c1: u1,
                c2: u2,
            },
            Row {
                c0: v0,
                c1: v1,
                c2: v2,
            },
            Row {
                c0: w0,
                c1: w1,
                c2: w2,
            },
        ]
    }

    #[tactic(auto, unfolding(crate::specs::Unitary::of_rows))]
    pub fn of_rows(u: Row, v: Row, w: Row) -> Self
        ensures { result ≡ of_rows u v w }
    {
        Self {
            m: [u.c0, u.c1, u.c2, v.c0, v.c1, v.c2, w.c0, w.c1, w.c2],
        }
    }

    // Gram-Schmidt two rows, then set the third to the conjugate cross product.
    #[tactic(auto, unfolding(crate::specs::Unitary::unitary_of, crate::specs::Unitary::ortho_row))]
    pub fn unitary(a: Row, b: Row) -> Self
        ensures { result ≡ unitary_of a b }
    {
        let u = a.unit();
        let v = b.sub_mul(u.conj_dot(b), u).unit();
        Self::of_rows(u, v, u.cross_conj(v))
    }

    // Project back onto SU(3). The third row handed in is not read.
    #[tactic(auto, unfolding(crate::specs::Unitary::reunitarize_of, crate::specs::Unitary::rows_of))]
    pub fn reunitarize(self) -> Self
        ensures { result ≡ reunitarize_of self }
    {
        let [u, v, _] = self.rows();
        Self::unitary(u, v)
    }
}
