ghost use Rattle.std.specs.Prelude.{◌≡◌};
ghost use Rattle.mat.specs.Matrix.{dagger_of, trace_of, re_tr, scale_of, dist_sqr, det_of, finite_matrix};

use crate::Su3;
use crate::table::tabulate;
use complex::{C64, minor};
use products::Entries;

impl Su3 {
    pub const ZERO: Self = Self { m: [C64::ZERO; 9] };

    pub const IDENTITY: Self = Self {
        m: [
            C64::ONE,
            C64::ZERO,
            C64::ZERO,
            C64::ZERO,
            C64::ONE,
            C64::ZERO,
            C64::ZERO,
            C64::ZERO,
            C64::ONE,
        ],
    };

    // Conjugate transpose.
    #[tactic(auto, unfolding(crate::specs::Matrix::dagger_of))]
    pub fn dagger(self) -> Self
        ensures { result ≡ dagger_of self }
    {
        tabulate(|i, j| self.entry(j, i).conj())
    }

    #[tactic(auto, unfolding(crate::specs::Matrix::trace_of))]
    pub fn trace(self) -> C64
        ensures { result ≡ trace_of self }
    {
        self.m[0] + self.m[4] + self.m[8]
    }

    #[tactic(auto, unfolding(crate::specs::Matrix::re_tr))]
    pub fn re_tr(self) -> f64
        ensures { result ≡ re_tr self }
    {
        self.m[0].re + self.m[4].re + self.m[8].re
    }

    #[tactic(auto, unfolding(crate::specs::Matrix::scale_of))]
    pub fn scale(self, s: f64) -> Self
        ensures { result ≡ scale_of self s }
    {
        tabulate(|i, j| self.entry(i, j).scale(s))
    }

    // Frobenius distance squared.
    #[tactic(auto, unfolding(crate::specs::Matrix::dist_sqr))]
    pub fn dist_sqr(self, o: Su3) -> f64
        ensures { result ≡ dist_sqr self o }
    {
        let mut s = 0.0;
        for c in (self - o).m {
            s += c.norm_sqr();
        }
        s
    }

    #[tactic(auto, unfolding(crate::specs::Matrix::det_of, crate::specs::Unitary::rows_of, crate::specs::Unitary::row_of))]
    pub fn det(self) -> C64
        ensures { result ≡ det_of self }
    {
        let [a, u, v] = self.rows();
        a.c0 * minor(u.c1, v.c2, u.c2, v.c1) - a.c1 * minor(u.c0, v.c2, u.c2, v.c0)
            + a.c2 * minor(u.c0, v.c1, u.c1, v.c0)
    }

    // None of the eighteen numbers is an infinity or a NaN.
    pub fn is_finite(self) -> bool
        ensures { result ≡ finite_matrix self }
    {
        self.m.iter().all(|c| c.is_finite())
    }
}
