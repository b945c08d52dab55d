ghost use Rattle.std.specs.Prelude.{◌≡◌};
ghost use Rattle.complex.specs.Row.{conj_dot, row_scale, row_norm_sqr, row_sub_mul, row_combination, unit_row, cross_conj};

use crate::number::minor;
use crate::{C64, Row};

impl Row {
    #[tactic(auto, unfolding(crate::specs::Row::conj_dot))]
    pub fn conj_dot(self, o: Row) -> C64
        ensures { result ≡ conj_dot self o }
    {
        C64::ZERO + self.c0.conj() * o.c0 + self.c1.conj() * o.c1 + self.c2.conj() * o.c2
    }

    #[tactic(auto, unfolding(crate::specs::Row::row_scale))]
    pub fn scale(self, s: f64) -> Self
        ensures { result ≡ row_scale self s }
    {
        Self {
            c0: self.c0.scale(s),
            c1: self.c1.scale(s),
            c2: self.c2.scale(s),
        }
    }

    #[tactic(auto, unfolding(crate::specs::Row::row_norm_sqr))]
    pub fn norm_sqr(self) -> f64
        ensures { result ≡ row_norm_sqr self }
    {
        0.0 + self.c0.norm_sqr() + self.c1.norm_sqr() + self.c2.norm_sqr()
    }

    #[tactic(auto, unfolding(crate::specs::Row::row_sub_mul))]
    pub fn sub_mul(self, d: C64, o: Row) -> Self
        ensures { result ≡ row_sub_mul self d o }
    {
        Self {
            c0: self.c0 - d * o.c0,
            c1: self.c1 - d * o.c1,
            c2: self.c2 - d * o.c2,
        }
    }

    // x·a + y·b
    #[tactic(auto, unfolding(crate::specs::Row::row_combination))]
    pub fn combine(x: C64, a: Row, y: C64, b: Row) -> Self
        ensures { result ≡ row_combination x a y b }
    {
        Self {
            c0: C64::combine(x, a.c0, y, b.c0),
            c1: C64::combine(x, a.c1, y, b.c1),
            c2: C64::combine(x, a.c2, y, b.c2),
        }
    }

    #[tactic(auto, unfolding(crate::specs::Row::unit_row))]
    pub fn unit(self) -> Self
        ensures { result ≡ unit_row self }
    {
        self.scale(1.0 / root::sqrt(self.norm_sqr()))
    }

    #[tactic(auto, unfolding(crate::specs::Row::cross_conj))]
    pub fn cross_conj(self, o: Row) -> Self
        ensures { result ≡ cross_conj self o }
    {
        Self {
            c0: minor(self.c1, o.c2, self.c2, o.c1).conj(),
            c1: minor(self.c2, o.c0, self.c0, o.c2).conj(),
            c2: minor(self.c0, o.c1, self.c1, o.c0).conj(),
        }
    }
}
