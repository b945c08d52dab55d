#![tactic(auto, unfolding(complex::specs::Complex::cadd, mat::specs::Matrix::add_of, crate::specs::Paired::matrix_of))]

ghost use Rattle.std.specs.Prelude.{◌≡◌};
ghost use Rattle.complex.specs.Complex.{cadd};
ghost use Rattle.mat.specs.Matrix.{add_of};
ghost use Rattle.gauge.specs.Paired.{pair_of, first_of, second_of, matrix_of};

use complex::C64;
use mat::Su3;
use std::ops::Add;

// Two complex numbers side by side, which is what vector registers of two f64 are for.
#[derive(Clone, Copy)]
pub struct Pair {
    pub re0: f64,
    pub re1: f64,
    pub im0: f64,
    pub im1: f64,
}

// A matrix with its entries in pairs: a pair for each column of the first two rows, then the third row.
// The compiler works out in such pairs what is added to it.
#[derive(Clone, Copy)]
pub struct Paired {
    pub c0: Pair,
    pub c1: Pair,
    pub c2: Pair,
    pub low: Pair,
    pub last: C64,
}

impl Pair {
    const ZERO: Self = Self {
        re0: 0.0,
        re1: 0.0,
        im0: 0.0,
        im1: 0.0,
    };
}

impl Paired {
    pub const ZERO: Self = Self {
        c0: Pair::ZERO,
        c1: Pair::ZERO,
        c2: Pair::ZERO,
        low: Pair::ZERO,
        last: C64::ZERO,
    };
}

impl Add<(C64, C64)> for Pair {
    type Output = Self;

    ghost add_gives = { λ p c r. r ≡ pair_of (cadd (first_of p) c.0) (cadd (second_of p) c.1) };

    fn add(self, (a, b): (C64, C64)) -> Self {
        Self {
            re0: self.re0 + a.re,
            re1: self.re1 + b.re,
            im0: self.im0 + a.im,
            im1: self.im1 + b.im,
        }
    }
}

impl From<Pair> for (C64, C64) {
    ghost from_gives = { λ p c. (c.0 ≡ first_of p) × (c.1 ≡ second_of p) };

    fn from(p: Pair) -> (C64, C64) {
        let first = C64 {
            re: p.re0,
            im: p.im0,
        };
        let second = C64 {
            re: p.re1,
            im: p.im1,
        };
        (first, second)
    }
}

impl Add<Su3> for Paired {
    type Output = Self;

    ghost add_gives = { λ s u r. matrix_of r ≡ add_of (matrix_of s) u };

    fn add(self, u: Su3) -> Self {
        let m = u.m;
        Self {
            c0: self.c0 + (m[0], m[3]),
            c1: self.c1 + (m[1], m[4]),
            c2: self.c2 + (m[2], m[5]),
            low: self.low + (m[6], m[7]),
            last: self.last + m[8],
        }
    }
}

impl From<Paired> for Su3 {
    ghost from_gives = { λ s u. u ≡ matrix_of s };

    fn from(s: Paired) -> Su3 {
        let (m0, m3) = s.c0.into();
        let (m1, m4) = s.c1.into();
        let (m2, m5) = s.c2.into();
        let (m6, m7) = s.low.into();
        Su3 {
            m: [m0, m1, m2, m3, m4, m5, m6, m7, s.last],
        }
    }
}
