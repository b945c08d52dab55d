ghost use Rattle.std.specs.Prelude.{◌≡◌};
ghost use Rattle.complex.specs.Complex.{cadd, csub, cmul, cneg};

use crate::C64;
use std::ops::{Add, AddAssign, Mul, Neg, Sub, SubAssign};

// One trait for each operator, and so one `impl`.
impl Add for C64 {
    type Output = Self;

    ghost add_gives = { λ a b r. r ≡ cadd a b };

    #[tactic(auto, unfolding(crate::specs::Complex::cadd))]
    fn add(self, o: Self) -> Self {
        Self {
            re: self.re + o.re,
            im: self.im + o.im,
        }
    }
}

impl AddAssign for C64 {
    ghost add_assign_gives = { λ a b r. r ≡ cadd a b };

    #[tactic(auto, unfolding(crate::specs::Complex::cadd))]
    fn add_assign(&mut self, o: Self) {
        self.re += o.re;
        self.im += o.im;
    }
}

impl Sub for C64 {
    type Output = Self;

    ghost sub_gives = { λ a b r. r ≡ csub a b };

    #[tactic(auto, unfolding(crate::specs::Complex::csub))]
    fn sub(self, o: Self) -> Self {
        Self {
            re: self.re - o.re,
            im: self.im - o.im,
        }
    }
}

impl SubAssign for C64 {
    ghost sub_assign_gives = { λ a b r. r ≡ csub a b };

    #[tactic(auto, unfolding(crate::specs::Complex::csub))]
    fn sub_assign(&mut self, o: Self) {
        self.re -= o.re;
        self.im -= o.im;
    }
}

impl Mul for C64 {
    type Output = Self;

    ghost mul_gives = { λ a b r. r ≡ cmul a b };

    #[tactic(auto, unfolding(crate::specs::Complex::cmul))]
    fn mul(self, o: Self) -> Self {
        Self {
            re: self.re * o.re - self.im * o.im,
            im: self.re * o.im + self.im * o.re,
        }
    }
}

impl Neg for C64 {
    type Output = Self;

    ghost neg_gives = { λ a r. r ≡ cneg a };

    #[tactic(auto, unfolding(crate::specs::Complex::cneg))]
    fn neg(self) -> Self {
        Self {
            re: -self.re,
            im: -self.im,
        }
    }
}
