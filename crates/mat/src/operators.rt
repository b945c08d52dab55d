ghost use Rattle.std.specs.Prelude.{◌≡◌};
ghost use Rattle.mat.specs.Matrix.{add_of, sub_of};
ghost use Rattle.mat.specs.Product.{mul_of};

use crate::Su3;
use crate::table::tabulate;
use products::Entries;
use std::ops::{Add, AddAssign, Mul, Sub};

impl Add for Su3 {
    type Output = Self;

    ghost add_gives = { λ a b r. r ≡ add_of a b };

    #[tactic(auto, unfolding(crate::specs::Matrix::add_of))]
    fn add(self, o: Self) -> Self {
        tabulate(|i, j| self.entry(i, j) + o.entry(i, j))
    }
}

impl AddAssign for Su3 {
    ghost add_assign_gives = { λ a b r. r ≡ add_of a b };

    fn add_assign(&mut self, o: Self) {
        *self = *self + o;
    }
}

impl Sub for Su3 {
    type Output = Self;

    ghost sub_gives = { λ a b r. r ≡ sub_of a b };

    #[tactic(auto, unfolding(crate::specs::Matrix::sub_of))]
    fn sub(self, o: Self) -> Self {
        tabulate(|i, j| self.entry(i, j) - o.entry(i, j))
    }
}

impl Mul for Su3 {
    type Output = Self;

    ghost mul_gives = { λ a b r. r ≡ mul_of a b };

    #[tactic(auto, using(crate::proofs::Tables::product_is))]
    fn mul(self, o: Self) -> Self {
        Self::product(&self, &o)
    }
}
