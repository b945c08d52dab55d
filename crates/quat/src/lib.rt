// Quaternions, complex 2×2 matrices and the SU(2) subgroups of SU(3), by value: every operation rounds
// once, in the order that its definition in specs/ has.
#![tactic(auto)]

mod numbers;
mod quaternion;
mod subgroups;

use complex::C64;
pub use subgroups::{SUBGROUPS, left_mul_sub, sub_block};

// A complex 2×2 matrix.
#[derive(Clone, Copy, Debug, PartialEq)]
pub struct Mat2 {
    pub m00: C64,
    pub m01: C64,
    pub m10: C64,
    pub m11: C64,
}

// `a0 + i(a1 σ1 + a2 σ2 + a3 σ3)`, which is the matrix `[[a0 + i a3, a2 + i a1], [−a2 + i a1, a0 − i a3]]`:
// in SU(2) where its norm is 1.
#[derive(Clone, Copy, Debug, PartialEq)]
pub struct Quat {
    pub a0: f64,
    pub a1: f64,
    pub a2: f64,
    pub a3: f64,
}

// The rows, and columns, i < j of a 3×3 matrix that an SU(2) subgroup acts on.
#[derive(Clone, Copy, Debug, PartialEq, Eq)]
pub struct Subgroup {
    pub i: usize,
    pub j: usize,
}
