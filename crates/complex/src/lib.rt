// Complex numbers and rows of three, by value: every operation rounds once, in the order that its
// definition in specs/ has.
#![tactic(auto)]

mod number;
mod numbers;
mod operators;
mod row_vector;

pub use number::minor;

#[derive(Clone, Copy, Debug, Default, PartialEq)]
pub struct C64 {
    pub re: f64,
    pub im: f64,
}

// A row of a 3×3 matrix.
#[derive(Clone, Copy, Debug, PartialEq)]
pub struct Row {
    pub c0: C64,
    pub c1: C64,
    pub c2: C64,
}
