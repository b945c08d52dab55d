// Complex 3×3 matrices, by value: every operation rounds once, in the order that its definition in
// specs/ has.
#![tactic(auto)]

mod exponential;
mod matrix;
mod numbers;
mod operators;
mod product;
mod table;
mod traceless;
mod unitary;

use complex::C64;

// Any complex 3×3 matrix, row by row, and not only one of SU(3): a staple sum or an average of clover
// leaves leaves the group.
#[derive(Clone, Copy, Debug, PartialEq)]
pub struct Su3 {
    pub m: [C64; 9],
}
