// What replay makes and prints: the inputs that compare/ gives the unchanged Rust, made again, the
// hashes and patterns of its lines, and where the test programs print.
#![tactic(auto)]

pub mod hash;
pub mod inputs;
pub mod output;
