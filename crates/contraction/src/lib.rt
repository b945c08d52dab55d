// The ε-contraction of three matrices, and the loop of three quarks.
#![tactic(auto)]

mod baryon;
mod epsilon;

pub use baryon::baryon_loop;
