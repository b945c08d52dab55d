// An accumulator's sums: more samples, the test that all sums are finite before they are stored, and means
// over the samples. What is asked for (lists that fit) a caller has checked.
#![tactic(auto)]

mod ending;
mod means;

pub use ending::{Sums, more_samples, store};
pub use means::{mean, ratios_finite, store_ratios};
