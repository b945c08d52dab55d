// Sums over slices of equal time, for any loop value at each site.
#![tactic(auto)]

mod cells;
mod densities;
mod lists;
mod time_slice;
mod totals;

pub use cells::slice_cells;
pub use densities::Densities;
pub use lists::{clear, copy};
pub use totals::{density_sums, total};
