// Staircases, paths, and the loop of three quarks: each call checks what it is handed by the rows of
// its table, in order, and answers what its definition says. The calls begin alike and stay apart: names, arguments
// and rows of each are the scope's.
#![tactic(auto)]

mod quarks;
mod staircases;
mod walk;

pub use quarks::baryon_loop;
pub use staircases::staircase;
pub use stairs::Step;
pub use walk::{path, time_line};
