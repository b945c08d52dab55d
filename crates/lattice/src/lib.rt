// A gauge field in a lent list: each call checks what it is handed by the rows of its table, in
// order, and answers the refusal or what its definition says. The calls begin alike and stay apart: names, arguments
// and rows of each are the scope's. Extents are four numbers, since a host's need not fit.
#![tactic(auto)]

mod check;
mod cold_start;
mod observables;
mod sites;

pub use check::link_check;
pub use cold_start::cold;
pub use observables::{action, average_plaquette, plaquette, polyakov_loop, staple};
pub use sites::{bwd, coords, fwd, index, n_sites, parity};

// The scope's plan: extents t, x, y, z, coupling, and what keys the random streams.
#[derive(Clone, Copy)]
pub struct Plan {
    pub extents: [usize; 4],
    pub coupling: f64,
    pub seed: u64,
    pub pass: u64,
}
