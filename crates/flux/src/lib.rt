// The accumulator of loops, densities and their products: each call checks what it is handed by the rows
// of its table, in order, and answers the refusal or what its definition says. The grid's numbers
// and the scratch are lent; a refused call stores nothing, except that an addition that fails at row 10
// leaves its scratch at +0.
#![tactic(auto)]

mod addition;
mod checks;
mod means;
mod start;

// Sums over the fields added so far: n are the grid's extents x, y, z, offsets those of three quarks, x, y, z
// each, and t_len the loops' time length. Of the sums s the first count are in
// use: a host may hand in any count, which is row 13's.
#[derive(Clone, Copy)]
pub struct FluxAccumulator {
    pub n: [usize; 3],
    pub offsets: [[i32; 3]; 3],
    pub t_len: usize,
    pub count: u32,
    pub samples: u64,
    pub w: f64,
    pub s: [f64; 4],
}
