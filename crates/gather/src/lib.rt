// The loop over a field's slices of equal time, for an accumulator: the loops of three quarks at each site,
// their sum, and the sums of their products with the densities. What is asked for a caller has checked.
#![tactic(auto)]

ghost use Rattle.std.specs.Prelude.{◌≡◌, ◌+◌, ◌*◌, map, get_or};
ghost use Rattle.geometry.specs.Range.{range};
ghost use Rattle.gauge.specs.Field.{link_of};
ghost use Rattle.stairs.specs.Quarks.{offsets_of};
ghost use Rattle.contraction.specs.Baryon.{loop_of, baryon_of};
ghost use Rattle.slices.specs.Slices.{places};
ghost use Rattle.gather.specs.Parts.{Slice, Gathering, Gathered};

use gauge::Su3Lattice;
use paths::Walker;
use slices::Densities;
use stairs::{Offset, Stairs};

// Writes the loops of the slice t, one for each place, along three staircases.
#[tactic(auto, using(geometry::proofs::Range::fill_listed), unfolding(folds::specs::Folds::fill))]
fn slice_loops(loops: &mut [f64], lattice: &Su3Lattice, t: usize, paths: &[Stairs; 3], t_len: usize)
    requires { Slice loops.old lattice.now.extents.d t }
    ensures { loops.new ≡ map (λ k. loop_of lattice.now.extents.d (link_of lattice.now.extents.d lattice.now.links.now) t_len (t + get_or lattice.now.extents.d 0 0 * k) paths.now) (range (places lattice.now.extents.d)) }
{
    let nt = lattice.extents.d[0];
    for (k, w) in loops.iter_mut().enumerate() {
        *w = contraction::baryon_loop(Walker::new(*lattice, t + nt * k), paths, t_len);
    }
}

// Goes over the slices: adds each cell's sum to the grid, and the loops' to w. The first list has room for the
// loops of a slice.
#[tactic(auto, using(slices::proofs::Laws::loops_start, slices::proofs::Laws::grid_start))]
pub fn gather(
    loops: &mut [f64],
    grid: &mut [f64],
    lattice: &Su3Lattice,
    densities: &Densities,
    quarks: [Offset; 3],
    t_len: usize,
    w: f64,
) -> f64
    requires { Gathering loops.old grid.old lattice.now.extents.d densities.now.extents.d t_len densities.now.count }
    ensures { Gathered (baryon_of lattice.now.extents.d (link_of lattice.now.extents.d lattice.now.links.now) t_len (offsets_of quarks)) lattice.now.extents.d densities.now.numbers.now t_len densities.now.count grid.old w result grid.new }
{
    let paths = stairs::staircases(quarks);
    let nt = lattice.extents.d[0];
    let mut sum = w;
    // By a slice's time: there is no list of the times.
    for t in 0..nt {
        slice_loops(loops, lattice, t, &paths, t_len);
        sum += slices::total(loops);
        slices::slice_cells(grid, loops, densities, (t + t_len / 2) % nt);
    }
    sum
}
