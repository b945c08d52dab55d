// One slice's sums for every cell of the grid. There is no division and no test inside a row: it goes up to
// where the offset reaches the row's end, and then on from its beginning. Throughout, c are the coordinates of
// the cell's offset.
ghost use Rattle.std.specs.Prelude.{◌≡◌, ◌+◌, ◌*◌, ◌%◌, ◌<◌, length, get_or};
ghost use Rattle.geometry.specs.Radix.{Within};
ghost use Rattle.gauge.specs.Polyakov.{space};
ghost use Rattle.slices.specs.Slices.{places, number, product_at, slice_sum, with_slice};
ghost use Rattle.slices.specs.Parts.{run_sum, wrapped_sum, plane_sum, Reaches};

use crate::Densities;
use crate::time_slice::TimeSlice;
use geometry::wrap;

// Goes on with loop values, each times a number of the density; these are nt apart. By the place: with
// `step_by(nt)`, which passes over the numbers between one by one, `add` on 8^4 takes 1.7 times as long.
#[tactic(auto, unfolding(folds::specs::Folds::fold_to, crate::specs::Parts::run_sum))]
fn run(loops: &[f64], density: &[f64], nt: usize, sum: f64) -> f64
    requires { Reaches loops.now density.now nt }
    ensures { result ≡ run_sum loops.now density.now nt sum }
{
    let mut s = sum;
    for (i, w) in loops.iter().enumerate() {
        s += w * density[nt * i];
    }
    s
}

// Goes on with a row of loop values, each times the density rx further on in its row.
#[tactic(auto, using(crate::proofs::RowInTwo::to_end, crate::proofs::RowInTwo::row_is))]
fn row(loops: &[f64], density: &[f64], nt: usize, rx: usize, sum: f64) -> f64
    requires { Reaches loops.now density.now nt × (rx < length loops.now) }
    ensures { result ≡ wrapped_sum loops.now density.now nt rx sum }
{
    let (front, back) = loops.split_at(loops.len() - rx);
    let s = run(front, &density[nt * rx..], nt, sum);
    run(back, density, nt, s)
}

impl TimeSlice<'_> {
    // Goes on with a plane of places, row by row: where a row begins, its number says.
    #[tactic(auto, unfolding(folds::specs::Folds::iter_to, crate::specs::Parts::plane_sum))]
    fn plane(&self, c: [usize; 3], z0: usize, sum: f64) -> f64
        requires { Within (space self.now.extents.d) c × (z0 < get_or self.now.extents.d 3 0) }
        ensures { result ≡ plane_sum self.now.extents.d (product_at self.now.extents.d (number self.now.loops.now) (number self.now.density.now) self.now.time c) z0 sum }
    {
        let [nt, nx, ny, nz] = self.extents.d;
        let z = wrap(z0 + c[2], nz);
        let mut s = sum;
        for y0 in 0..ny {
            let y = wrap(y0 + c[1], ny);
            let here = nx * (y0 + ny * z0);
            let there = self.time + nt * (nx * (y + ny * z));
            s = row(
                &self.loops[here..here + nx],
                &self.density[there..],
                nt,
                c[0],
                s,
            );
        }
        s
    }

    // A cell's sum over the slice, plane by plane, from +0. The planes too are known by their numbers.
    #[tactic(auto, unfolding(folds::specs::Folds::iter_to))]
    fn cell(&self, c: [usize; 3]) -> f64
        requires { Within (space self.now.extents.d) c }
        ensures { result ≡ slice_sum self.now.extents.d (number self.now.loops.now) (number self.now.density.now) self.now.time c }
    {
        let mut s = 0.0;
        for z0 in 0..self.extents.d[3] {
            s = self.plane(c, z0, s);
        }
        s
    }
}

// Adds each cell's sum over a slice to the grid; the densities are read at one time.
#[tactic(auto, using(crate::proofs::SliceAdded::cell_next), unfolding(folds::specs::Folds::fill))]
pub fn slice_cells(grid: &mut [f64], loops: &[f64], densities: &Densities, time: usize)
    requires grid { length grid.old ≡ densities.now.count * places densities.now.extents.d }
    requires loops { length loops.now ≡ places densities.now.extents.d }
    requires time { time < get_or densities.now.extents.d 0 0 }
    ensures { grid.new ≡ with_slice densities.now.extents.d (number loops.now) densities.now.numbers.now time grid.old }
{
    let extents = densities.extents;
    let space = extents.space();
    let places = space.cells();
    for (j, sum) in grid.iter_mut().enumerate() {
        let slice = TimeSlice {
            extents,
            loops,
            density: densities.density(j / places),
            time,
        };
        *sum += slice.cell(space.coords(j % places));
    }
}
