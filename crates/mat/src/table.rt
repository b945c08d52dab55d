ghost use Rattle.std.specs.Prelude.{◌<◌, ℕ};
ghost use Rattle.mat.specs.Matrix.{at, Table};

use crate::Su3;
use complex::C64;
use products::Entries;

impl<'a> Entries for &'a Su3 {
    ghost entries = { λ u. at u.now };

    fn entry(self, i: usize, j: usize) -> C64 {
        self.m[3 * i + j]
    }
}

// The matrix with f(i, j) at row i and column j. The nine calls are written out: loops over the entries
// take twice as long. Always inline: called, the matrices that f holds would be copied.
#[inline(always)]
pub(crate) fn tabulate<F: Fn(usize, usize) -> C64>(f: F) -> Su3
    requires { (i j : ℕ) → i < 3 → j < 3 → F.pre f i j }
    ensures { Table (λ i j x. F.post f i j x) result }
{
    Su3 {
        m: [
            f(0, 0),
            f(0, 1),
            f(0, 2),
            f(1, 0),
            f(1, 1),
            f(1, 2),
            f(2, 0),
            f(2, 1),
            f(2, 2),
        ],
    }
}
