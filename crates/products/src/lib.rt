// The product of two 3×3 matrices by their entries, wherever these stand: in a value, in a lent list of
// numbers, or as those of a conjugate transpose. So no matrix is copied to be multiplied.
#![tactic(auto)]

ghost use Rattle.std.specs.Prelude.{◌≡◌, ◌<◌, ℕ};
ghost use Rattle.complex.specs.declared.C64.{C64};
ghost use Rattle.products.specs.Product.{product_at, adjoint_at};

use complex::C64;

// A 3×3 matrix whose entries can be read.
pub trait Entries: Copy {
    ghost entries: { Self → ℕ → ℕ → C64 };

    // The entry at row i and column j.
    fn entry(self, i: usize, j: usize) -> C64
        requires { (i < 3) × (j < 3) }
        ensures { result ≡ entries self i j };
}

// The conjugate transpose of a matrix.
#[derive(Clone, Copy)]
pub struct Adjoint<M>(pub M);

impl<M: Entries> Entries for Adjoint<M> {
    ghost entries = { λ u. adjoint_at (M.entries u.0) };

    #[tactic(auto, unfolding(crate::specs::Product::adjoint_at))]
    fn entry(self, i: usize, j: usize) -> C64 {
        self.0.entry(j, i).conj()
    }
}

// Entry (i, j) of a·b.
#[tactic(auto, unfolding(crate::specs::Product::product_at, folds::specs::Folds::fold_to))]
pub fn row_col<A: Entries, B: Entries>(a: A, b: B, i: usize, j: usize) -> C64
    requires { (i < 3) × (j < 3) }
    ensures { result ≡ product_at (A.entries a) (B.entries b) i j }
{
    C64::ZERO
        + a.entry(i, 0) * b.entry(0, j)
        + a.entry(i, 1) * b.entry(1, j)
        + a.entry(i, 2) * b.entry(2, j)
}
