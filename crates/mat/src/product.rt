ghost use Rattle.std.specs.Prelude.{◌≡◌};
ghost use Rattle.mat.specs.Matrix.{tabulate, trace_of};
ghost use Rattle.mat.specs.Product.{mul_dag_of, dag_mul_of};
ghost use Rattle.products.specs.Product.{product_at};

use crate::Su3;
use crate::table::tabulate;
use complex::C64;
use products::{Adjoint, Entries, row_col};

impl Su3 {
    // a·b, of any two matrices whose entries can be read.
    // Always inline: called, it would copy the matrices.
    #[inline(always)]
    pub fn product<A: Entries, B: Entries>(a: A, b: B) -> Self
        ensures { result ≡ tabulate (product_at (A.entries a) (B.entries b)) }
    {
        tabulate(|i, j| row_col(a, b, i, j))
    }

    // `self · o†` without the dagger's entries.
    #[tactic(auto, using(crate::proofs::Tables::product_dagger))]
    pub fn mul_dag(self, o: Su3) -> Self
        ensures { result ≡ mul_dag_of self o }
    {
        Self::product(&self, Adjoint(&o))
    }

    // `self† · o` without the dagger's entries.
    #[tactic(auto, using(crate::proofs::Tables::dagger_product))]
    pub fn dag_mul(self, o: Su3) -> Self
        ensures { result ≡ dag_mul_of self o }
    {
        Self::product(Adjoint(&self), &o)
    }

    // Tr a·b: of the product its diagonal alone.
    #[tactic(auto, unfolding(crate::specs::Matrix::trace_of))]
    pub fn trace_of_product<A: Entries, B: Entries>(a: A, b: B) -> C64
        ensures { result ≡ trace_of (tabulate (product_at (A.entries a) (B.entries b))) }
    {
        row_col(a, b, 0, 0) + row_col(a, b, 1, 1) + row_col(a, b, 2, 2)
    }
}
