ghost use Rattle.std.specs.Prelude.{◌≡◌, ◌+◌, ◌<◌, ◌≤◌, length};
ghost use Rattle.complex.specs.Rounded.{◌⊞◌};
ghost use Rattle.mat.specs.Matrix.{re_tr};
ghost use Rattle.mat.specs.Product.{mul_of, mul_dag_of};
ghost use Rattle.links.specs.Lent.{lent_of};
ghost use Rattle.links.specs.Store.{matrix_at};
ghost use Rattle.gauge.specs.Plaquette.{diagonal_at};

use complex::C64;
use links::Lent;
use mat::Su3;
use products::row_col;

// The four links of a plaquette a·b·(c·e)†, by where they begin in the list: with four matrices as they stand there a
// plaquette takes a tenth longer.
#[derive(Clone, Copy)]
pub struct Square<'a> {
    pub links: &'a [f64],
    pub a: usize,
    pub b: usize,
    pub c: usize,
    pub e: usize,
    ghost first: { (a + 18 ≤ length links.now) × (b + 18 ≤ length links.now) },
    ghost second: { (c + 18 ≤ length links.now) × (e + 18 ≤ length links.now) },
}

// The product of two matrices of a list. A function by itself, so that both products of a plaquette share
// its code.
#[tactic(auto, using(mat::proofs::Tables::product_is))]
fn two_links(links: &[f64], a: usize, b: usize) -> Su3
    requires { (a + 18 ≤ length links.now) × (b + 18 ≤ length links.now) }
    ensures { result ≡ mul_of (matrix_at links.now a) (matrix_at links.now b) }
{
    Su3::product(Lent { links, place: a }, Lent { links, place: b })
}

// The real part of the i-th entry on the diagonal of a·b·(c·e)†. By the entries' numbers, here and below: no list has
// the entries of a product that is not worked out.
fn diagonal(a: Lent, b: Lent, c: Lent, e: Lent, i: usize) -> f64
    requires { i < 3 }
    ensures { result ≡ diagonal_at (lent_of a.entry) (lent_of b.entry) (lent_of c.entry) (lent_of e.entry) i }
{
    let mut s = C64::ZERO;
    for k in 0..3 {
        s += row_col(a, b, i, k) * row_col(c, e, i, k).conj();
    }
    s.re
}

// The sum of the first two of these. Two rows are worked out side by side, which is what vector
// registers of two f64 are for.
fn first_two(a: Lent, b: Lent, c: Lent, e: Lent) -> f64
    ensures { result ≡ diagonal_at (lent_of a.entry) (lent_of b.entry) (lent_of c.entry) (lent_of e.entry) 0 ⊞ diagonal_at (lent_of a.entry) (lent_of b.entry) (lent_of c.entry) (lent_of e.entry) 1 }
{
    let mut s = C64::ZERO;
    let mut t = C64::ZERO;
    for k in 0..3 {
        s += row_col(a, b, 0, k) * row_col(c, e, 0, k).conj();
        t += row_col(a, b, 1, k) * row_col(c, e, 1, k).conj();
    }
    s.re + t.re
}

impl Square<'_> {
    // The matrix at one of its places.
    fn at(&self, place: usize) -> Lent<'_>
        requires { place + 18 ≤ length self.now.links.now }
        ensures { (result.links.now ≡ self.now.links.now) × (result.place ≡ place) }
    {
        Lent {
            links: self.links,
            place,
        }
    }

    pub fn product(&self) -> Su3
        ensures { let l = self.now.links.now in result ≡ mul_dag_of (mul_of (matrix_at l self.now.a) (matrix_at l self.now.b)) (mul_of (matrix_at l self.now.c) (matrix_at l self.now.e)) }
    {
        two_links(self.links, self.a, self.b).mul_dag(two_links(self.links, self.c, self.e))
    }

    // Re Tr of the product, of which only the diagonal is worked out.
    #[tactic(auto, unfolding(mat::specs::Matrix::re_tr, mat::specs::Product::mul_dag_of))]
    pub fn trace(&self) -> f64
        ensures { let l = self.now.links.now in result ≡ re_tr (mul_dag_of (mul_of (matrix_at l self.now.a) (matrix_at l self.now.b)) (mul_of (matrix_at l self.now.c) (matrix_at l self.now.e))) }
    {
        let (a, b) = (self.at(self.a), self.at(self.b));
        let (c, e) = (self.at(self.c), self.at(self.e));
        first_two(a, b, c, e) + diagonal(a, b, c, e, 2)
    }
}
