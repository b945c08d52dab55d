// The matrices of a lent list of numbers: every read and every store of a link goes through here. `place`
// has where the link of a direction at a site begins; links follow each other by eighteen numbers.
#![tactic(auto)]

ghost use Rattle.std.specs.Prelude.{◌≡◌, ◌+◌, ◌<◌, ◌≤◌, length};
ghost use Rattle.mat.specs.Matrix.{at};
ghost use Rattle.links.specs.Store.{cell_at, put_cell, matrix_at, with_matrix};
ghost use Rattle.links.specs.Field.{place_of, field_of, Stored};

use complex::C64;
use mat::Su3;
use products::Entries;

// The matrix at a place of a list, by its entries where they stand: a matrix that is loaded is copied.
#[derive(Clone, Copy)]
pub struct Lent<'a> {
    pub links: &'a [f64],
    pub place: usize,
    ghost room: { place + 18 ≤ length links.now },
}

impl<'a> Entries for Lent<'a> {
    ghost entries = { λ u. at (matrix_at u.links.now u.place) };

    #[tactic(auto, using(crate::proofs::Laws::entry_at))]
    fn entry(self, i: usize, j: usize) -> C64 {
        cell(self.links, self.place + 2 * (3 * i + j))
    }
}

// The complex number at a place.
#[tactic(auto, unfolding(crate::specs::Store::cell_at))]
pub fn cell(links: &[f64], p: usize) -> C64
    requires { p + 1 < length links.now }
    ensures { result ≡ cell_at links.now p }
{
    C64 {
        re: links[p],
        im: links[p + 1],
    }
}

// Stores a complex number at a place.
#[tactic(auto, unfolding(crate::specs::Store::put_cell))]
fn put(links: &mut [f64], p: usize, c: C64)
    requires { p + 1 < length links.old }
    ensures { links.new ≡ put_cell links.old p c }
{
    links[p] = c.re;
    links[p + 1] = c.im;
}

impl From<Lent<'_>> for Su3 {
    ghost from_gives = { λ u m. m ≡ matrix_at u.links.now u.place };

    #[tactic(auto, unfolding(crate::specs::Store::matrix_at))]
    fn from(u: Lent) -> Su3 {
        let mut m = [C64::ZERO; 9];
        for (k, entry) in m.iter_mut().enumerate() {
            *entry = cell(u.links, u.place + 2 * k);
        }
        Su3 { m }
    }
}

// Stores a matrix at a place.
#[tactic(auto, unfolding(crate::specs::Store::with_matrix))]
pub fn store(links: &mut [f64], p: usize, u: Su3)
    requires { p + 18 ≤ length links.old }
    ensures { links.new ≡ with_matrix links.old p u }
{
    for (k, c) in u.m.iter().enumerate() {
        put(links, p + 2 * k, *c);
    }
}

// Where the link of a direction at a site begins, in a field of v sites.
pub fn place(v: usize, mu: usize, n: usize) -> usize
    requires { (v ≤ 65536) × (mu < 4) × (n < v) }
    ensures { result ≡ place_of v mu n }
{
    18 * (mu * v + n)
}

// The link of a direction at a site, of a field of v sites.
pub fn link(links: &[f64], v: usize, mu: usize, n: usize) -> Su3
    requires { Stored links.now v mu n }
    ensures { result ≡ field_of v links.now mu n }
{
    lend(links, v, mu, n).into()
}

// The same link where it stands.
pub fn lend(links: &[f64], v: usize, mu: usize, n: usize) -> Lent
    requires { Stored links.now v mu n }
    ensures { matrix_at result.links.now result.place ≡ field_of v links.now mu n }
{
    Lent {
        links,
        place: place(v, mu, n),
    }
}
