ghost use Rattle.std.specs.Prelude.{◌≡◌, ◌*◌, ◌<◌, length, take, drop};
ghost use Rattle.geometry.specs.Radix.{volume};

use geometry::Extents;

// Densities of a field in one list, one after the other: of each a number for every site.
#[derive(Clone, Copy)]
pub struct Densities<'a> {
    pub extents: Extents,
    // The host's count. No code reads it: the contracts do, and from the list it would be a quotient in each.
    pub count: usize,
    pub numbers: &'a [f64],
    ghost full: { length numbers.now ≡ count * volume extents.d },
}

impl<'a> Densities<'a> {
    // The k-th density.
    pub fn density(&self, k: usize) -> &'a [f64]
        requires { k < self.now.count }
        ensures numbers { result.now ≡ take (volume self.now.extents.d) (drop (k * volume self.now.extents.d) self.now.numbers.now) }
        ensures len { length result.now ≡ volume self.now.extents.d }
    {
        let sites = self.extents.sites();
        &self.numbers[k * sites..][..sites]
    }
}
