#![tactic(auto, unfolding(geometry::specs::Steps::spot_of), using(crate::proofs::Spots::coord, crate::proofs::Spots::coord_fits, crate::proofs::Spots::spot_within, geometry::proofs::Stride::sites_last, geometry::proofs::Neighbour::fwd_below, geometry::proofs::Neighbour::bwd_below))]

ghost use Rattle.std.specs.Prelude.{◌≡◌, ◌+◌, ◌-◌, ◌%◌, ◌<◌};
ghost use Rattle.geometry.specs.Radix.{volume, next_coords, Within};
ghost use Rattle.geometry.specs.Steps.{fwd_of, bwd_of, neighbours_of};

use crate::{Position, Strides};
use geometry::{Extents, Neighbours, Spot, wrap};

// The coordinates of the site with the next number, from a site's: the first that can go on does, those before it
// begin again. By number: the coordinates are stored where they stand.
#[tactic(auto, using(crate::proofs::Spots::goes_on))]
fn next_coords(extents: Extents, mut c: [usize; 4]) -> [usize; 4]
    requires { Within extents.d c }
    ensures { result ≡ next_coords extents.d c }
{
    for mu in 0..4 {
        if c[mu] + 1 < extents.d[mu] {
            c[mu] += 1;
            return c;
        }
        c[mu] = 0;
    }
    c
}

impl Position {
    pub fn new(extents: Extents, site: usize) -> Self
        requires { site < volume extents.d }
        ensures field { result.strides.extents ≡ extents }
        ensures start { result.at.site ≡ site }
    {
        Self {
            strides: Strides::new(extents),
            at: extents.spot(site),
        }
    }

    // All neighbours.
    pub fn neighbours(&self) -> Neighbours
        ensures { result ≡ neighbours_of self.now.strides.extents.d self.now.at.site }
    {
        let Spot { site, at } = self.at;
        let strides = self.strides;
        Neighbours {
            up: std::array::from_fn(|mu| strides.up(site, at[mu], mu)),
            down: std::array::from_fn(|mu| strides.down(site, at[mu], mu)),
        }
    }

    // To the next site along an axis.
    #[tactic(auto, using(crate::proofs::Spots::coord, crate::proofs::Spots::coord_fits, crate::proofs::Spots::spot_within, crate::proofs::Spots::spot_up, geometry::proofs::Neighbour::fwd_below))]
    pub fn up(&mut self, mu: usize)
        requires { mu < 4 }
        ensures field { self.new.strides ≡ self.old.strides }
        ensures end { self.new.at.site ≡ fwd_of self.old.strides.extents.d self.old.at.site mu }
    {
        let Spot { site, mut at } = self.at;
        let c = at[mu];
        at[mu] = wrap(c + 1, self.strides.extents.d[mu]);
        self.at = Spot {
            site: self.strides.up(site, c, mu),
            at,
        };
    }

    // To the site before along an axis. Not one with `up` by a flag: both bodies would stand in it.
    #[tactic(auto, using(crate::proofs::Spots::coord, crate::proofs::Spots::coord_fits, crate::proofs::Spots::spot_down, geometry::proofs::Neighbour::bwd_below))]
    pub fn down(&mut self, mu: usize)
        requires { mu < 4 }
        ensures field { self.new.strides ≡ self.old.strides }
        ensures end { self.new.at.site ≡ bwd_of self.old.strides.extents.d self.old.at.site mu }
    {
        let Spot { site, mut at } = self.at;
        let c = at[mu];
        let e = self.strides.extents.d[mu];
        at[mu] = wrap(c + (e - 1), e);
        self.at = Spot {
            site: self.strides.down(site, c, mu),
            at,
        };
    }

    // To the site with the next number, from the last to the first.
    pub fn next(&mut self)
        ensures field { self.new.strides ≡ self.old.strides }
        ensures end { self.new.at.site ≡ (self.old.at.site + 1) % volume self.old.strides.extents.d }
    {
        self.at = Spot {
            site: wrap(self.at.site + 1, self.strides.s[4]),
            at: next_coords(self.strides.extents, self.at.at),
        };
    }
}
