// Steps from site to site: along an axis, to all neighbours, to the next number.
#![tactic(auto)]

ghost use Rattle.std.specs.Prelude.{◌≡◌, ◌<◌};
ghost use Rattle.geometry.specs.Radix.{volume};
ghost use Rattle.geometry.specs.Steps.{spot_of};
ghost use Rattle.geometry.specs.Stride.{strides_of};

mod along;
mod walk;

use geometry::{Extents, Spot};

// The extents of a field, and how far apart in number neighbours are along each axis; last the number of
// sites.
#[derive(Clone, Copy)]
pub struct Strides {
    pub extents: Extents,
    pub s: [usize; 5],
    ghost are: { s ≡ strides_of extents.d },
}

// A site of a field with its coordinates and the strides at hand: steps from there need no division.
#[derive(Clone, Copy)]
pub struct Position {
    pub strides: Strides,
    pub at: Spot,
    ghost below: { at.site < volume strides.extents.d },
    ghost spot: { at ≡ spot_of strides.extents.d at.site },
}
