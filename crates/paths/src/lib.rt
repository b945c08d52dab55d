// Products of links along steps.
#![tactic(auto)]

mod transport;

ghost use Rattle.std.specs.Prelude.{◌≡◌};

use gauge::Su3Lattice;
use steps::Position;

// A field, and a position in it: steps from there need no division.
#[derive(Clone, Copy)]
pub struct Walker<'a> {
    pub lattice: Su3Lattice<'a>,
    pub here: Position,
    ghost same: { here.strides.extents ≡ lattice.extents },
}
