ghost use Rattle.std.specs.Prelude.{◌≡◌, ◌<◌, length, get_or};
ghost use Rattle.geometry.specs.Radix.{volume};
ghost use Rattle.slices.specs.Slices.{places};

use geometry::Extents;

// The loop values of a slice by place, and a density by site, read at one time.
#[derive(Clone, Copy)]
pub struct TimeSlice<'a> {
    pub extents: Extents,
    pub loops: &'a [f64],
    pub density: &'a [f64],
    pub time: usize,
    ghost places: { length loops.now ≡ places extents.d },
    ghost sites: { length density.now ≡ volume extents.d },
    ghost in_time: { time < get_or extents.d 0 0 },
}
