#![tactic(auto, unfolding(paths::specs::Path::path_of, paths::specs::Path::line_of, crate::specs::Baryon::quark_line_of, crate::specs::Baryon::loop_of))]

ghost use Rattle.std.specs.Prelude.{◌≡◌};
ghost use Rattle.gauge.specs.Polyakov.{later_of};
ghost use Rattle.paths.specs.Path.{field_under};
ghost use Rattle.contraction.specs.Baryon.{quark_line_of, loop_of};

use crate::epsilon::epsilon_contract;
use mat::Su3;
use paths::Walker;
use stairs::Stairs;

// A quark's line: out to it from the junction, t_len links along time, and back; top is t_len later.
fn quark_line(junction: Walker<'_>, top: Walker<'_>, steps: &Stairs, t_len: usize) -> Su3
    requires field { top.lattice ≡ junction.lattice }
    requires later { top.here.at.site ≡ later_of junction.lattice.extents.d junction.here.at.site t_len }
    ensures { result ≡ quark_line_of junction.entry.lattice.extents.d (field_under junction.entry) t_len junction.entry.here.at.site steps.now }
{
    let mut below = junction;
    let lower = below.path(steps);
    let line = below.time_line(t_len);
    let mut above = top;
    let upper = above.path(steps);
    (lower * line).mul_dag(upper)
}

// The loop of three quarks: Re ε ε M M M / 6.
pub fn baryon_loop(junction: Walker<'_>, paths: &[Stairs; 3], t_len: usize) -> f64
    ensures { result ≡ loop_of junction.entry.lattice.extents.d (field_under junction.entry) t_len junction.entry.here.at.site paths.now }
{
    let mut top = junction;
    top.later(t_len);
    let [a, b, c] = paths;
    let x = quark_line(junction, top, a, t_len);
    let y = quark_line(junction, top, b, t_len);
    let z = quark_line(junction, top, c, t_len);
    epsilon_contract(x, y, z).re / 6.0
}
