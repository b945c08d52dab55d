#![tactic(auto, unfolding(crate::specs::Staircase::staircase_of))]

ghost use Rattle.std.specs.Prelude.{◌≡◌, length, map};
ghost use Rattle.stairs.specs.Quarks.{offsets_of};
ghost use Rattle.stairs.specs.Staircase.{staircase_of, steps_to};

use crate::line::Line;
use crate::{Offset, Stairs, Step};

impl Offset {
    // The staircase to it.
    #[tactic(auto, using(crate::proofs::Places::near, crate::proofs::Places::place_none, crate::proofs::Places::steps_low), unfolding(geometry::specs::Range::range, crate::specs::Staircase::staircase_of))]
    pub fn staircase(self) -> Stairs
        ensures steps { result ≡ staircase_of self.d }
        ensures count { length result ≡ steps_to self.d }
    {
        let d = self.d;
        let line = Line::to(d);
        let mut steps = Stairs::new();
        let mut p = [0; 3];
        for _ in 0..self.steps() {
            let a = line.best_axis(p);
            p[a] += d[a].signum();
            steps.push(Step {
                axis: a as u8 + 1,
                forward: d[a] > 0,
            });
        }
        steps
    }
}

// Those of three quarks.
pub fn staircases(quarks: [Offset; 3]) -> [Stairs; 3]
    ensures { result ≡ map staircase_of (offsets_of quarks) }
{
    let [a, b, c] = quarks;
    [a.staircase(), b.staircase(), c.staircase()]
}
