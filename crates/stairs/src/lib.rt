// The staircase of unit steps to an offset in space. An offset is one whole number for each of x, y, z.
#![tactic(auto)]

pub mod checks;
mod climb;
mod codes;
mod line;
mod offsets;

ghost use Rattle.std.specs.Prelude.{◌<◌, ◌≤◌, ◌≡◌, [], ◌∷◌, ◌++◌, length, All};

pub use climb::staircases;
pub use offsets::Offset;
use std::marker::Model;

// A unit step along an axis of the lattice: 0 is time, 1 to 3 are x, y, z.
#[derive(Clone, Copy, Default, Debug, PartialEq, Eq)]
pub struct Step {
    pub axis: u8,
    pub forward: bool,
}

// At most 96 steps along axes of the lattice, at the front of the array. The places past them hold the default
// step, so that the steps alone make the value.
#[derive(Clone, Copy)]
pub struct Stairs {
    steps: [Step; 96],
    count: usize,
}

impl Model for Stairs {
    ghost use Rattle.std.specs.Prelude.{◌<◌, ◌≤◌, ◌-◌, ◌≡◌, ◌++◌, List, All, length, take, replicate};
    ghost use Rattle.stairs.specs.declared.Step.{Step};
    ghost use Rattle.stairs.specs.Staircase.{no_step};

    ghost Value = { List Step };

    ghost view = { λ s. take s.count s.steps };

    ghost invariant = { λ s. (s.count ≤ 96) × (length (take s.count s.steps) ≡ s.count) × (take s.count s.steps ++ replicate (96 - s.count) no_step ≡ s.steps) × All (λ x. x.axis < 4) (take s.count s.steps) };

    ghost inverse = { λ xs. record { steps = xs ++ replicate (96 - length xs) no_step; count = length xs } };
}

impl Stairs {
    #[tactic(auto, using(crate::proofs::Padded::defaults))]
    pub fn new() -> Self
        ensures { result ≡ [] }
    {
        Stairs {
            steps: [Step::default(); 96],
            count: 0,
        }
    }

    pub fn push(&mut self, step: Step)
        requires axis { step.axis < 4 }
        requires room { length self.old < 96 }
        ensures { self.new ≡ self.old ++ step ∷ [] }
    {
        self.steps[self.count] = step;
        self.count += 1;
    }

    pub fn as_slice(&self) -> &[Step]
        ensures steps { result.now ≡ self.now }
        ensures axes { All (λ s. s.axis < 4) result.now }
        ensures few { length result.now ≤ 96 }
    {
        &self.steps[..self.count]
    }
}
