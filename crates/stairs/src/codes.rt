#![tactic(auto, unfolding(crate::specs::Codes::code_of, crate::specs::Codes::step_of_code))]

ghost use Rattle.std.specs.Prelude.{◌≡◌, ◌<◌};
ghost use Rattle.stairs.specs.Codes.{code_of, step_of_code};

use crate::Step;

// A step as one byte, for a host that has no structs. What is above 127 of an axis is lost.
impl From<Step> for u8 {
    ghost from_gives = { λ s c. s.axis < 128 → c ≡ code_of s };

    fn from(s: Step) -> u8 {
        2 * (s.axis % 128) + u8::from(s.forward)
    }
}

impl From<u8> for Step {
    ghost from_gives = { λ c s. s ≡ step_of_code c };

    fn from(code: u8) -> Step {
        Step {
            axis: code / 2,
            forward: code % 2 == 1,
        }
    }
}
