#![tactic(auto, unfolding(crate::specs::Numbers::pair_numbers))]

ghost use Rattle.std.specs.Prelude.{◌≡◌};
ghost use Rattle.complex.specs.Numbers.{pair_numbers};

use crate::C64;

// For a host that has no structs.
impl From<C64> for [f64; 2] {
    ghost from_gives = { λ z numbers. numbers ≡ pair_numbers z };

    fn from(z: C64) -> [f64; 2] {
        [z.re, z.im]
    }
}
