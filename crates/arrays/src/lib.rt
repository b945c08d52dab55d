// What a host is given as numbers, and is no type of its own.
#![tactic(auto)]

ghost use Rattle.std.specs.Prelude.{◌≡◌};
ghost use Rattle.arrays.specs.Arrays.{plane_numbers};

use mat::Su3;

// Six matrices, one after the other.
pub fn plane_numbers(f: [Su3; 6]) -> [f64; 108]
    ensures { result ≡ plane_numbers f }
{
    let mut out = [0.0; 108];
    for (p, u) in f.iter().enumerate() {
        out[18 * p..18 * p + 18].copy_from_slice(&<[f64; 18]>::from(*u));
    }
    out
}
