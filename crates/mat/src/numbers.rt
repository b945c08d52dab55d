#![tactic(auto, unfolding(crate::specs::Numbers::matrix_in, crate::specs::Numbers::matrix_numbers))]

ghost use Rattle.std.specs.Prelude.{◌≡◌};
ghost use Rattle.mat.specs.Numbers.{matrix_in, matrix_numbers};

use crate::Su3;
use complex::C64;

// For a host that has no structs.
impl From<[f64; 18]> for Su3 {
    ghost from_gives = { λ a u. u ≡ matrix_in a };

    fn from(a: [f64; 18]) -> Su3 {
        let pair = |k| C64 {
            re: a[k],
            im: a[k + 1],
        };
        Su3 {
            m: [
                pair(0),
                pair(2),
                pair(4),
                pair(6),
                pair(8),
                pair(10),
                pair(12),
                pair(14),
                pair(16),
            ],
        }
    }
}

impl From<Su3> for [f64; 18] {
    ghost from_gives = { λ u numbers. numbers ≡ matrix_numbers u };

    fn from(u: Su3) -> [f64; 18] {
        let [c0, c1, c2, c3, c4, c5, c6, c7, c8] = u.m;
        [
            c0.re, c0.im, c1.re, c1.im, c2.re, c2.im, c3.re, c3.im, c4.re, c4.im, c5.re, c5.im,
            c6.re, c6.im, c7.re, c7.im, c8.re, c8.im,
        ]
    }
}
