#![tactic(auto, unfolding(crate::specs::Numbers::block_in, crate::specs::Numbers::quat_in, crate::specs::Numbers::block_numbers, crate::specs::Numbers::quat_numbers))]

ghost use Rattle.std.specs.Prelude.{◌≡◌};
ghost use Rattle.quat.specs.Numbers.{block_in, quat_in, block_numbers, quat_numbers};

use crate::{Mat2, Quat};
use complex::C64;

// For a host that has no structs.
impl From<[f64; 8]> for Mat2 {
    ghost from_gives = { λ a w. w ≡ block_in a };

    fn from(a: [f64; 8]) -> Mat2 {
        Mat2 {
            m00: C64 { re: a[0], im: a[1] },
            m01: C64 { re: a[2], im: a[3] },
            m10: C64 { re: a[4], im: a[5] },
            m11: C64 { re: a[6], im: a[7] },
        }
    }
}

impl From<Mat2> for [f64; 8] {
    ghost from_gives = { λ w numbers. numbers ≡ block_numbers w };

    fn from(w: Mat2) -> [f64; 8] {
        [
            w.m00.re, w.m00.im, w.m01.re, w.m01.im, w.m10.re, w.m10.im, w.m11.re, w.m11.im,
        ]
    }
}

impl From<[f64; 4]> for Quat {
    ghost from_gives = { λ a q. q ≡ quat_in a };

    fn from(a: [f64; 4]) -> Quat {
        let [a0, a1, a2, a3] = a;
        Quat { a0, a1, a2, a3 }
    }
}

impl From<Quat> for [f64; 4] {
    ghost from_gives = { λ q numbers. numbers ≡ quat_numbers q };

    fn from(q: Quat) -> [f64; 4] {
        [q.a0, q.a1, q.a2, q.a3]
    }
}
