ghost use Rattle.std.specs.Prelude.{◌≡◌};
ghost use Rattle.quat.specs.Quaternion.{project_of, quat_norm, quat_conj, quat_mul, to_mat};

use crate::{Mat2, Quat};
use complex::C64;

impl Quat {
    // The orthogonal projection under `Re Tr` of a 2×2 block onto the real span of SU(2).
    #[tactic(auto, unfolding(crate::specs::Quaternion::project_of))]
    pub fn project(w: Mat2) -> Self
        ensures { result ≡ project_of w }
    {
        Self {
            a0: 0.5 * (w.m00.re + w.m11.re),
            a1: 0.5 * (w.m01.im + w.m10.im),
            a2: 0.5 * (w.m01.re - w.m10.re),
            a3: 0.5 * (w.m00.im - w.m11.im),
        }
    }

    #[tactic(auto, unfolding(crate::specs::Quaternion::quat_norm))]
    pub fn norm(self) -> f64
        ensures { result ≡ quat_norm self }
    {
        root::sqrt(
            0.0 + self.a0 * self.a0 + self.a1 * self.a1 + self.a2 * self.a2 + self.a3 * self.a3,
        )
    }

    #[tactic(auto, unfolding(crate::specs::Quaternion::quat_conj))]
    pub fn conj(self) -> Self
        ensures { result ≡ quat_conj self }
    {
        Self {
            a0: self.a0,
            a1: -self.a1,
            a2: -self.a2,
            a3: -self.a3,
        }
    }

    // (a0 + i a·σ)(b0 + i b·σ) = a0 b0 − a·b + i(a0 b + b0 a − a × b)
    #[tactic(auto, unfolding(crate::specs::Quaternion::quat_mul))]
    pub fn mul(self, o: Quat) -> Self
        ensures { result ≡ quat_mul self o }
    {
        let Self { a0, a1, a2, a3 } = self;
        let Self {
            a0: b0,
            a1: b1,
            a2: b2,
            a3: b3,
        } = o;
        Self {
            a0: a0 * b0 - a1 * b1 - a2 * b2 - a3 * b3,
            a1: a0 * b1 + b0 * a1 - (a2 * b3 - a3 * b2),
            a2: a0 * b2 + b0 * a2 - (a3 * b1 - a1 * b3),
            a3: a0 * b3 + b0 * a3 - (a1 * b2 - a2 * b1),
        }
    }

    #[tactic(auto, unfolding(crate::specs::Quaternion::to_mat))]
    pub fn to_mat(self) -> Mat2
        ensures { result ≡ to_mat self }
    {
        Mat2 {
            m00: C64::new(self.a0, self.a3),
            m01: C64::new(self.a2, self.a1),
            m10: C64::new(-self.a2, self.a1),
            m11: C64::new(self.a0, -self.a3),
        }
    }
}
