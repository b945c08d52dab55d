ghost use Rattle.std.specs.Prelude.{◌≡◌};
ghost use Rattle.complex.specs.Complex.{complex_of, conj_of, norm_sqr, cscale, minor, combination, finite_entry};

use crate::C64;

impl C64 {
    pub const ZERO: Self = Self { re: 0.0, im: 0.0 };

    pub const ONE: Self = Self { re: 1.0, im: 0.0 };

    pub const I: Self = Self { re: 0.0, im: 1.0 };

    pub fn new(re: f64, im: f64) -> Self
        ensures { result ≡ complex_of re im }
    {
        Self { re, im }
    }

    #[tactic(auto, unfolding(crate::specs::Complex::conj_of))]
    pub fn conj(self) -> Self
        ensures { result ≡ conj_of self }
    {
        Self {
            re: self.re,
            im: -self.im,
        }
    }

    #[tactic(auto, unfolding(crate::specs::Complex::norm_sqr))]
    pub fn norm_sqr(self) -> f64
        ensures { result ≡ norm_sqr self }
    {
        self.re * self.re + self.im * self.im
    }

    #[tactic(auto, unfolding(crate::specs::Complex::cscale))]
    pub fn scale(self, s: f64) -> Self
        ensures { result ≡ cscale self s }
    {
        Self {
            re: self.re * s,
            im: self.im * s,
        }
    }

    // x·a + y·b
    #[tactic(auto, unfolding(crate::specs::Complex::combination))]
    pub fn combine(x: C64, a: C64, y: C64, b: C64) -> Self
        ensures { result ≡ combination x a y b }
    {
        x * a + y * b
    }

    // Neither part is an infinity or a NaN.
    #[tactic(auto, unfolding(crate::specs::Complex::finite_entry))]
    pub fn is_finite(self) -> bool
        ensures { result ≡ finite_entry self }
    {
        rows::is_finite(self.re) && rows::is_finite(self.im)
    }
}

// a·b − c·d
#[tactic(auto, unfolding(crate::specs::Complex::minor))]
pub fn minor(a: C64, b: C64, c: C64, d: C64) -> C64
    ensures { result ≡ minor a b c d }
{
    a * b - c * d
}
