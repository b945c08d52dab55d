ghost use Rattle.std.specs.Prelude.{◌≡◌};
ghost use Rattle.mat.specs.Exponential.{series_of, exp_of};

use crate::Su3;

impl Su3 {
    // `1 + q + q²/2 + .. + qⁿ/n!` with n = terms: each term is the one before, times q, times 1/n.
    #[tactic(auto, using(crate::proofs::Laws::exponential, crate::proofs::Tables::product_is))]
    pub fn exp_series(q: Su3, terms: u32) -> Su3
        ensures { result ≡ series_of q terms }
    {
        let mut result = Self::IDENTITY;
        let mut term = Self::IDENTITY;
        for n in 0..terms {
            term = Self::product(&term, &q).scale(1.0 / (n + 1) as f64);
            result += term;
        }
        result
    }

    // The exponential of an anti-Hermitian traceless `q`: twelve terms, projected back onto SU(3).
    #[tactic(auto, unfolding(crate::specs::Exponential::exp_of))]
    pub fn exp_antihermitian(q: Su3) -> Self
        ensures { result ≡ exp_of q }
    {
        Self::exp_series(q, 12).reunitarize()
    }
}
