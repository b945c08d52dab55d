ghost use Rattle.std.specs.Prelude.{◌≡◌};
ghost use Rattle.mat.specs.Traceless.{sub_diag, traceless_of};

use crate::Su3;
use complex::C64;

impl Su3 {
    #[tactic(auto, unfolding(crate::specs::Traceless::sub_diag))]
    fn sub_diag(mut self, t: C64) -> Self
        ensures { result ≡ sub_diag self t }
    {
        self.m[0] -= t;
        self.m[4] -= t;
        self.m[8] -= t;
        self
    }

    // Anti-Hermitian traceless part: `(M − M†)/2 − Tr(M − M†)/6 · 1`.
    #[tactic(auto, unfolding(crate::specs::Traceless::anti_of, crate::specs::Traceless::traceless_of))]
    pub fn traceless_antihermitian(self) -> Self
        ensures { result ≡ traceless_of self }
    {
        let r = (self - self.dagger()).scale(0.5);
        let tr = r.trace().scale(1.0 / 3.0);
        r.sub_diag(tr)
    }
}
