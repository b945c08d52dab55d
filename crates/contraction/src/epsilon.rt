ghost use Rattle.std.specs.Prelude.{◌≡◌};
ghost use Rattle.complex.specs.Complex.{cmul, cscale};
ghost use Rattle.contraction.specs.Epsilon.{six_of, epsilon_of};

use complex::{C64, Row};
use mat::Su3;

fn term(a: C64, b: C64, c: C64, sign: f64) -> C64
    ensures { result ≡ cscale (cmul (cmul a b) c) sign }
{
    (a * b * c).scale(sign)
}

// A sum, and then the six terms of three rows whose order has the sign p.
#[tactic(auto, unfolding(crate::specs::Epsilon::six_of))]
fn add_six(sum: C64, a: Row, b: Row, c: Row, p: f64) -> C64
    ensures { result ≡ six_of sum a b c p }
{
    sum + term(a.c0, b.c1, c.c2, p * 1.0)
        + term(a.c1, b.c2, c.c0, p * 1.0)
        + term(a.c2, b.c0, c.c1, p * 1.0)
        + term(a.c0, b.c2, c.c1, p * -1.0)
        + term(a.c2, b.c1, c.c0, p * -1.0)
        + term(a.c1, b.c0, c.c2, p * -1.0)
}

// ε_abc ε_a'b'c' A_aa' B_bb' C_cc'.
#[tactic(auto, using(crate::proofs::Contraction::epsilon_sixes), unfolding(mat::specs::Unitary::rows_of))]
pub fn epsilon_contract(a: Su3, b: Su3, c: Su3) -> C64
    ensures { result ≡ epsilon_of a b c }
{
    let x = a.rows();
    let y = b.rows();
    let z = c.rows();
    let s = add_six(C64::ZERO, x[0], y[1], z[2], 1.0);
    let s = add_six(s, x[1], y[2], z[0], 1.0);
    let s = add_six(s, x[2], y[0], z[1], 1.0);
    let s = add_six(s, x[0], y[2], z[1], -1.0);
    let s = add_six(s, x[2], y[1], z[0], -1.0);
    add_six(s, x[1], y[0], z[2], -1.0)
}
