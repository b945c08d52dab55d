#![tactic(auto, unfolding(rows::specs::Refusals::first_refusal, rows::specs::Refusals::answered, rows::specs::Finite::bad_numbers, crate::specs::Situations::bad_number, crate::specs::Situations::bad_pair, crate::specs::Situations::bad_matrix, crate::specs::Situations::bad_six))]

ghost use Rattle.std.specs.Prelude.{◌≡◌, [], ◌∷◌, not, Bool};
ghost use Rattle.rows.specs.Finite.{bad_numbers};
ghost use Rattle.rows.specs.Refusals.{first_refusal, answered};
ghost use Rattle.rows.specs.declared.Refusal.{Refusal};
ghost use Rattle.field_checks.specs.Situations.{bad_number, bad_pair, bad_matrix, bad_six};

use complex::C64;
use mat::Su3;
use rows::Refusal;

// What row 10 judges: a number, or what is made of numbers.
pub trait Numeric: Copy {
    ghost bad: { Self → Bool };

    fn is_finite(self) -> bool
        ensures { result ≡ not (bad self) };
}

impl Numeric for f64 {
    ghost bad = { bad_number };

    fn is_finite(self) -> bool {
        rows::is_finite(self)
    }
}

impl Numeric for C64 {
    ghost bad = { bad_pair };

    fn is_finite(self) -> bool {
        C64::is_finite(self)
    }
}

impl Numeric for Su3 {
    ghost bad = { bad_matrix };

    fn is_finite(self) -> bool {
        Su3::is_finite(self)
    }
}

impl Numeric for [Su3; 6] {
    ghost bad = { bad_six };

    fn is_finite(self) -> bool {
        self.iter().all(|u| u.is_finite())
    }
}

// Always inline: called, it would copy what it answers.
#[inline(always)]
pub fn finite<T: Numeric>(x: T) -> Result<T, Refusal>
    ensures { result ≡ answered (first_refusal ((T.bad x, Refusal.NotFinite) ∷ [])) x }
{
    if x.is_finite() {
        Ok(x)
    } else {
        Err(Refusal::NotFinite)
    }
}

// Row 10 for a list.
pub fn all_finite(l: &[f64]) -> Result<(), Refusal>
    ensures { result ≡ answered (first_refusal ((bad_numbers l.now, Refusal.NotFinite) ∷ [])) tt }
{
    if rows::all_finite(l) {
        Ok(())
    } else {
        Err(Refusal::NotFinite)
    }
}
