#![tactic(auto, unfolding(rows::specs::Refusals::first_refusal, rows::specs::Refusals::answered, rows::specs::Finite::bad_numbers))]
// A list is filled place by place. All numbers are tested first, and then worked out again and stored: it
// is filled whole or not at all.

ghost use Rattle.std.specs.Prelude.{◌≡◌, ◌*◌, ◌<◌, ◌^◌, [], ◌∷◌, ℕ, List, length};
ghost use Rattle.std.specs.Float.Ieee.{Float};
ghost use Rattle.rows.specs.Finite.{bad_numbers};
ghost use Rattle.rows.specs.Refusals.{first_refusal, answered};
ghost use Rattle.fields.specs.Places.{placed};

use field_checks::checks;
use rows::Refusal;

// What a list is filled with: N numbers at each place.
pub trait Filling<const N: usize> {
    ghost places: { Self → ℕ };

    ghost numbers: { Self → ℕ → List Float };

    fn places(&self) -> usize
        ensures { result ≡ places self.now };

    fn numbers(&self, k: usize) -> [f64; N]
        requires { k < places self.now }
        ensures { result ≡ numbers self.now k };
}

// Row 10 for what is worked out. There is no list of the numbers: those of a place are worked out from its number,
// here and in `store`.
pub(crate) fn check<const N: usize, W: Filling<N>>(what: &W) -> Result<(), Refusal>
    requires { N < 2 ^ 60 }
    ensures { result ≡ answered (first_refusal ((bad_numbers (placed (W.numbers what.now) (W.places what.now)), Refusal.NotFinite) ∷ [])) tt }
{
    for k in 0..what.places() {
        checks::all_finite(&what.numbers(k))?;
    }
    Ok(())
}

pub(crate) fn store<const N: usize, W: Filling<N>>(what: &W, list: &mut [f64])
    requires { length list.old ≡ W.places what.now * N }
    ensures { list.new ≡ placed (W.numbers what.now) (W.places what.now) }
{
    for k in 0..what.places() {
        list[k * N..(k + 1) * N].copy_from_slice(&what.numbers(k));
    }
}
