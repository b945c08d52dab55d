// Bounds on numbers by powers of two. specs/Claims.antt says what the operations make of a bound; the
// test here gives the numbers of a list their first one.
#![tactic(auto)]

ghost use Rattle.std.specs.Prelude.{◌≡◌};
ghost use Rattle.bounds.specs.Magnitude.{all_within_two, within_two};

// Whether a number is from -2 to 2.
#[tactic(auto, unfolding(crate::specs::Magnitude::within_two))]
fn within_two(x: f64) -> bool
    ensures { result ≡ within_two x }
{
    (x >= -2.0) & (x <= 2.0)
}

// By a fold and not by `all`: with no early exit several numbers are taken a turn.
pub fn all_within_two(numbers: &[f64]) -> bool
    ensures { result ≡ all_within_two numbers.now }
{
    numbers.iter().fold(true, |all, x| all & within_two(*x))
}
