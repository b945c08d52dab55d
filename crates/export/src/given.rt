// What a host is given by a call that may be refused. Where no `From` makes an array of the answer, the call itself
// has `row_and_value`.
#![tactic(auto)]

ghost use Rattle.std.specs.Prelude.{◌≡◌, [], ◌∷◌};
ghost use Rattle.rows.specs.Refusals.{refusal_in, value_or};
ghost use Rattle.rows.specs.Numbers.{number_in};

use rows::{Refusal, row_and_value};

// The row, with the answer as an array; what stands for the answer where the call is refused.
pub fn give<T: Copy + Into<A>, A: Copy>(answer: Result<T, Refusal>, refused: T, out: &mut A) -> u32
    ensures row { result ≡ number_in (refusal_in answer) }
    ensures array { T.converts (value_or refused answer) out.new }
{
    let (row, value) = row_and_value(answer, refused);
    *out = value.into();
    row
}

// The same of an answer that is itself the one place of its array.
pub fn give_one<T: Copy>(answer: Result<T, Refusal>, refused: T, out: &mut [T; 1]) -> u32
    ensures row { result ≡ number_in (refusal_in answer) }
    ensures array { out.new ≡ value_or refused answer ∷ [] }
{
    let (row, value) = row_and_value(answer, refused);
    out[0] = value;
    row
}
