// What is out of range, as row 11 of the table has it.
#![tactic(auto, unfolding(rows::specs::Refusals::first_refusal, rows::specs::Refusals::refusal_in, crate::specs::Offsets::bad_time, crate::specs::Offsets::bad_quarks))]

ghost use Rattle.std.specs.Prelude.{◌≡◌, ◌≤◌, [], ◌∷◌};
ghost use Rattle.rows.specs.Refusals.{Checked};
ghost use Rattle.rows.specs.declared.Refusal.{Refusal};
ghost use Rattle.stairs.specs.Offsets.{bad_offsets, bad_quarks, bad_time};
ghost use Rattle.stairs.specs.Quarks.{offsets_of};

use crate::Offset;
use rows::Refusal;

pub fn offset(d: [i32; 3]) -> Result<Offset, Refusal>
    ensures { Checked ((bad_offsets d, Refusal.Reach) ∷ []) (λ o. o.d ≡ d) result }
{
    Offset::new(d).ok_or(Refusal::Reach)
}

// The offsets of three quarks.
pub fn quarks(o: [[i32; 3]; 3]) -> Result<[Offset; 3], Refusal>
    ensures { Checked ((bad_quarks o, Refusal.Reach) ∷ []) (λ q. offsets_of q ≡ o) result }
{
    let [a, b, c] = o;
    Ok([offset(a)?, offset(b)?, offset(c)?])
}

// A time length of at most 64.
pub fn time(t_len: usize) -> Result<(), Refusal>
    ensures { Checked ((bad_time t_len, Refusal.Reach) ∷ []) (λ _. t_len ≤ 64) result }
{
    if t_len > 64 {
        return Err(Refusal::Reach);
    }
    Ok(())
}
