// The check that `field_checks` does not have.
#![tactic(auto, unfolding(rows::specs::Refusals::first_refusal, rows::specs::Refusals::refusal_in, crate::specs::Situations::bad_axis, strength::specs::Densities::InSpace))]

ghost use Rattle.std.specs.Prelude.{◌≡◌, [], ◌∷◌};
ghost use Rattle.rows.specs.Refusals.{Checked};
ghost use Rattle.strength.specs.Densities.{InSpace};
ghost use Rattle.fields.specs.Situations.{bad_axis};

use rows::Refusal;
use strength::Density;

pub fn axis(kind: Density) -> Result<(), Refusal>
    ensures { Checked ((bad_axis kind, Refusal.Direction) ∷ []) (λ _. InSpace kind) result }
{
    match kind {
        Density::Electric(axis) if axis > 2 => Err(Refusal::Direction),
        _ => Ok(()),
    }
}
