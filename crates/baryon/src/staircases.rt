#![tactic(auto, unfolding(rows::specs::Refusals::first_refusal, rows::specs::Refusals::refusal_in, rows::specs::Refusals::answered, rows::specs::Refusals::unless, crate::specs::Situations::bad_step_room))]

ghost use Rattle.std.specs.Prelude.{◌≡◌, ◌≤◌, length, IfOk};
ghost use Rattle.rows.specs.Refusals.{answered};
ghost use Rattle.stairs.specs.Staircase.{steps_to};
ghost use Rattle.stairs.specs.declared.Step.{Step};
ghost use Rattle.baryon.specs.Calls.{Gives, staircase_refusal, StaircaseCall};

use rows::Refusal;
use stairs::Step;

// The steps of the staircase to an offset, at the front of a list, and their number. What stands for a
// step may be a byte.
pub fn staircase<S: Copy + From<Step>>(d: [i32; 3], steps: &mut [S]) -> Result<usize, Refusal>
    ensures answer { result ≡ answered (staircase_refusal d (length steps.old)) (steps_to d) }
    ensures laid { (code : Step → S) → Gives S.from_gives code → StaircaseCall code d steps.old result steps.new }
    ensures few { IfOk result (λ n. n ≤ 96) }
{
    let offset = stairs::checks::offset(d)?;
    if steps.len() < offset.steps() {
        return Err(Refusal::Room);
    }
    let stairs = offset.staircase();
    let all = stairs.as_slice();
    // Not by a `zip` of `steps.iter_mut()`: a proof knows nothing of what an adapter of it has written.
    for (i, step) in all.iter().enumerate() {
        steps[i] = S::from(*step);
    }
    Ok(all.len())
}
