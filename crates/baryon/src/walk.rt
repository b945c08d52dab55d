#![tactic(auto, unfolding(rows::specs::Refusals::first_refusal, rows::specs::Refusals::refusal_in, rows::specs::Refusals::answered, rows::specs::Refusals::finally, crate::specs::Calls::path_call, crate::specs::Calls::line_call, crate::specs::Situations::many_steps, crate::specs::Situations::bad_axes))]

ghost use Rattle.std.specs.Prelude.{◌≡◌, map};
ghost use Rattle.rows.specs.Refusals.{Checked};
ghost use Rattle.stairs.specs.declared.Step.{Step};
ghost use Rattle.baryon.specs.Situations.{steps_rows};
ghost use Rattle.baryon.specs.Calls.{Stands, path_call, line_call};

use field_checks::checks;
use mat::Su3;
use paths::Walker;
use rows::Refusal;
use stairs::{Stairs, Step};

// The steps that a host hands in.
fn steps_of<S: Copy + Into<Step>>(given: &[S]) -> Result<Stairs, Refusal>
    ensures { (read : S → Step) → Stands S.converts read → Checked (steps_rows (map read given.now)) (λ s. s ≡ map read given.now) result }
{
    if given.len() > 96 {
        return Err(Refusal::Reach);
    }
    let mut steps = Stairs::new();
    for x in given {
        let step: Step = (*x).into();
        if step.axis > 3 {
            return Err(Refusal::Reach);
        }
        steps.push(step);
    }
    Ok(steps)
}

// The product of the links along the steps from a site, and where it ends. A byte may stand for a step.
pub fn path<S: Copy + Into<Step>>(
    extents: [usize; 4],
    site: usize,
    links: &[f64],
    steps: &[S],
) -> Result<(Su3, usize), Refusal>
    ensures { (read : S → Step) → Stands S.converts read → result ≡ path_call extents site links.now (map read steps.now) }
{
    let lattice = checks::field(extents, links)?;
    checks::site(lattice.extents, site)?;
    let steps = steps_of(steps)?;
    let mut walker = Walker::new(lattice, site);
    let u = walker.path(&steps);
    Ok((checks::finite(u)?, walker.here.at.site))
}

// The product of t_len links along time from a site, and where it ends.
pub fn time_line(
    extents: [usize; 4],
    site: usize,
    t_len: usize,
    links: &[f64],
) -> Result<(Su3, usize), Refusal>
    ensures { result ≡ line_call extents site t_len links.now }
{
    let lattice = checks::field(extents, links)?;
    checks::site(lattice.extents, site)?;
    stairs::checks::time(t_len)?;
    let mut walker = Walker::new(lattice, site);
    let u = walker.time_line(t_len);
    Ok((checks::finite(u)?, walker.here.at.site))
}
