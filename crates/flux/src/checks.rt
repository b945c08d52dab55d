// What a call is handed, judged: each check is a row of the table, but for `parameters`.
#![tactic(auto, unfolding(rows::specs::Refusals::first_refusal, rows::specs::Refusals::refusal_in, crate::specs::Grid::bad_grid, crate::specs::Situations::bad_count))]

ghost use Rattle.std.specs.Prelude.{◌≡◌, [], ◌∷◌};
ghost use Rattle.rows.specs.Refusals.{Checked};
ghost use Rattle.rows.specs.declared.Refusal.{Refusal};
ghost use Rattle.stairs.specs.Quarks.{offsets_of};
ghost use Rattle.gather.specs.Parts.{ParametersFit};
ghost use Rattle.flux.specs.Grid.{bad_grid};
ghost use Rattle.flux.specs.Situations.{parameters_rows};

pub use field_checks::checks::length;
use geometry::Grid;
use rows::Refusal;
use stairs::Offset;

pub fn grid(n: [usize; 3]) -> Result<Grid, Refusal>
    ensures { Checked ((bad_grid n, Refusal.Extents) ∷ []) (λ g. g.n ≡ n) result }
{
    Grid::new(n).ok_or(Refusal::Extents)
}

// Offsets, time length and count of densities.
pub fn parameters(offsets: [[i32; 3]; 3], t_len: usize, count: u32) -> Result<[Offset; 3], Refusal>
    ensures { Checked (parameters_rows offsets t_len count) (λ q. (offsets_of q ≡ offsets) × ParametersFit t_len count) result }
{
    let quarks = stairs::checks::quarks(offsets)?;
    stairs::checks::time(t_len)?;
    if (1..=4).contains(&count) {
        Ok(quarks)
    } else {
        Err(Refusal::Densities)
    }
}
