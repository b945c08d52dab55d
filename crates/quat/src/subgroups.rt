#![tactic(auto, unfolding(rows::specs::Refusals::first_refusal, rows::specs::Refusals::refusal_in, rows::specs::Refusals::answered, crate::specs::Subgroup::subgroup_refusal, crate::specs::Subgroup::sub_block, crate::specs::Subgroup::left_mul_sub, crate::specs::Subgroup::sub_block_call, crate::specs::Subgroup::left_mul_sub_call))]

ghost use Rattle.std.specs.Prelude.{◌≡◌, ◌<◌, [], ◌∷◌, ltb};
ghost use Rattle.rows.specs.declared.Refusal.{Refusal};
ghost use Rattle.rows.specs.Refusals.{Checked};
ghost use Rattle.quat.specs.Subgroup.{subgroup_of, with_row, block_of, left_mul_rows, sub_block_call, left_mul_sub_call};
ghost use Rattle.mat.specs.Unitary.{row_of};

use crate::{Mat2, Subgroup};
use complex::{C64, Row};
use mat::Su3;
use rows::Refusal;

// The three SU(2) subgroups that Cabibbo-Marinari cycles through.
pub const SUBGROUPS: [Subgroup; 3] = [
    Subgroup { i: 0, j: 1 },
    Subgroup { i: 0, j: 2 },
    Subgroup { i: 1, j: 2 },
];

impl Mat2 {
    pub const ZERO: Self = Self {
        m00: C64::ZERO,
        m01: C64::ZERO,
        m10: C64::ZERO,
        m11: C64::ZERO,
    };
}

// The rows of a 3×3 matrix that a subgroup acts on.
#[derive(Clone, Copy)]
struct Acted {
    rows: Subgroup,
    ghost inside: { (rows.i < 3) × (rows.j < 3) },
}

// Worked out, since a look into the table would copy it.
#[tactic(auto, using(crate::proofs::Laws::pair_is), unfolding(rows::specs::Refusals::first_refusal, rows::specs::Refusals::refusal_in))]
fn acted_on(subgroup: usize) -> Result<Acted, Refusal>
    ensures { Checked ((ltb 2 subgroup, Refusal.Direction) ∷ []) (λ p. p.rows ≡ subgroup_of subgroup) result }
{
    if subgroup > 2 {
        return Err(Refusal::Direction);
    }
    let rows = Subgroup {
        i: subgroup / 2,
        j: (subgroup + 3) / 2,
    };
    Ok(Acted { rows })
}

#[tactic(auto, unfolding(mat::specs::Unitary::row_of))]
fn row(u: Su3, i: usize) -> Row
    requires { i < 3 }
    ensures { result ≡ row_of u i }
{
    Row {
        c0: u.m[3 * i],
        c1: u.m[3 * i + 1],
        c2: u.m[3 * i + 2],
    }
}

#[tactic(auto, unfolding(crate::specs::Subgroup::with_row))]
fn with_row(mut u: Su3, i: usize, v: Row) -> Su3
    requires { i < 3 }
    ensures { result ≡ with_row u i v }
{
    u.m[3 * i] = v.c0;
    u.m[3 * i + 1] = v.c1;
    u.m[3 * i + 2] = v.c2;
    u
}

#[tactic(auto, unfolding(crate::specs::Subgroup::block_of))]
fn block(u: Su3, on: Acted) -> Mat2
    ensures { result ≡ block_of u on.rows.i on.rows.j }
{
    let Subgroup { i, j } = on.rows;
    Mat2 {
        m00: u.m[3 * i + i],
        m01: u.m[3 * i + j],
        m10: u.m[3 * j + i],
        m11: u.m[3 * j + j],
    }
}

#[tactic(auto, unfolding(crate::specs::Subgroup::left_mul_rows))]
fn left_mul_rows(u: Su3, on: Acted, x: Mat2) -> Su3
    ensures { result ≡ left_mul_rows u on.rows.i on.rows.j x }
{
    let Subgroup { i, j } = on.rows;
    let a = row(u, i);
    let b = row(u, j);
    let top = Row::combine(x.m00, a, x.m01, b);
    let bottom = Row::combine(x.m10, a, x.m11, b);
    with_row(with_row(u, i, top), j, bottom)
}

// The 2×2 block of `u` that a subgroup acts on.
pub fn sub_block(u: Su3, subgroup: usize) -> Result<Mat2, Refusal>
    ensures { result ≡ sub_block_call u subgroup }
{
    Ok(block(u, acted_on(subgroup)?))
}

// `u` with its subgroup's rows left-multiplied by the 2×2 matrix `x`.
pub fn left_mul_sub(u: Su3, subgroup: usize, x: Mat2) -> Result<Su3, Refusal>
    ensures { result ≡ left_mul_sub_call u subgroup x }
{
    Ok(left_mul_rows(u, acted_on(subgroup)?, x))
}
