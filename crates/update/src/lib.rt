// The update of one link, by overrelaxation: of a link and its staples' sum, and of a field that fits.
#![tactic(auto, unfolding(crate::specs::Update::quat_over, crate::specs::Update::reflection_of, crate::specs::Update::is_short, crate::specs::Update::short_norm, crate::specs::Update::reflected, crate::specs::Update::if_finite, crate::specs::Update::update_of))]

ghost use Rattle.std.specs.Prelude.{◌≡◌, ◌<◌, [], ◌∷◌};
ghost use Rattle.complex.specs.declared.C64.{C64};
ghost use Rattle.mat.specs.declared.Su3.{Su3};
ghost use Rattle.mat.specs.Unitary.{of_rows};
ghost use Rattle.quat.specs.Quaternion.{project_of};
ghost use Rattle.quat.specs.Subgroup.{sub_block};
ghost use Rattle.geometry.specs.Radix.{volume};
ghost use Rattle.gauge.specs.Field.{link_of};
ghost use Rattle.rows.specs.declared.Refusal.{Refusal};
ghost use Rattle.update.specs.Update.{reflected, if_finite, through_subgroups, update_link_of, update_of};

use complex::{C64, Row};
use gauge::Su3Lattice;
use mat::Su3;
use quat::{Mat2, Quat};
use rows::Refusal;

// Why a link is stuck, as the scope says: it then has no update.
#[derive(Clone, Copy, Debug, PartialEq, Eq)]
pub enum Stuck {
    ShortNorm,
    NotFinite,
}

// The scope has one row for both.
impl From<Stuck> for Refusal {
    ghost from_gives = { λ _ refusal. refusal ≡ Refusal.Stuck };

    fn from(_cause: Stuck) -> Refusal {
        Refusal::Stuck
    }
}

// The quaternion of a 2×2 block.
fn project(m00: C64, m01: C64, m10: C64, m11: C64) -> Quat
    ensures { result ≡ project_of (record { m00 = m00; m01 = m01; m10 = m10; m11 = m11 }) }
{
    Quat::project(Mat2 { m00, m01, m10, m11 })
}

// The reflection through v / |v|.
fn reflect(v: Quat) -> Result<Mat2, Stuck>
    ensures { result ≡ reflected v }
{
    let k = v.norm();
    if k < 1e-12 {
        return Err(Stuck::ShortNorm);
    }
    let unit = Quat {
        a0: v.a0 / k,
        a1: v.a1 / k,
        a2: v.a2 / k,
        a3: v.a3 / k,
    };
    let h = unit.conj();
    Ok(h.mul(h).to_mat())
}

fn if_finite(u: Su3) -> Result<Su3, Stuck>
    ensures { result ≡ if_finite u }
{
    if u.is_finite() {
        Ok(u)
    } else {
        Err(Stuck::NotFinite)
    }
}

// Rows stand one by one, here and below: each subgroup combines two and leaves the third, so that an array of them would
// be taken apart and made again each time.

// The last subgroup, for the rows a, b, c of u and the quaternion of w. The third row that it gives
// u is not read again, and so not worked out.
fn third_subgroup(a: Row, b: Row, c: Row, v: Quat) -> Result<Su3, Stuck>
    ensures { (w : Su3) → project_of (sub_block w 2) ≡ v → result ≡ through_subgroups (2 ∷ []) (of_rows a b c) w }
{
    let x = reflect(v)?;
    if_finite(Su3::unitary(a, Row::combine(x.m00, b, x.m01, c)))
}

// The last two, for the rows p, (_, e, f), r of w: the first entry of the second row is not read.
fn from_second(a: Row, b: Row, c: Row, p: Row, e: C64, f: C64, r: Row) -> Result<Su3, Stuck>
    ensures { (z : C64) → result ≡ through_subgroups (1 ∷ 2 ∷ []) (of_rows a b c) (of_rows p (record { c0 = z; c1 = e; c2 = f }) r) }
{
    let x = reflect(project(p.c0, p.c2, r.c0, r.c2))?;
    third_subgroup(
        Row::combine(x.m00, a, x.m01, c),
        b,
        Row::combine(x.m10, a, x.m11, c),
        project(
            e,
            f,
            C64::combine(x.m10, p.c1, x.m11, r.c1),
            C64::combine(x.m10, p.c2, x.m11, r.c2),
        ),
    )
}

// All three, for the rows p, q, r of w.
fn from_first(a: Row, b: Row, c: Row, p: Row, q: Row, r: Row) -> Result<Su3, Stuck>
    ensures { result ≡ through_subgroups (0 ∷ 1 ∷ 2 ∷ []) (of_rows a b c) (of_rows p q r) }
{
    let x = reflect(project(p.c0, p.c1, q.c0, q.c1))?;
    from_second(
        Row::combine(x.m00, a, x.m01, b),
        Row::combine(x.m10, a, x.m11, b),
        c,
        Row::combine(x.m00, p, x.m01, q),
        C64::combine(x.m10, p.c1, x.m11, q.c1),
        C64::combine(x.m10, p.c2, x.m11, q.c2),
        r,
    )
}

// The update of a link u whose staples' sum is a.
#[tactic(auto, using(crate::proofs::ByRows::by_rows), unfolding(mat::specs::Unitary::rows_of))]
pub fn update_link(u: Su3, a: Su3) -> Result<Su3, Stuck>
    ensures { result ≡ update_link_of u a }
{
    let [p, q, r] = (u * a).rows();
    let [a, b, c] = u.rows();
    from_first(a, b, c, p, q, r)
}

// The update of a field's link.
pub fn new_link(lattice: Su3Lattice<'_>, n: usize, mu: usize) -> Result<Su3, Stuck>
    requires below { n < volume lattice.extents.d }
    requires axis { mu < 4 }
    ensures { result ≡ update_of lattice.entry.extents.d (link_of lattice.entry.extents.d lattice.entry.links.now) n mu }
{
    let a = lattice.staple(n, mu);
    update_link(lattice.link(mu, n), a)
}
