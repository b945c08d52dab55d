// What a call is handed, judged: each check is a row of the table, but for `field` and `coupled_field`.
#![tactic(auto, unfolding(rows::specs::Refusals::first_refusal, rows::specs::Refusals::refusal_in, crate::specs::Situations::bad_extents, crate::specs::Situations::bad_coupling, crate::specs::Situations::bad_links, crate::specs::Situations::bad_site, crate::specs::Situations::bad_direction, crate::specs::Situations::bad_plane, crate::specs::Situations::bad_coords, folds::specs::Folds::all_below, crate::specs::Situations::bad_room))]

ghost use Rattle.std.specs.Prelude.{◌≡◌, ◌*◌, ◌<◌, ◌≤◌, [], ◌∷◌, length, not, nat_eq};
ghost use Rattle.rows.specs.Refusals.{Checked};
ghost use Rattle.geometry.specs.Radix.{volume, Within};
ghost use Rattle.rows.specs.declared.Refusal.{Refusal};
ghost use Rattle.field_checks.specs.Refusals.{field_rows, plan_rows};
ghost use Rattle.field_checks.specs.Situations.{bad_extents, bad_coupling, bad_links, bad_site, bad_coords, bad_direction, bad_plane, bad_room};

pub use crate::finite::{all_finite, finite};
use gauge::Su3Lattice;
use geometry::Extents;
use rows::Refusal;

// A host hands in any four numbers; what stands below takes `Extents`.
pub fn extents(d: [usize; 4]) -> Result<Extents, Refusal>
    ensures { Checked ((bad_extents d, Refusal.Extents) ∷ []) (λ e. e.d ≡ d) result }
{
    Extents::new(d).ok_or(Refusal::Extents)
}

pub fn coupling(c: f64) -> Result<(), Refusal>
    ensures { Checked ((bad_coupling c, Refusal.Coupling) ∷ []) (λ _. Unit {0}) result }
{
    if !rows::is_finite(c) || c < 0.0 || c > 100.0 {
        return Err(Refusal::Coupling);
    }
    Ok(())
}

// A list's length.
pub fn length(len: usize, wanted: usize) -> Result<(), Refusal>
    ensures { Checked ((not (nat_eq len wanted), Refusal.Length) ∷ []) (λ _. len ≡ wanted) result }
{
    if len == wanted {
        Ok(())
    } else {
        Err(Refusal::Length)
    }
}

pub fn lattice(extents: Extents, links: &[f64]) -> Result<Su3Lattice<'_>, Refusal>
    ensures { Checked ((bad_links extents.d (length links.now), Refusal.Length) ∷ []) (λ l. (l.extents.d ≡ extents.d) × (l.links.now ≡ links.now)) result }
{
    length(links.len(), 72 * extents.sites())?;
    Ok(Su3Lattice { extents, links })
}

// A field: its extents, and the length of its links.
pub fn field(d: [usize; 4], links: &[f64]) -> Result<Su3Lattice<'_>, Refusal>
    ensures { Checked (field_rows d (length links.now)) (λ l. (l.extents.d ≡ d) × (l.links.now ≡ links.now)) result }
{
    lattice(extents(d)?, links)
}

// The same, and the coupling between the two.
pub fn coupled_field(d: [usize; 4], c: f64, links: &[f64]) -> Result<Su3Lattice<'_>, Refusal>
    ensures { Checked (plan_rows d c (length links.now)) (λ l. (l.extents.d ≡ d) × (l.links.now ≡ links.now)) result }
{
    let extents = extents(d)?;
    coupling(c)?;
    lattice(extents, links)
}

// No type of a site's number comes of it, nor below of a direction: loops count them and arrays are read at them, so
// that a type would be made and opened at each of these places, and the definitions are over numbers. A site with what
// belongs to it has types: `steps::Position`, `strength::Site`, `paths::Walker`.
pub fn site(extents: Extents, n: usize) -> Result<(), Refusal>
    ensures { Checked ((bad_site extents.d n, Refusal.Site) ∷ []) (λ _. n < volume extents.d) result }
{
    if n < extents.sites() {
        Ok(())
    } else {
        Err(Refusal::Site)
    }
}

pub fn direction(mu: usize) -> Result<(), Refusal>
    ensures { Checked ((bad_direction mu, Refusal.Direction) ∷ []) (λ _. mu < 4) result }
{
    if mu < 4 {
        Ok(())
    } else {
        Err(Refusal::Direction)
    }
}

pub fn plane(mu: usize, nu: usize) -> Result<(), Refusal>
    ensures { Checked ((bad_plane mu nu, Refusal.Direction) ∷ []) (λ _. (mu < 4) × (nu < 4) × (nu ≡ mu → ⊥)) result }
{
    if mu < 4 && nu < 4 && mu != nu {
        Ok(())
    } else {
        Err(Refusal::Direction)
    }
}

pub fn coords(extents: Extents, at: [usize; 4]) -> Result<(), Refusal>
    ensures { Checked ((bad_coords extents.d at, Refusal.Site) ∷ []) (λ _. Within extents.d at) result }
{
    let [nt, nx, ny, nz] = extents.d;
    let [t, x, y, z] = at;
    if t < nt && x < nx && y < ny && z < nz {
        Ok(())
    } else {
        Err(Refusal::Site)
    }
}

// Room for the numbers of all links.
pub fn room(extents: Extents, room: usize) -> Result<(), Refusal>
    ensures { Checked ((bad_room extents.d room, Refusal.Room) ∷ []) (λ _. 4 * volume extents.d ≤ room) result }
{
    if room < 4 * extents.sites() {
        Err(Refusal::Room)
    } else {
        Ok(())
    }
}
