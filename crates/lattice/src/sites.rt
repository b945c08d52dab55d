#![tactic(auto, unfolding(rows::specs::Refusals::first_refusal, rows::specs::Refusals::refusal_in, rows::specs::Refusals::answered, crate::specs::Answers::n_sites_call, crate::specs::Answers::coords_call, crate::specs::Answers::index_call, crate::specs::Answers::parity_call, crate::specs::Answers::fwd_call, crate::specs::Answers::bwd_call))]

ghost use Rattle.std.specs.Prelude.{◌≡◌};
ghost use Rattle.lattice.specs.Answers.{n_sites_call, coords_call, index_call, parity_call, fwd_call, bwd_call};

use field_checks::checks;
use rows::Refusal;
use steps::Strides;

// The number of sites.
pub fn n_sites(extents: [usize; 4]) -> Result<usize, Refusal>
    ensures { result ≡ n_sites_call extents }
{
    let extents = checks::extents(extents)?;
    Ok(extents.sites())
}

// The coordinates t, x, y, z of a site.
pub fn coords(extents: [usize; 4], site: usize) -> Result<[usize; 4], Refusal>
    ensures { result ≡ coords_call extents site }
{
    let extents = checks::extents(extents)?;
    checks::site(extents, site)?;
    Ok(extents.coords(site))
}

// The site at coordinates.
pub fn index(extents: [usize; 4], coords: [usize; 4]) -> Result<usize, Refusal>
    ensures { result ≡ index_call extents coords }
{
    let extents = checks::extents(extents)?;
    checks::coords(extents, coords)?;
    Ok(extents.index(coords))
}

// 0 or 1: whether the coordinates' sum is even or odd.
pub fn parity(extents: [usize; 4], site: usize) -> Result<usize, Refusal>
    ensures { result ≡ parity_call extents site }
{
    let extents = checks::extents(extents)?;
    checks::site(extents, site)?;
    Ok(extents.parity(site))
}

// The next site along a direction.
pub fn fwd(extents: [usize; 4], site: usize, mu: usize) -> Result<usize, Refusal>
    ensures { result ≡ fwd_call extents site mu }
{
    let extents = checks::extents(extents)?;
    checks::site(extents, site)?;
    checks::direction(mu)?;
    Ok(Strides::new(extents).fwd(site, mu))
}

// The site before along a direction. A call of its own: the name is the Rust's.
pub fn bwd(extents: [usize; 4], site: usize, mu: usize) -> Result<usize, Refusal>
    ensures { result ≡ bwd_call extents site mu }
{
    let extents = checks::extents(extents)?;
    checks::site(extents, site)?;
    checks::direction(mu)?;
    Ok(Strides::new(extents).bwd(site, mu))
}
