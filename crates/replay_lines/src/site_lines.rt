use anyhow::{Error, Result};
use sample::hash::Fnv;

fn coords(extents: [usize; 4], sites: usize) -> Fnv {
    Fnv::over(sites, |n| lattice::coords(extents, n))
}

fn parities(extents: [usize; 4], sites: usize) -> Fnv {
    Fnv::over(sites, |n| lattice::parity(extents, n))
}

// Forward and backward along each direction.
fn neighbours(extents: [usize; 4], sites: usize) -> Fnv {
    Fnv::over(sites, |n| {
        [0, 1, 2, 3].map(|mu| (lattice::fwd(extents, n, mu), lattice::bwd(extents, n, mu)))
    })
}

// The lines on the sites alone, which need no links.
pub fn lines(rt: &impl Print, extents: [usize; 4]) -> Result<()> {
    let [t, x, y, z] = extents;
    println!(rt; "extents {t} {x} {y} {z}")?;
    let sites = lattice::n_sites(extents).map_err(Error::msg)?;
    println!(rt; "sites {sites}")?;
    println!(rt; "coords {}", coords(extents, sites))?;
    println!(rt; "parities {}", parities(extents, sites))?;
    println!(rt; "neighbours {}", neighbours(extents, sites))?;
    Ok(())
}
