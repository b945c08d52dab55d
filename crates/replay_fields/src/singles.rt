use sample::hash::Fnv;

// Hashes over the answers of calls at one site, all sites in turn.

// For each direction mu, each nu: the same one too, which is refused.
pub fn clover_leaves(extents: [usize; 4], links: &[f64]) -> Fnv {
    Fnv::over(links.len() / 72, |site| {
        [0, 1, 2, 3].map(|mu| {
            [0, 1, 2, 3].map(|nu| fields::clover_leaves(extents, site, mu, nu, links))
        })
    })
}

pub fn field_strengths(extents: [usize; 4], links: &[f64]) -> Fnv {
    Fnv::over(links.len() / 72, |site| {
        fields::field_strength_at(extents, site, links)
    })
}

// Site by site, the four directions of each.
pub fn stout_links(extents: [usize; 4], links: &[f64]) -> Fnv {
    Fnv::over(links.len() / 72, |site| {
        [0, 1, 2, 3].map(|mu| fields::stout_link(extents, site, mu, 0.1, links))
    })
}
