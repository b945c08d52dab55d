// Visits of sites: the links of one direction there are updated where they stand. The caller has checked what
// `requires` asks.
#![tactic(auto)]

ghost use Rattle.std.specs.Prelude.{◌≡◌, ◌+◌, ◌*◌, ◌<◌, ◌≤◌, length};
ghost use Rattle.geometry.specs.Radix.{volume};
ghost use Rattle.geometry.specs.Order.{half_of};
ghost use Rattle.visits.specs.Advance.{Visited, Advanced};

use gauge::Su3Lattice;
use geometry::Extents;
use update::Stuck;

// The links of a direction at the sites of a parity.
#[derive(Clone, Copy)]
pub struct LinkSet {
    pub extents: Extents,
    pub direction: usize,
    pub parity: usize,
    ghost axis: { direction < 4 },
    ghost two: { parity < 2 },
}

impl LinkSet {
    // Updates the set's link at a site where it stands, unless it is stuck. The list is handed in beside the
    // set, which is made of a job alone; its length is asked for, as `lattice`'s cold start says why.
    #[tactic(auto, using(crate::proofs::OneSite::site_stuck, crate::proofs::OneSite::site_moved))]
    fn visit(self, links: &mut [f64], n: usize) -> Result<(), Stuck>
        requires fits { length links.old ≡ 72 * volume self.extents.d }
        requires below { n < volume self.extents.d }
        ensures { Visited self.extents.d self.direction n links.old result links.new }
    {
        let extents = self.extents;
        let link = update::new_link(Su3Lattice { extents, links }, n, self.direction)?;
        links::store(
            links,
            links::place(extents.sites(), self.direction, n),
            link,
        );
        Ok(())
    }

    // Visits sites of the parity in ascending order, the first of them the from-th, and gives how many
    // links were stuck. There is no list of the sites: each is worked out from its number.
    #[tactic(auto, using(crate::proofs::Joined::few_stuck, geometry::proofs::Order::nth_below), unfolding(geometry::specs::Order::half_of))]
    pub fn advance(self, links: &mut [f64], from: usize, count: usize) -> usize
        requires fits { length links.old ≡ 72 * volume self.extents.d }
        requires room { from + count ≤ half_of self.extents.d }
        ensures { Advanced self.extents.d self.direction self.parity from count links.old result links.new }
    {
        let mut stuck = 0;
        for k in from..from + count {
            let site = self.extents.nth(self.parity, k);
            if self.visit(links, site).is_err() {
                stuck += 1;
            }
        }
        stuck
    }
}
