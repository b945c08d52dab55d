#![tactic(auto, unfolding(gauge::specs::Polyakov::later_of, gauge::specs::Polyakov::time_line_of, crate::specs::Path::step_of, crate::specs::Path::path_of, crate::specs::Path::line_of), using(geometry::proofs::Stride::sites_last, geometry::proofs::Neighbour::fwd_below, geometry::proofs::Neighbour::bwd_below))]

ghost use Rattle.std.specs.Prelude.{◌≡◌, ◌<◌};
ghost use Rattle.geometry.specs.Radix.{volume};
ghost use Rattle.gauge.specs.Polyakov.{later_of};
ghost use Rattle.paths.specs.Path.{field_under, line_from, path_from, transporter};

use crate::Walker;
use gauge::Su3Lattice;
use mat::Su3;
use stairs::Stairs;
use steps::Position;

impl<'a> Walker<'a> {
    // At a site. Always inline: called, it would copy the walker.
    #[inline(always)]
    pub fn new(lattice: Su3Lattice<'a>, site: usize) -> Self
        requires { site < volume lattice.extents.d }
        ensures field { result.lattice ≡ lattice.entry }
        ensures start { result.here.at.site ≡ site }
    {
        let here = Position::new(lattice.extents, site);
        Walker { lattice, here }
    }

    // The link of a direction here. The last stride is the number of sites: with `self.lattice.link(..)`, which works
    // that out in each turn of the loop, a path takes 5 % longer.
    fn link(&self, mu: usize) -> Su3
        requires { mu < 4 }
        ensures { result ≡ field_under self.now mu self.now.here.at.site }
    {
        let v = self.here.strides.s[4];
        links::link(self.lattice.links, v, mu, self.here.at.site)
    }

    // The product along steps from here, and on to their end.
    pub fn path(&mut self, steps: &Stairs) -> Su3
        ensures field { self.new.lattice ≡ self.old.lattice }
        ensures walked { transporter result self.new ≡ path_from self.old steps.now }
    {
        let mut u = Su3::IDENTITY;
        for step in steps.as_slice() {
            let mu = usize::from(step.axis);
            if step.forward {
                u = u * self.link(mu);
                self.here.up(mu);
            } else {
                self.here.down(mu);
                u = u.mul_dag(self.link(mu));
            }
        }
        u
    }

    // The product of t_len links along time from here, and on to their end.
    pub fn time_line(&mut self, t_len: usize) -> Su3
        ensures field { self.new.lattice ≡ self.old.lattice }
        ensures walked { transporter result self.new ≡ line_from self.old t_len }
    {
        let mut u = Su3::IDENTITY;
        for _ in 0..t_len {
            u = u * self.link(0);
            self.here.up(0);
        }
        u
    }

    // On along time by t_len steps.
    pub fn later(&mut self, t_len: usize)
        ensures field { self.new.lattice ≡ self.old.lattice }
        ensures end { self.new.here.at.site ≡ later_of self.old.lattice.extents.d self.old.here.at.site t_len }
    {
        for _ in 0..t_len {
            self.here.up(0);
        }
    }
}
