#![tactic(auto, unfolding(crate::specs::Plaquette::plaquette_of), using(geometry::proofs::Neighbour::fwd_below, geometry::proofs::Neighbour::near_up))]

ghost use Rattle.std.specs.Prelude.{◌≡◌, ◌<◌};
ghost use Rattle.geometry.specs.Radix.{volume};
ghost use Rattle.links.specs.Field.{place_of};
ghost use Rattle.gauge.specs.Field.{link_of};
ghost use Rattle.gauge.specs.Plaquette.{plaquette_at, plaquette_of, planes_sum, average_of, action_of};

use crate::Su3Lattice;
use crate::traces::Square;
use mat::Su3;
use steps::{Position, Strides};

impl Su3Lattice<'_> {
    // The links around a plaquette at n in the plane of mu and nu, where f and g are the other two corners
    // beside n. No type of such a plane: `planes_sum` has the corners of all planes at once, a plaquette by itself two
    // that it works out, so that the type would be made only to be taken apart here.
    fn square(&self, n: usize, mu: usize, nu: usize, f: usize, g: usize) -> Square<'_>
        requires plane { (n < volume self.now.extents.d) × (mu < 4) × (nu < 4) }
        requires sides { (f < volume self.now.extents.d) × (g < volume self.now.extents.d) }
        ensures list { result.links.now ≡ self.now.links.now }
        ensures places { let v = volume self.now.extents.d in (result.a ≡ place_of v mu n) × (result.b ≡ place_of v nu f) × (result.c ≡ place_of v nu n) × (result.e ≡ place_of v mu g) }
    {
        Square {
            links: self.links,
            a: self.place(mu, n),
            b: self.place(nu, f),
            c: self.place(nu, n),
            e: self.place(mu, g),
        }
    }

    // The plaquette at n in the plane of mu and nu, where f stands for n + mu and g for n + nu.
    pub fn plaquette_at(&self, n: usize, mu: usize, nu: usize, f: usize, g: usize) -> Su3
        requires plane { (n < volume self.now.extents.d) × (mu < 4) × (nu < 4) }
        requires sides { (f < volume self.now.extents.d) × (g < volume self.now.extents.d) }
        ensures { result ≡ plaquette_at (link_of self.now.extents.d self.now.links.now) mu nu n f g }
    {
        self.square(n, mu, nu, f, g).product()
    }

    // The same, from the site alone.
    pub fn plaquette(&self, n: usize, mu: usize, nu: usize) -> Su3
        requires { (n < volume self.now.extents.d) × (mu < 4) × (nu < 4) }
        ensures { let d = self.now.extents.d in result ≡ plaquette_of d (link_of d self.now.links.now) n mu nu }
    {
        let strides = Strides::new(self.extents);
        self.plaquette_at(n, mu, nu, strides.fwd(n, mu), strides.fwd(n, nu))
    }

    // The sum of the six traces at a site.
    #[tactic(auto, unfolding(crate::specs::Plaquette::planes_sum, crate::specs::Plaquette::plaquette_of), using(geometry::proofs::Neighbour::fwd_below, geometry::proofs::Neighbour::near_up))]
    fn planes_sum(&self, here: &Position) -> f64
        requires { here.now.strides.extents ≡ self.now.extents }
        ensures { let d = self.now.extents.d in result ≡ planes_sum d (link_of d self.now.links.now) here.now.at.site }
    {
        let n = here.at.site;
        let [t, x, y, z] = here.neighbours().up;
        0.0 + self.square(n, 0, 1, t, x).trace()
            + self.square(n, 0, 2, t, y).trace()
            + self.square(n, 0, 3, t, z).trace()
            + self.square(n, 1, 2, x, y).trace()
            + self.square(n, 1, 3, x, z).trace()
            + self.square(n, 2, 3, y, z).trace()
    }

    // ⟨Re Tr U_P⟩ / 3 over all sites and planes. The coordinates are carried along, so that no site's number is
    // divided.
    #[tactic(auto, unfolding(crate::specs::Plaquette::average_of))]
    pub fn average_plaquette(&self) -> f64
        ensures { let d = self.now.extents.d in result ≡ average_of d (link_of d self.now.links.now) }
    {
        let v = self.extents.sites();
        let mut here = Position::new(self.extents, 0);
        let mut sum = 0.0;
        for _ in 0..v {
            sum += self.planes_sum(&here);
            here.next();
        }
        sum / ((v as u32) as f64 * 6.0 * 3.0)
    }

    // The Wilson action, by the average.
    #[tactic(auto, unfolding(crate::specs::Plaquette::action_of))]
    pub fn action(&self, beta: f64) -> f64
        ensures { let d = self.now.extents.d in result ≡ action_of d (link_of d self.now.links.now) beta }
    {
        let n = (self.extents.sites() as u32) as f64;
        beta * 6.0 * n * (1.0 - self.average_plaquette())
    }
}
