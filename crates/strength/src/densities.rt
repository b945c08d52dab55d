#![tactic(auto, unfolding(mat::specs::Matrix::re_tr, mat::specs::Product::mul_of, mat::specs::Product::row_col, crate::specs::Densities::trace_product, crate::specs::Densities::plane_density, crate::specs::Densities::electric_of, crate::specs::Densities::action_density_of, crate::specs::Densities::charge_factor, crate::specs::Densities::charge_density_of, crate::specs::Densities::density_of, crate::specs::Densities::InSpace))]

ghost use Rattle.std.specs.Prelude.{◌≡◌};
ghost use Rattle.gauge.specs.Field.{link_of};
ghost use Rattle.strength.specs.Densities.{trace_product, plane_density, action_density_of, charge_density_of, density_of, InSpace};

use crate::{Density, Plane, Site};
use mat::Su3;
use std::f64::consts::PI;

// Re Tr a·b, of which only the diagonal is worked out.
#[tactic(auto, using(mat::proofs::Tables::product_is), unfolding(crate::specs::Densities::trace_product, mat::specs::Matrix::trace_of, mat::specs::Matrix::re_tr, complex::specs::Complex::cadd))]
fn trace_product(a: Su3, b: Su3) -> f64
    ensures { result ≡ trace_product a b }
{
    Su3::trace_of_product(&a, &b).re
}

impl Plane<'_> {
    // −Tr F_μν².
    fn density(&self) -> f64
        ensures { let l = self.now.site.now.lattice in result ≡ plane_density l.extents.d (link_of l.extents.d l.links.now) self.now.site.now.n self.now.mu self.now.nu }
    {
        let f = self.strength();
        -trace_product(f, f)
    }
}

impl Site<'_> {
    fn action_density(&self) -> f64
        ensures { let l = self.now.lattice in result ≡ action_density_of l.extents.d (link_of l.extents.d l.links.now) self.now.n }
    {
        0.0 + self.plane(0, 1).density()
            + self.plane(0, 2).density()
            + self.plane(0, 3).density()
            + self.plane(1, 2).density()
            + self.plane(1, 3).density()
            + self.plane(2, 3).density()
    }

    fn charge_density(&self) -> f64
        ensures { let l = self.now.lattice in result ≡ charge_density_of l.extents.d (link_of l.extents.d l.links.now) self.now.n }
    {
        let x = trace_product(self.plane(0, 1).strength(), self.plane(2, 3).strength());
        let y = trace_product(self.plane(0, 2).strength(), self.plane(1, 3).strength());
        let z = trace_product(self.plane(0, 3).strength(), self.plane(1, 2).strength());
        8.0 / (32.0 * PI * PI) * (x - y + z)
    }

    // A density at the site.
    pub fn density(&self, kind: Density) -> f64
        requires { InSpace kind }
        ensures { let l = self.now.lattice in result ≡ density_of l.extents.d (link_of l.extents.d l.links.now) kind self.now.n }
    {
        match kind {
            Density::Action => self.action_density(),
            Density::Charge => self.charge_density(),
            Density::Electric(axis) => self.plane(0, axis + 1).density(),
        }
    }
}
