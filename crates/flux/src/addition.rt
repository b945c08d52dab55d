#![tactic(auto, unfolding(rows::specs::Refusals::first_refusal, rows::specs::Refusals::refusal_in, rows::specs::Refusals::answered, rows::specs::Refusals::finally, rows::specs::Refusals::unless, crate::specs::Situations::bad_per_density, crate::specs::Situations::bad_scratch, crate::specs::Situations::other_count, crate::specs::Situations::other_grid, crate::specs::Situations::full_samples, crate::specs::Calls::add_refusal, crate::specs::Calls::loop_at, crate::specs::Sums::added_grid, crate::specs::Sums::added_of, crate::specs::Sums::with_sums))]

ghost use Rattle.std.specs.Prelude.{◌≡◌, length, drop};
ghost use Rattle.geometry.specs.Radix.{volume};
ghost use Rattle.rows.specs.Refusals.{Checked};
ghost use Rattle.rows.specs.declared.Refusal.{Refusal};
ghost use Rattle.gauge.specs.Field.{link_of};
ghost use Rattle.stairs.specs.Quarks.{offsets_of};
ghost use Rattle.contraction.specs.Baryon.{baryon_of};
ghost use Rattle.slices.specs.Slices.{places, grid_of, loops_of, sums_of};
ghost use Rattle.flux.specs.Situations.{own_rows};
ghost use Rattle.flux.specs.Sums.{addition_of};
ghost use Rattle.flux.specs.Calls.{AddCall};
ghost use Rattle.flux.specs.Parts.{Addable};

use crate::{FluxAccumulator, checks};
use gauge::Su3Lattice;
use geometry::Extents;
use rows::Refusal;
use slices::Densities;
use stairs::Offset;
use sums::Sums;

impl FluxAccumulator {
    // Whether a field and its densities are like those before, with room for more samples.
    fn takes(&self, extents: Extents, count: u32) -> Result<(), Refusal>
        ensures { Checked (own_rows self.now extents.d count) (λ _. (count ≡ self.now.count) × (volume self.now.n ≡ places extents.d)) result }
    {
        if count != self.count || self.n != extents.space().n || self.samples == u64::MAX {
            Err(Refusal::Densities)
        } else {
            Ok(())
        }
    }

    // Adds up a field: the grid in the second half of the scratch, and the new sums of the loops and densities.
    // A host lends one list for both. The offsets are the accumulator's, which a check has made.
    fn added(
        &self,
        lattice: &Su3Lattice,
        densities: &Densities,
        quarks: [Offset; 3],
        grid: &[f64],
        scratch: &mut [f64],
    ) -> Sums
        requires { Addable self.now lattice.now.extents.d densities.now.extents.d densities.now.count (length grid.now) (length scratch.old) }
        ensures loops { result.w ≡ loops_of lattice.now.extents.d (baryon_of lattice.now.extents.d (link_of lattice.now.extents.d lattice.now.links.now) self.now.t_len (offsets_of quarks)) self.now.w }
        ensures sums { result.s ≡ sums_of lattice.now.extents.d densities.now.numbers.now densities.now.count self.now.s }
        ensures grid { drop (length grid.now) scratch.new ≡ grid_of lattice.now.extents.d (baryon_of lattice.now.extents.d (link_of lattice.now.extents.d lattice.now.links.now) self.now.t_len (offsets_of quarks)) densities.now.numbers.now self.now.t_len densities.now.count grid.now }
    {
        let (loops, sums) = scratch.split_at_mut(grid.len());
        slices::copy(sums, grid);
        let places = lattice.extents.space().cells();
        let w = gather::gather(
            &mut loops[..places],
            sums,
            lattice,
            densities,
            quarks,
            self.t_len,
            self.w,
        );
        let s = slices::density_sums(densities, self.s);
        Sums { w, s }
    }

    // Adds a field: its loops, its densities and their products.
    pub fn add(
        &mut self,
        extents: [usize; 4],
        count: u32,
        links: &[f64],
        densities: &[f64],
        grid: &mut [f64],
        scratch: &mut [f64],
    ) -> Result<(), Refusal>
        ensures { AddCall (addition_of self.old extents count links.now densities.now grid.old scratch.old) result self.new grid.new scratch.new }
    {
        let extents = field_checks::checks::extents(extents)?;
        let cells = count as usize * checks::grid(self.n)?.cells();
        let lattice = field_checks::checks::lattice(extents, links)?;
        checks::length(densities.len(), count as usize * extents.sites())?;
        checks::length(grid.len(), cells)?;
        checks::length(scratch.len(), 2 * cells)?;
        let quarks = checks::parameters(self.offsets, self.t_len, count)?;
        self.takes(extents, count)?;
        let densities = Densities {
            extents,
            count: count as usize,
            numbers: densities,
        };
        let sums = self.added(&lattice, &densities, quarks, grid, scratch);
        sums::store(grid, scratch, sums)?;
        self.samples = sums::more_samples(self.samples, extents.sites());
        self.w = sums.w;
        self.s = sums.s;
        Ok(())
    }
}
