// Smearing, field strength and densities of a field in a lent list: each call checks what it is handed by
// its rows, in order, and answers the refusal or what its definition says. A list that is filled stays as
// it was where the call is refused: no number is stored before all are known to be finite. The calls begin
// alike and stay apart: names, arguments and rows of each are the scope's.
#![tactic(auto)]

mod checks;
mod densities;
mod matrices;
mod places;
mod smearing;

pub use densities::{action_density, electric_sq, topological_charge_density};
pub use matrices::{clover_leaves, field_strength_at};
pub use smearing::{stout_link, stout_step};
