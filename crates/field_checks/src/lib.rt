// Whether a call on a field is refused: by what it is handed, or for a number of its answer that isn't
// finite.

pub mod checks;
mod finite;

pub use finite::Numeric;
