// Why a call is refused. A row is one of the scope's table of refusals, by its number.
#![tactic(auto, unfolding(crate::specs::Numbers::row_of, crate::specs::Numbers::number_in, crate::specs::Refusals::refusal_in, crate::specs::Refusals::value_or))]

ghost use Rattle.std.specs.Prelude.{◌≡◌};
ghost use Rattle.std.specs.Float.Ieee.Scale.{finite};
ghost use Rattle.rows.specs.Finite.{finite_numbers};
ghost use Rattle.rows.specs.Refusals.{refusal_in, value_or};
ghost use Rattle.rows.specs.Numbers.{row_of, number_in};

use std::fmt;

// Why a call is refused: one for each row of the table, with its number.
#[derive(Clone, Copy, Debug, PartialEq, Eq)]
pub enum Refusal {
    Extents = 1,
    Coupling = 2,
    Length = 3,
    Site = 4,
    Direction = 5,
    Parity = 6,
    Pass = 7,
    Job = 8,
    Stuck = 9,
    NotFinite = 10,
    Reach = 11,
    Room = 12,
    Densities = 13,
    NoMean = 14,
    Input = 15,
}

// The row's number.
impl From<Refusal> for u32 {
    ghost from_gives = { λ refusal row. row ≡ row_of refusal };

    fn from(refusal: Refusal) -> u32 {
        refusal as u32
    }
}

impl fmt::Display for Refusal {
    fn fmt<W: fmt::Write>(&self, f: &mut fmt::Formatter<W>) -> fmt::Result {
        f.write_str(match self {
            Refusal::Extents => "an extent is odd, below 2 or above 16",
            Refusal::Coupling => "the coupling is not finite, below 0 or above 100",
            Refusal::Length => "a list has a wrong length",
            Refusal::Site => "a site number or a coordinate is too large",
            Refusal::Direction => "a direction, a plane, a subgroup or an axis is none",
            Refusal::Parity => "the parity is above 1",
            Refusal::Pass => "the pass cannot grow",
            Refusal::Job => "the job's numbers are out of range",
            Refusal::Stuck => "the link is stuck",
            Refusal::NotFinite => "a number to be answered or stored is not finite",
            Refusal::Reach => "an axis, steps, an offset or a time length are out of range",
            Refusal::Room => "there is too little room",
            Refusal::Densities => "the densities, the grid or the samples do not fit",
            Refusal::NoMean => "there is nothing to divide by",
            Refusal::Input => "the input is not four bytes, or has more than 64 sites",
        })
    }
}

// The row that refuses a call, and 0 where none does: for a host that has no enums.
pub fn row<T: Copy>(answer: Result<T, Refusal>) -> u32
    ensures { result ≡ number_in (refusal_in answer) }
{
    match answer {
        Ok(_) => 0,
        Err(refusal) => u32::from(refusal),
    }
}

// The row, and the answer's value, or what stands for it where the call is refused.
pub fn row_and_value<T: Copy>(answer: Result<T, Refusal>, refused: T) -> (u32, T)
    ensures row { result.0 ≡ number_in (refusal_in answer) }
    ensures value { result.1 ≡ value_or refused answer }
{
    match answer {
        Ok(value) => (0, value),
        Err(refusal) => (u32::from(refusal), refused),
    }
}

// Row 10's test: neither an infinity nor a NaN.
#[tactic(auto, using(crate::proofs::Finite::finite_tested))]
pub fn is_finite(x: f64) -> bool
    ensures { result ≡ finite x }
{
    x.is_finite()
}

// The same of every number of a list. By a fold and not by `all`: with no early exit several numbers are tested a turn.
pub fn all_finite(l: &[f64]) -> bool
    ensures { result ≡ finite_numbers l.now }
{
    l.iter().fold(true, |all, x| all & is_finite(*x))
}
