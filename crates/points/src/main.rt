// The published vectors of the generators, and the worked examples that no theorem covers: each is
// run, printed beside a label, and compared. Standard output is held to the stored one as well.
#![tactic(auto)]

mod lines;
mod overrelaxation;
mod staircases;
mod walks;

use anyhow::{Error, Result};
use mat::Su3;
use rng::Rng;
use rows::Refusal;
use sample::hash::{Bits, pattern};
use sample::output::Output;
use std::fmt::Display;

// What splitmix64 gives from the states 0 and 1234567, and xoshiro256++ from 1, 2, 3, 4; where they
// come from is in docs/DECISIONS.md.
const SPLITMIX_0: [u64; 5] = [
    16294208416658607535,
    7960286522194355700,
    487617019471545679,
    17909611376780542444,
    1961750202426094747,
];

const SPLITMIX_1234567: [u64; 5] = [
    6457827717110365317,
    3203168211198807973,
    9817491932198370423,
    4593380528125082431,
    16408922859458223821,
];

const XOSHIRO_1234: [u64; 10] = [
    41943041,
    58720359,
    3588806011781223,
    3591011842654386,
    9228616714210784205,
    9973669472204895162,
    14011001112246962877,
    12406186145184390807,
    15849039046786891736,
    10450023813501588000,
];

// What has been compared so far, and how much of it differed. Each comparison is a line.
#[derive(Drop)]
struct Tally {
    rt: Output<HostRuntime>,
    compared: u32,
    differ: u32,
}

impl Tally {
    // Ends the line, and counts it.
    fn count(&mut self, same: bool) -> Result<()> {
        self.compared = self.compared.wrapping_add(1);
        if same {
            println!(self.rt)?;
        } else {
            self.differ = self.differ.wrapping_add(1);
            println!(self.rt; " differs")?;
        }
        Ok(())
    }

    fn whole<D: Display + Drop>(&mut self, label: D, got: u64, wanted: u64) -> Result<()> {
        print!(self.rt; "{label} {got}")?;
        self.count(got == wanted)
    }

    // Why a call is refused, or not: printed as the row's number, or 0.
    fn row<T: Copy, D: Display + Drop>(
        &mut self,
        call: D,
        answer: Result<T, Refusal>,
        wanted: Option<Refusal>,
    ) -> Result<()> {
        print!(self.rt; "row that refuses {call} {}", rows::row(answer))?;
        self.count(answer.err() == wanted)
    }

    // A number by its bits; every NaN is one.
    fn number(&mut self, label: &str, got: f64, wanted: f64) -> Result<()> {
        print!(self.rt; "{label} {}", Bits(got))?;
        self.count(pattern(got) == pattern(wanted))
    }

    // The 18 numbers of a matrix, row by row.
    fn matrix(&mut self, label: &str, got: Su3, wanted: &[f64; 18]) -> Result<()> {
        for (z, numbers) in got.m.iter().zip(wanted.chunks_exact(2)) {
            self.number(label, z.re, numbers[0])?;
            self.number(label, z.im, numbers[1])?;
        }
        Ok(())
    }
}

fn splitmix64(t: &mut Tally, seed: u64, wanted: &[u64; 5]) -> Result<()> {
    let mut x = seed;
    for word in wanted {
        t.whole("splitmix64", rng::splitmix(&mut x), *word)?;
    }
    Ok(())
}

// Each word is drawn twice: by a method on a generator held by value, and by one behind a reference.
fn xoshiro256(t: &mut Tally, wanted: &[u64; 10]) -> Result<()> {
    let mut own = Rng { s: [1, 2, 3, 4] };
    let lent = &mut Rng { s: [1, 2, 3, 4] };
    for word in wanted {
        t.whole("xoshiro256++", own.next_u64(), *word)?;
        t.whole("xoshiro256++ by reference", lent.next_u64(), *word)?;
    }
    Ok(())
}

fn sites(t: &mut Tally) -> Result<()> {
    let n = lattice::n_sites([16, 2, 2, 2]).map_err(Error::msg)?;
    t.whole("sites of 16 2 2 2", n as u64, 128)?;
    let r = lattice::n_sites([18, 2, 2, 2]);
    t.row("18 2 2 2", r, Some(Refusal::Extents))
}

fn main(rt: HostRuntime) -> Result<()> {
    let mut t = Tally {
        rt: Output { rt },
        compared: 0,
        differ: 0,
    };
    splitmix64(&mut t, 0, &SPLITMIX_0)?;
    splitmix64(&mut t, 1234567, &SPLITMIX_1234567)?;
    xoshiro256(&mut t, &XOSHIRO_1234)?;
    // 1 - 2^-53
    let top = rng::uniform_of(u64::MAX);
    t.number("uniform of all ones", top, 0.9999999999999999)?;
    sites(&mut t)?;
    overrelaxation::points(&mut t)?;
    staircases::points(&mut t)?;
    lines::points(&mut t)?;
    walks::points(&mut t)?;
    let Tally {
        rt,
        compared,
        differ,
    } = t;
    println!(rt; "{compared} compared, {differ} differ")?;
    Ok(())
}
