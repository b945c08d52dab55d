ghost use Rattle.std.specs.Prelude.{ℕ, ◌<◌};

use complex::C64;
use mat::Su3;
use quat::{Mat2, Quat};
use rows::Refusal;
use std::fmt;

// The pattern of an f64, and of every NaN the same one.
pub fn pattern(x: f64) -> u64 {
    if x.is_nan() {
        0x7ff8_0000_0000_0000
    } else {
        x.to_bits()
    }
}

// An f64 that is printed by its pattern, as 16 hex digits.
#[derive(Clone, Copy)]
pub struct Bits(pub f64);

impl fmt::Display for Bits {
    fn fmt<W: fmt::Write>(&self, f: &mut fmt::Formatter<W>) -> fmt::Result {
        let pattern = pattern(self.0);
        write!(f, "{pattern:016x}")
    }
}

// FNV-1a, 64 bits, over words, the eight bytes of each from the lowest. It is printed as 16 hex digits.
#[derive(Clone, Copy)]
pub struct Fnv {
    state: u64,
}

impl fmt::Display for Fnv {
    fn fmt<W: fmt::Write>(&self, f: &mut fmt::Formatter<W>) -> fmt::Result {
        let state = self.state;
        write!(f, "{state:016x}")
    }
}

impl Fnv {
    pub const EMPTY: Self = Self {
        state: 0xcbf2_9ce4_8422_2325,
    };

    // The hash of one answer.
    pub fn of<T: Hashed>(answer: T) -> Self {
        Self::EMPTY.add(answer)
    }

    // The hash of a call's answers to 0, 1, .., count - 1: there is no list of them.
    pub fn over<T: Hashed, F: Fn(usize) -> T>(count: usize, call: F) -> Self
        requires { (n : ℕ) → n < count → F.pre call n }
    {
        let mut h = Self::EMPTY;
        for n in 0..count {
            h = h.add(call(n));
        }
        h
    }

    fn word(self, word: u64) -> Self {
        let mut state = self.state;
        for byte in word.to_le_bytes() {
            state = words::wrapping_mul(state ^ u64::from(byte), 0x0000_0100_0000_01b3);
        }
        Self { state }
    }

    pub fn add<T: Hashed>(self, answer: T) -> Self {
        answer.add_to(self)
    }
}

// What a call leaves that fills a list: the row that refuses it, or 0, and the list as it is then. A row and no
// `Option`: it is printed as its number.
#[derive(Clone, Copy)]
pub struct Filled {
    row: u32,
    list: Fnv,
}

impl Filled {
    pub fn by<F: FnOnce(&mut [f64]) -> Result<(), Refusal>>(list: &mut [f64], call: F) -> Self
        requires { F.IsAlwaysCallable call }
    {
        let row = rows::row(call(list));
        Self {
            row,
            list: Fnv::of(&*list),
        }
    }
}

impl fmt::Display for Filled {
    fn fmt<W: fmt::Write>(&self, f: &mut fmt::Formatter<W>) -> fmt::Result {
        let Filled { row, list } = *self;
        write!(f, "{row} {list}")
    }
}

// What a call answers, and how it is added to a hash.
pub trait Hashed {
    fn add_to(self, h: Fnv) -> Fnv;
}

// A whole number as one word: one impl over Into<u64> would overlap the others.
impl Hashed for u64 {
    fn add_to(self, h: Fnv) -> Fnv {
        h.word(self)
    }
}

impl Hashed for u32 {
    fn add_to(self, h: Fnv) -> Fnv {
        h.word(u64::from(self))
    }
}

impl Hashed for u8 {
    fn add_to(self, h: Fnv) -> Fnv {
        h.word(u64::from(self))
    }
}

impl Hashed for usize {
    fn add_to(self, h: Fnv) -> Fnv {
        h.word(self as u64)
    }
}

impl Hashed for f64 {
    fn add_to(self, h: Fnv) -> Fnv {
        h.word(pattern(self))
    }
}

impl Hashed for C64 {
    fn add_to(self, h: Fnv) -> Fnv {
        h.add(self.re).add(self.im)
    }
}

impl Hashed for Su3 {
    fn add_to(self, h: Fnv) -> Fnv {
        h.add(self.m)
    }
}

impl Hashed for Mat2 {
    fn add_to(self, h: Fnv) -> Fnv {
        h.add(self.m00).add(self.m01).add(self.m10).add(self.m11)
    }
}

impl Hashed for Quat {
    fn add_to(self, h: Fnv) -> Fnv {
        h.add(self.a0).add(self.a1).add(self.a2).add(self.a3)
    }
}

impl<A: Hashed, B: Hashed> Hashed for (A, B) {
    fn add_to(self, h: Fnv) -> Fnv {
        h.add(self.0).add(self.1)
    }
}

// The elements in their order.
impl<T: Hashed + Copy, const N: usize> Hashed for [T; N] {
    fn add_to(self, h: Fnv) -> Fnv {
        h.add(self.as_slice())
    }
}

impl<T: Hashed + Copy> Hashed for &[T] {
    fn add_to(self, h: Fnv) -> Fnv {
        self.iter().fold(h, |h, x| h.add(*x))
    }
}

// Where the call is refused, its row alone.
impl<T: Hashed> Hashed for Result<T, Refusal> {
    fn add_to(self, h: Fnv) -> Fnv {
        match self {
            Ok(answer) => h.add(answer),
            Err(refusal) => h.add(u32::from(refusal)),
        }
    }
}
