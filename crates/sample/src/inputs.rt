use complex::C64;
use mat::Su3;
use quat::{Mat2, Quat};
use rng::Rng;
use std::fmt;

pub const SEED: u64 = 20261115;

// A number is 2u - 1 for a uniform u, or one of +0, -0, 1, -1.
#[derive(Clone, Copy)]
pub enum Set {
    Raw,
    Units,
}

// Its name in a line.
impl fmt::Display for Set {
    fn fmt<W: fmt::Write>(&self, f: &mut fmt::Formatter<W>) -> fmt::Result {
        f.write_str(match self {
            Set::Raw => "raw",
            Set::Units => "units",
        })
    }
}

// What the links of a field are.
#[derive(Clone, Copy, PartialEq, Eq)]
pub enum Kind {
    Cold,
    Raw,
    Group,
    Smooth,
    Damaged,
    Huge,
    Units,
}

pub const KINDS: [Kind; 7] = [
    Kind::Cold,
    Kind::Raw,
    Kind::Group,
    Kind::Smooth,
    Kind::Damaged,
    Kind::Huge,
    Kind::Units,
];

// Its name in a line.
impl fmt::Display for Kind {
    fn fmt<W: fmt::Write>(&self, f: &mut fmt::Formatter<W>) -> fmt::Result {
        f.write_str(match self {
            Kind::Cold => "cold",
            Kind::Raw => "raw",
            Kind::Group => "group",
            Kind::Smooth => "smooth",
            Kind::Damaged => "damaged",
            Kind::Huge => "huge",
            Kind::Units => "units",
        })
    }
}

// What the calls on matrices take.
#[derive(Clone, Copy)]
pub struct Pair {
    pub a: Su3,
    pub b: Su3,
    pub subgroup: usize,
}

// The draw's top two bits choose.
fn unit(draw: u64) -> f64 {
    match draw >> 62 {
        0 => 0.0,
        1 => -0.0,
        2 => 1.0,
        _ => -1.0,
    }
}

fn number(set: Set, rng: &mut Rng) -> f64 {
    match set {
        Set::Raw => 2.0 * rng.uniform() - 1.0,
        Set::Units => unit(rng.next_u64()),
    }
}

fn matrix(set: Set, rng: &mut Rng) -> Su3 {
    Su3 {
        m: std::array::from_fn(|_| {
            let re = number(set, rng);
            let im = number(set, rng);
            C64 { re, im }
        }),
    }
}

// Pair number i of a set.
pub fn pair_at(set: Set, i: u64) -> Pair {
    let mut rng = Rng::stream(SEED, i, set as u64, 0);
    let a = matrix(set, &mut rng);
    let b = matrix(set, &mut rng);
    Pair {
        a,
        b,
        subgroup: (i % 4) as usize,
    }
}

// The first eight numbers of a matrix.
pub fn block(u: Su3) -> Mat2 {
    let [m00, m01, m10, m11, ..] = u.m;
    Mat2 { m00, m01, m10, m11 }
}

// The first four numbers of a matrix.
pub fn quaternion(u: Su3) -> Quat {
    let [left, right, ..] = u.m;
    Quat {
        a0: left.re,
        a1: left.im,
        a2: right.re,
        a3: right.im,
    }
}

// The matrix with another number at one of its eighteen places.
fn with_number(u: Su3, place: usize, x: f64) -> Su3 {
    let mut numbers = <[f64; 18]>::from(u);
    if let Some(number) = numbers.get_mut(place) {
        *number = x;
    }
    Su3::from(numbers)
}

// One of eight damages, which the draw's top three bits choose.
fn spoilt(u: Su3, draw: u64) -> Su3 {
    let place = ((draw >> 8) % 18) as usize;
    match draw >> 61 {
        0 => Su3::ZERO,
        1 => with_number(u, place, f64::NAN),
        2 => with_number(u, place, f64::INFINITY),
        3 => with_number(u, place, 1e200),
        // 2^-1074
        4 => with_number(u, place, 5e-324),
        5 => u.scale(1e-13),
        6 => with_number(u, place, -0.0),
        _ => u.scale(1e160),
    }
}

// One link in sixteen is spoilt: one more draw decides that, and the next one how and where.
fn damaged(u: Su3, rng: &mut Rng) -> Su3 {
    if rng.next_u64() >> 60 != 0 {
        return u;
    }
    spoilt(u, rng.next_u64())
}

// The link of a direction at a site.
pub fn link(kind: Kind, mu: u64, site: u64) -> Su3 {
    let mut rng = Rng::stream(SEED, 0, mu, site);
    let u = matrix(Set::Raw, &mut rng);
    match kind {
        Kind::Cold => Su3::IDENTITY,
        Kind::Raw => u,
        Kind::Group => u.reunitarize(),
        Kind::Smooth => (Su3::IDENTITY + u.scale(0.1)).reunitarize(),
        Kind::Damaged => damaged(u.reunitarize(), &mut rng),
        // 1.25 * 2^127
        Kind::Huge => u.scale(212676479325586539664609129644855132160.0),
        Kind::Units => matrix(Set::Units, &mut Rng::stream(SEED, 2, mu, site)),
    }
}
