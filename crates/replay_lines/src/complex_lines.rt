use anyhow::Result;
use complex::C64;
use sample::hash::{Fnv, Hashed};

// Number k of the sixteen, over and over. No table: a constant array is copied at each use.
fn number(k: usize) -> f64 {
    match k % 16 {
        0 => 0.0,
        1 => -0.0,
        2 => 1.0,
        3 => -1.0,
        4 => 0.1,
        5 => -0.3,
        6 => 1e16,
        // The first subnormal, and the last one.
        7 => 5e-324,
        8 => -2.225073858507201e-308,
        9 => f64::MIN_POSITIVE,
        10 => -1.5e-162,
        11 => 1e200,
        12 => f64::MIN,
        13 => f64::INFINITY,
        14 => f64::NEG_INFINITY,
        _ => f64::NAN,
    }
}

// A line for a call: the hash of its answers to every four of the numbers, picked by four hexadecimal digits.
fn line<T: Hashed, F: Fn(C64, C64) -> T>(rt: &impl Print, name: &str, call: F) -> Result<()>
    requires { F.IsAlwaysCallable call }
{
    let h = Fnv::over(65536, |i| {
        let a = C64::new(number(i / 4096), number(i / 256));
        let b = C64::new(number(i / 16), number(i));
        call(a, b)
    });
    println!(rt; "complex {name} {h}")?;
    Ok(())
}

fn constants_line(rt: &impl Print) -> Result<()> {
    let h = Fnv::of(C64::ZERO).add(C64::ONE).add(C64::I);
    println!(rt; "complex constants {h}")?;
    Ok(())
}

// A line for the constants, and one for each call on complex numbers.
pub fn lines(rt: &impl Print) -> Result<()> {
    constants_line(rt)?;
    line(rt, "new", |a, _| C64::new(a.re, a.im))?;
    line(rt, "conj", |a, _| a.conj())?;
    line(rt, "norm_sqr", |a, _| a.norm_sqr())?;
    line(rt, "scale", |a, b| a.scale(b.re))?;
    line(rt, "add", |a, b| a + b)?;
    line(rt, "sub", |a, b| a - b)?;
    line(rt, "mul", |a, b| a * b)?;
    line(rt, "neg", |a, _| -a)
}
