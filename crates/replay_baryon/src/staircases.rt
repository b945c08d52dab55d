use anyhow::{Error, Result};
use sample::hash::Fnv;

// A staircase has at most 96 steps, 32 along each axis; a step is a byte.

// Adds a staircase to the hash: its count, and then its steps.
fn with_staircase(h: Fnv, d: [i32; 3]) -> Result<Fnv> {
    let mut codes = [0u8; 96];
    let count = baryon::staircase(d, &mut codes).map_err(Error::msg)?;
    Ok(h.add(count).add(&codes[..count]))
}

// Every offset from -32 to 32 along each axis, z fastest: the numbers are what is tried.
fn over_all() -> Result<Fnv> {
    let mut h = Fnv::EMPTY;
    for x in -32..=32 {
        for y in -32..=32 {
            for z in -32..=32 {
                h = with_staircase(h, [x, y, z])?;
            }
        }
    }
    Ok(h)
}

// A staircase step by step.
fn line(rt: &impl Print, d: [i32; 3]) -> Result<()> {
    let mut codes = [0u8; 96];
    let count = baryon::staircase(d, &mut codes).map_err(Error::msg)?;
    let [x, y, z] = d;
    print!(rt; "staircase {x} {y} {z} {count}")?;
    for code in &codes[..count] {
        print!(rt; " {code}")?;
    }
    println!(rt)?;
    Ok(())
}

pub fn lines(rt: &impl Print) -> Result<()> {
    println!(rt; "staircases {}", over_all()?)?;
    let offsets = [
        [0, 0, 0],
        [1, 1, 0],
        [2, 1, 0],
        [0, 0, -2],
        [0, 5, 1],
        [2, 3, 1],
        [3, 1, 2],
    ];
    for d in offsets {
        line(rt, d)?;
    }
    Ok(())
}
