// The program's text for each of many inputs, after the input itself: every one that is accepted, and
// refused ones. How the stored lines were made is in docs/DECISIONS.md.
#![tactic(auto)]

use sample::output::Output;
use std::io;

// All extents t, x, y, z with at most 64 sites, t fastest. The inputs stand in lists, each of its length.
const ACCEPTED: [[u8; 4]; 19] = [
    [2, 2, 2, 2],
    [4, 2, 2, 2],
    [6, 2, 2, 2],
    [8, 2, 2, 2],
    [2, 4, 2, 2],
    [4, 4, 2, 2],
    [2, 6, 2, 2],
    [2, 8, 2, 2],
    [2, 2, 4, 2],
    [4, 2, 4, 2],
    [2, 4, 4, 2],
    [2, 2, 6, 2],
    [2, 2, 8, 2],
    [2, 2, 2, 4],
    [4, 2, 2, 4],
    [2, 4, 2, 4],
    [2, 2, 4, 4],
    [2, 2, 2, 6],
    [2, 2, 2, 8],
];

// Too many sites; then an extent that is odd, too small or too large, at each place.
const REFUSED: [[u8; 4]; 20] = [
    [4, 4, 4, 4],
    [16, 2, 2, 4],
    [10, 2, 2, 2],
    [2, 4, 4, 4],
    [16, 16, 16, 16],
    [3, 2, 2, 2],
    [0, 2, 2, 2],
    [18, 2, 2, 2],
    [2, 2, 2, 17],
    [255, 255, 255, 255],
    [3, 3, 3, 3],
    [1, 2, 2, 2],
    [2, 3, 2, 2],
    [2, 2, 18, 2],
    [2, 2, 2, 0],
    [0, 0, 0, 0],
    [130, 2, 2, 2],
    [15, 16, 16, 16],
    [16, 16, 16, 18],
    [50, 50, 50, 50],
];

fn case(rt: &impl Print, input: &[u8]) -> io::Result<()> {
    print!(rt; "input:")?;
    for byte in input {
        print!(rt; " {byte}")?;
    }
    println!(rt)?;
    let text = measurements::columns(input);
    // Bytes as they are: `ascii` says why the text is no string.
    rt.write_all(text.as_slice())
}

fn cases(rt: &impl Print, inputs: &[[u8; 4]]) -> io::Result<()> {
    for input in inputs {
        case(rt, input)?;
    }
    Ok(())
}

// Not four bytes: with four that fit, and where an extent is bad too.
fn miscounted(rt: &impl Print) -> io::Result<()> {
    let twos = [2u8; 8];
    for count in [0, 1, 2, 3, 5] {
        case(rt, &twos[..count])?;
    }
    case(rt, &[2, 2, 2, 2, 0])?;
    case(rt, &[2, 2, 2, 2, 10])?;
    case(rt, &[3, 2, 2, 2, 2])?;
    case(rt, &twos)?;
    case(rt, &[3])?;
    case(rt, &[3, 3, 3, 3, 3])
}

fn main(rt: HostRuntime) -> io::Result<()> {
    let rt = Output { rt };
    cases(&rt, &ACCEPTED)?;
    cases(&rt, &REFUSED)?;
    miscounted(&rt)
}
