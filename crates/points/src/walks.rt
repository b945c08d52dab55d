// A path of five steps, forward and back, in a field whose numbers are whole: handed over as an array
// of structs, and as bytes.
use crate::Tally;
use anyhow::{Error, Result};
use baryon::Step;
use mat::Su3;
use rows::Refusal;

const EXTENTS: [usize; 4] = [2, 4, 2, 2];

// The product, worked out apart in whole numbers, and the same by the Rust's path: the link of x at
// site 0, of y at 2, the adjoints of those of x at 8 and of t at 9, and the link of z at 9. No sum on the
// way is as large as 2^53, so that none is rounded and their order doesn't matter.
const PRODUCT: [f64; 18] = [
    161.0, -7219.0, 205.0, 7511.0, 457.0, 6667.0, -71154.0, 22594.0, 72290.0, -31966.0, 54794.0,
    -32134.0, 5523.0, -3623.0, -5567.0, 3853.0, -5139.0, 3529.0,
];

// Number k of the list is k mod 13, less 6.
fn fill(links: &mut [f64; 2304]) {
    for (k, x) in links.iter_mut().enumerate() {
        *x = f64::from((k % 13) as u32) - 6.0;
    }
}

fn compare(t: &mut Tally, got: Result<(Su3, usize), Refusal>) -> Result<()> {
    t.row("the path", got, None)?;
    let (u, site) = got.map_err(Error::msg)?;
    t.matrix("path", u, &PRODUCT)?;
    t.whole("path ends at", site as u64, 25)
}

// From site 0 by +x, +y, -x, -t and +z. A byte is twice the axis, and 1 more where the step goes forward.
pub fn points(t: &mut Tally) -> Result<()> {
    let mut links = [0.0; 2304];
    fill(&mut links);
    let steps = [(1, true), (2, true), (1, false), (0, false), (3, true)];
    let steps = steps.map(|(axis, forward)| Step { axis, forward });
    compare(t, baryon::path(EXTENTS, 0, &links, &steps))?;
    compare(t, baryon::path(EXTENTS, 0, &links, &[3u8, 5, 2, 0, 7]))
}
