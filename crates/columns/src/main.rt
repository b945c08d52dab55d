// The cabinet's program: four bytes on standard input are the extents t, x, y, z; the measurements on the
// cold field go to standard output, a name and a value to a line.
#![tactic(auto)]

const STDIN: i32 = 0;

// Of an input longer than the buffer the rest is read too, so that who writes it does not find it
// closed. Nothing says that an input ends, and a proved loop has to: no run uses up these turns.
fn skip_rest() {
    let mut rest = io::buffer();
    for _ in 0..u64::MAX {
        if io::read_full(STDIN, &mut rest) == 0 {
            break;
        }
    }
}

fn main(rt: HostRuntime) {
    let mut input = io::buffer();
    let n = io::read_full(STDIN, &mut input);
    skip_rest();
    let text = measurements::columns(&input[..n]);
    // Bytes as they are: `ascii` says why the text is no string. There is no line for one that cannot be written.
    let _ = rt.write_all(text.as_slice());
}
