// Lines of a name, a space and a number, appended to a text of bytes that has a fixed room. Not by `write!` to an
// `ArrayString`: what is written is promised of an `Ok`, and no promise says that a write with room is one.
#![tactic(auto)]

ghost use Rattle.std.specs.Prelude.{◌+◌, ◌≤◌, true, ◌≡◌, ◌++◌, length};
ghost use Rattle.std.specs.Float.Ieee.Scale.{finite};
ghost use Rattle.arrayvec.specs.ArrayVec.{array_vec_len};
ghost use Rattle.ascii.specs.Lines.{decimal_text, hex_text, number_text, text_line};

use arrayvec::ArrayVec;

// Bytes as they are.
fn put<const N: usize>(text: &mut ArrayVec<u8, N>, bytes: &[u8])
    requires { array_vec_len text.old + length bytes.now ≤ N }
    ensures { text.new.items ≡ text.old.items ++ bytes.now }
{
    text.try_extend_from_slice(bytes).unwrap();
}

#[tactic(auto, using(crate::proofs::Laws::line_after, crate::proofs::Laws::length_after))]
fn line<const N: usize>(text: &mut ArrayVec<u8, N>, name: &str, value: &[u8])
    requires { array_vec_len text.old + length name.now + length value.now + 2 ≤ N }
    ensures items { text.new.items ≡ text.old.items ++ text_line name.now value.now }
    ensures len { array_vec_len text.new ≡ array_vec_len text.old + length name.now + length value.now + 2 }
{
    put(text, name.as_bytes());
    put(text, b" ");
    put(text, value);
    put(text, b"\n");
}

// A count in decimal.
#[tactic(auto, using(crate::proofs::Counted::twenty))]
pub fn count_line<const N: usize>(text: &mut ArrayVec<u8, N>, name: &str, n: u64)
    requires { array_vec_len text.old + length name.now + 22 ≤ N }
    ensures items { text.new.items ≡ text.old.items ++ text_line name.now (decimal_text n) }
    ensures upper_bound { array_vec_len text.new ≤ array_vec_len text.old + length name.now + 22 }
{
    let mut digits = [0u8; 20];
    let k = io::decimal(n, &mut digits);
    line(text, name, &digits[..k]);
}

// A word in 16 hexadecimal digits.
#[tactic(auto, using(crate::proofs::Counted::sixteen))]
fn word_line<const N: usize>(text: &mut ArrayVec<u8, N>, name: &str, n: u64)
    requires { array_vec_len text.old + length name.now + 18 ≤ N }
    ensures items { text.new.items ≡ text.old.items ++ text_line name.now (hex_text n) }
    ensures len { array_vec_len text.new ≡ array_vec_len text.old + length name.now + 18 }
{
    let mut digits = [0u8; 16];
    let k = io::hex(n, 16, &mut digits);
    line(text, name, &digits[..k]);
}

// A finite f64 by its bits.
#[tactic(auto, using(crate::proofs::Counted::no_nan), unfolding(crate::specs::Lines::number_text))]
pub fn number_line<const N: usize>(text: &mut ArrayVec<u8, N>, name: &str, x: f64)
    requires room { array_vec_len text.old + length name.now + 18 ≤ N }
    requires finite { finite x ≡ true }
    ensures items { text.new.items ≡ text.old.items ++ text_line name.now (number_text x) }
    ensures len { array_vec_len text.new ≡ array_vec_len text.old + length name.now + 18 }
{
    word_line(text, name, f64::to_bits(x));
}
