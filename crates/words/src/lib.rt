// The wrapping product and the rotation of 64-bit words, for C and the crates above.
#![tactic(auto)]

ghost use Rattle.std.specs.Prelude.{◌≡◌, ◌*◌, ◌%◌, ◌^◌};
ghost use Rattle.words.specs.Words.{rotl};

// a * b modulo 2^64. By the law the product from halves is proved as well: an edit writes it so.
#[tactic(auto, using(crate::proofs::Laws::by_halves))]
pub fn wrapping_mul(a: u64, b: u64) -> u64
    ensures { result ≡ (a * b) % 2 ^ 64 }
{
    a.wrapping_mul(b)
}

// x rotated left by k places, for any k: as many as k leaves on division by 64. The second law is for the same by two
// shifts, which an edit writes.
#[tactic(auto, using(crate::proofs::Laws::rotated, crate::proofs::Laws::rotl_by_shifts))]
pub fn rotate_left(x: u64, k: u32) -> u64
    ensures { result ≡ rotl x (k % 64) }
{
    x.rotate_left(k)
}
