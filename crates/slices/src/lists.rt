// Lists of numbers, cleared and copied.
ghost use Rattle.std.specs.Prelude.{◌≡◌, length, replicate};
ghost use Rattle.complex.specs.Rounded.{fzero};

// Sets a list to +0.
pub fn clear(l: &mut [f64])
    ensures { l.new ≡ replicate (length l.old) fzero }
{
    l.fill(0.0);
}

// Copies a list over one of the same length. Not by `copy_from_slice`, which calls `memmove`: of C's library an archive
// asks for `memcpy` and `memset` alone.
#[tactic(auto, unfolding(folds::specs::Folds::fill))]
pub fn copy(to: &mut [f64], from: &[f64])
    requires { length to.old ≡ length from.now }
    ensures { to.new ≡ from.now }
{
    for (i, x) in to.iter_mut().enumerate() {
        *x = from[i];
    }
}
