// The link check, on a field that fits.
#![tactic(auto)]

ghost use Rattle.std.specs.Prelude.{◌≡◌, ◌+◌, ◌*◌, ◌≤◌, length};
ghost use Rattle.std.specs.List.{list_all};
ghost use Rattle.geometry.specs.Radix.{volume};
ghost use Rattle.gauge.specs.Field.{link_of};
ghost use Rattle.sound.specs.Sound.{sound_number, unsound_links, Listed};

use gauge::Su3Lattice;

// Whether a number is finite and from -1 to 1. No infinity and no NaN passes the comparisons.
fn sound_number(x: f64) -> bool
    ensures { result ≡ sound_number x }
{
    x >= -1.0 && x <= 1.0
}

fn all_sound(numbers: &[f64]) -> bool
    ensures { result ≡ list_all sound_number numbers.now }
{
    numbers.iter().all(|x| sound_number(*x))
}

// Writes the numbers of the unsound links to the front of a list, and gives their count.
pub fn list_unsound(lattice: &Su3Lattice, found: &mut [u32]) -> usize
    requires { 4 * volume lattice.now.extents.d ≤ length found.old }
    ensures listed { Listed (unsound_links lattice.now.extents.d (link_of lattice.now.extents.d lattice.now.links.now)) found.old result found.new }
    ensures few { result ≤ 4 * volume lattice.now.extents.d }
{
    let mut count = 0;
    for (k, numbers) in lattice.links.chunks_exact(18).enumerate() {
        if !all_sound(numbers) {
            found[count] = k as u32;
            count += 1;
        }
    }
    count
}
