#![tactic(auto, unfolding(crate::specs::Offsets::bad_offset, crate::specs::Offsets::bad_offsets, crate::specs::Staircase::steps_to))]

ghost use Rattle.std.specs.Prelude.{◌≡◌, ◌↔◌, false, IsSome, IfSome};
ghost use Rattle.stairs.specs.Staircase.{steps_to};
ghost use Rattle.stairs.specs.Offsets.{bad_offsets};

// An offset x, y, z in reach.
#[derive(Clone, Copy, Debug, PartialEq, Eq)]
pub struct Offset {
    pub d: [i32; 3],
    ghost reach: { bad_offsets d ≡ false },
}

// Whether one of an offset's numbers is below −32 or above 32.
fn bad_offsets(d: [i32; 3]) -> bool
    ensures { result ≡ bad_offsets d }
{
    d.iter().any(|x| !(-32..=32).contains(x))
}

impl Offset {
    // None where it is out of reach.
    pub fn new(d: [i32; 3]) -> Option<Self>
        ensures reach { IsSome result ↔ (bad_offsets d ≡ false) }
        ensures offset { IfSome result (λ o. o.d ≡ d) }
    {
        if bad_offsets(d) {
            None
        } else {
            Some(Self { d })
        }
    }

    // How many steps lead to it.
    pub fn steps(self) -> usize
        ensures { result ≡ steps_to self.d }
    {
        let [x, y, z] = self.d.map(i32::unsigned_abs);
        x as usize + y as usize + z as usize
    }
}
