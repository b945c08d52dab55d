// xoshiro256++ of Blackman and Vigna, seeded through splitmix64: one stream for each seed, pass,
// direction and site.
#![tactic(auto)]

ghost use Rattle.std.specs.Prelude.{◌≡◌};
ghost use Rattle.rng.specs.Splitmix.{splitmix_of};
ghost use Rattle.rng.specs.Stream.{stream_of};
ghost use Rattle.rng.specs.Uniform.{uniform_draw_of, uniform_of};
ghost use Rattle.rng.specs.Xoshiro.{draw_of};

// Moves a state of splitmix64 on by one step, and gives the word of that step.
#[tactic(auto, unfolding(crate::specs::Splitmix::splitmix_of, crate::specs::Splitmix::mix_of))]
pub fn splitmix(x: &mut u64) -> u64
    ensures word { result ≡ (splitmix_of x.old).out }
    ensures moved { x.new ≡ (splitmix_of x.old).state }
{
    *x = x.wrapping_add(0x9e37_79b9_7f4a_7c15);
    let mut z = *x;
    z = words::wrapping_mul(z ^ (z >> 30), 0xbf58_476d_1ce4_e5b9);
    z = words::wrapping_mul(z ^ (z >> 27), 0x94d0_49bb_1331_11eb);
    z ^ (z >> 31)
}

#[derive(Clone, Copy, Debug, PartialEq, Eq)]
pub struct Rng {
    pub s: [u64; 4],
}

// The top 53 bits of a drawn word over 2^53.
#[tactic(auto, using(crate::proofs::Laws::uniform_computed))]
pub fn uniform_of(raw: u64) -> f64
    ensures { result ≡ uniform_of raw }
{
    (raw >> 11) as f64 * (1.0 / (1u64 << 53) as f64)
}

impl Rng {
    pub fn stream(seed: u64, pass: u64, mu: u64, site: u64) -> Self
        ensures { result ≡ stream_of seed pass mu site }
    {
        let mut x = seed;
        let mut key = splitmix(&mut x);
        key ^= words::wrapping_mul(pass, 0xd1b5_4a32_d192_ed03);
        key ^= words::wrapping_mul(mu, 0xabc9_8388_fb8f_ac03);
        key ^= words::wrapping_mul(site, 0x8cb9_2ba7_2f3d_8dd7);
        Self {
            s: std::array::from_fn(|_| splitmix(&mut key)),
        }
    }

    #[tactic(auto, using(crate::proofs::Seeded::four), unfolding(crate::specs::Xoshiro::draw_of, crate::specs::Xoshiro::result_of, crate::specs::Xoshiro::next_of))]
    pub fn next_u64(&mut self) -> u64
        ensures word { result ≡ (draw_of self.old).value }
        ensures moved { self.new ≡ (draw_of self.old).rng }
    {
        let s = &mut self.s;
        let result = words::rotate_left(s[0].wrapping_add(s[3]), 23).wrapping_add(s[0]);
        let t = s[1] << 17;
        s[2] ^= s[0];
        s[3] ^= s[1];
        s[1] ^= s[2];
        s[0] ^= s[3];
        s[2] ^= t;
        s[3] = words::rotate_left(s[3], 45);
        result
    }

    #[tactic(auto, unfolding(crate::specs::Uniform::uniform_draw_of))]
    pub fn uniform(&mut self) -> f64
        ensures number { result ≡ (uniform_draw_of self.old).value }
        ensures moved { self.new ≡ (uniform_draw_of self.old).rng }
    {
        uniform_of(self.next_u64())
    }
}
