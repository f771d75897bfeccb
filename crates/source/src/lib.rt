// The random numbers of the sources (document 01, module 2), after source.rs: Vigna's xorshift64*,
// with the state passed and handed back by value.
#![tactic(auto)]

ghost use Rattle.std.specs.Prelude.{◌≡◌, ◌*◌, ◌%◌, ◌^◌};
ghost use Rattle.source.specs.Random.{new_of, next_u64_of, next_f64_of};

#[derive(Clone, Copy)]
pub struct Rng64 {
    pub state: u64,
}

// A drawn number, and the generator to draw the next one from.
#[derive(Clone, Copy)]
pub struct Drawn<T> {
    pub rng: Rng64,
    pub value: T,
}

// The low 64 bits of the product.
pub fn wrapping_mul(a: u64, b: u64) -> u64
    ensures { result ≡ a * b % 2 ^ 64 }
{
    a.wrapping_mul(b)
}

impl Rng64 {
    // The generator of a seed. Seed 0, which would draw only zeros, becomes another one.
    #[tactic(auto, unfolding(crate::specs::Random::new_of))]
    pub fn new(seed: u64) -> Self
        ensures { result ≡ new_of seed }
    {
        if seed == 0 {
            return Self {
                state: 0x853c_49e6_748f_ea9b,
            };
        }
        Self { state: seed }
    }

    // The next 64 bits.
    #[tactic(auto, unfolding(crate::specs::Random::next_u64_of, crate::specs::Random::next_state, crate::specs::Random::scrambled))]
    pub fn next_u64(self) -> Drawn<u64>
        ensures { result ≡ next_u64_of self }
    {
        let x = self.state;
        let a = x ^ (x >> 12);
        let b = a ^ (a << 25);
        let c = b ^ (b >> 27);
        Drawn {
            rng: Rng64 { state: c },
            value: wrapping_mul(c, 0x2545_f491_4f6c_dd1d),
        }
    }

    // The highest 53 of the next 64 bits, times 2^-53: from 0 up and below 1.
    #[tactic(auto, unfolding(crate::specs::Random::next_f64_of, crate::specs::Random::unit_interval))]
    pub fn next_f64(self) -> Drawn<f64>
        ensures { result ≡ next_f64_of self }
    {
        let drawn = self.next_u64();
        let rng = drawn.rng;
        let bits = drawn.value;
        Drawn {
            rng,
            value: (bits >> 11) as f64 * 1.1102230246251565e-16,
        }
    }
}
