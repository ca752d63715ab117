//! Numbers by Marsaglia's xorshift of 32 bits.

ghost use Rattle.std.specs.Prelude.{◌<◌};

/// Where the numbers are.
#[derive(Drop)]
pub struct Random {
    state: u32,
}

impl Random {
    /// The numbers of a seed.
    pub fn new(seed: u32) -> Random {
        Random {
            state: 2_463_534_242 ^ seed,
        }
    }

    /// A number below the bound.
    pub fn below(&mut self, bound: u32) -> u32
        requires { 0 < bound }
        ensures { result < bound }
    {
        let mut x = self.state;
        x ^= x << 13;
        x ^= x >> 17;
        x ^= x << 5;
        self.state = x;
        x % bound
    }
}
