//! Numbers that are drawn from a seed.
ghost use Rattle.std.specs.Prelude.{◌<◌, ◌^◌};

/// A linear congruential generator on 64 bits, of which the high half is taken. Its constants are those of
/// Knuth's MMIX (The Art of Computer Programming, volume 2, section 3.3.4).
#[derive(Drop)]
pub struct Draw {
    state: u64,
}

impl Draw {
    pub fn new(seed: u64) -> Draw {
        Draw { state: seed }
    }

    /// The next number, below a bound that is below 2^32.
    pub fn below(&mut self, bound: u64) -> u64
        ensures { 0 < bound → bound < 2 ^ 32 → result < bound }
    {
        self.state = self
            .state
            .wrapping_mul(6_364_136_223_846_793_005)
            .wrapping_add(1_442_695_040_888_963_407);
        (self.state >> 32).wrapping_mul(bound) >> 32
    }
}
