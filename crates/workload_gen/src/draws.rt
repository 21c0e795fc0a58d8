//! The generator.
ghost use Rattle.std.specs.Prelude.{◌≡◌, ◌<◌};
ghost use Rattle.workload_gen.specs.Draws.{draw, state_after};

const MULTIPLIER: u64 = 6_364_136_223_846_793_005;

const INCREMENT: u64 = 1_442_695_040_888_963_407;

/// A linear congruential generator modulo 2^64, with the constants of Knuth's MMIX.
#[derive(Drop)]
pub struct Generator {
    pub state: u64,
}

impl Generator {
    /// The next draw below the bound.
    pub fn below(&mut self, bound: u64) -> u64
        requires { 0 < bound }
        ensures drawn { result ≡ draw self.old.state 0 bound }
        ensures small { result < bound }
        ensures state { self.new.state ≡ state_after self.old.state 1 }
    {
        self.state = self.state.wrapping_mul(MULTIPLIER).wrapping_add(INCREMENT);
        (self.state >> 33) % bound
    }
}
