//! The random source.

ghost use Rattle.std.specs.Prelude.{◌≡◌, ◌<◌};
ghost use Rattle.feed_gen.specs.Draws.{next, below};

use std::marker::Model;

/// A linear congruential generator of 64 bits, whose high bits are drawn from.
#[derive(Clone, Copy, Debug, PartialEq, Eq)]
pub struct RandomSource {
    state: u64,
}

impl Model for RandomSource {
    ghost use Rattle.std.specs.Prelude.{ℕ};

    ghost Value = { ℕ };

    ghost view = { λ s. s.state };

    ghost inverse = { λ n. record { state = n } };
}

impl RandomSource {
    /// The source that begins with a seed.
    pub fn new(seed: u64) -> RandomSource
        ensures { result ≡ seed }
    {
        RandomSource { state: seed }
    }

    /// Goes on by one draw.
    #[tactic(auto, unfolding(crate::specs::Draws::next))]
    fn step(&mut self)
        ensures { self.new ≡ next self.old }
    {
        self.state = self
            .state
            .wrapping_mul(6_364_136_223_846_793_005)
            .wrapping_add(1_442_695_040_888_963_407);
    }

    /// Draws a number below `bound`.
    #[tactic(auto, unfolding(crate::specs::Draws::below))]
    pub fn below(&mut self, bound: u8) -> u8
        requires { 0 < bound }
        ensures next { self.new ≡ next self.old }
        ensures value { result ≡ below bound (next self.old) }
        ensures range { result < bound }
    {
        self.step();
        ((self.state >> 33) % u64::from(bound)) as u8
    }
}
