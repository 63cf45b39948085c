ghost use Rattle.std.specs.Prelude.{◌≡◌, ◌≤◌};

use std::marker::Model;

/// The number of workers of a standby, from 1 to 8.
#[derive(Clone, Copy, Debug, PartialEq, Eq)]
pub struct Workers {
    number: u8,
}

impl Model for Workers {
    ghost use Rattle.std.specs.Prelude.{ℕ, ◌≤◌};

    ghost Value = { ℕ };

    ghost view = { λ w. w.number };

    ghost invariant = { λ w. (1 ≤ w.number) × (w.number ≤ 8) };

    ghost inverse = { λ n. record { number = n } };
}

impl Workers {
    /// So many workers. The number is one that an accepted line of words names.
    pub fn new(number: u8) -> Workers
        requires least { 1 ≤ number }
        requires most { number ≤ 8 }
        ensures { result ≡ number }
    {
        Workers { number }
    }

    /// How many there are.
    pub fn get(self) -> u8
        ensures value { result ≡ self }
        ensures least { 1 ≤ result }
        ensures most { result ≤ 8 }
    {
        self.number
    }
}
