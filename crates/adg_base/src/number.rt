ghost use Rattle.std.specs.Prelude.{◌≡◌, ◌<◌, ◌≤◌, ◌^◌, ◌↔◌, IsSome, IfSome};

use std::marker::Model;

/// A system change number: it orders the changes of a database. A record has one from 1 on; 0
/// stands for the moment before everything.
#[derive(Clone, Copy, Debug, PartialEq, Eq, PartialOrd, Ord, Hash)]
pub struct Scn {
    number: u64,
}

impl Model for Scn {
    ghost use Rattle.std.specs.Prelude.{ℕ, ◌<◌, ◌^◌};

    ghost Value = { ℕ };

    ghost view = { λ s. s.number };

    ghost invariant = { λ s. s.number < 2 ^ 48 };

    ghost inverse = { λ n. record { number = n } };
}

impl Scn {
    /// The moment before everything.
    pub const ZERO: Scn = Scn { number: 0 };

    /// None at `2^48` or more.
    pub fn new(number: u64) -> Option<Scn>
        ensures range { IsSome result ↔ (number < 2 ^ 48) }
        ensures value { IfSome result (λ scn. scn ≡ number) }
    {
        if number < 1 << 48 {
            Some(Scn { number })
        } else {
            None
        }
    }

    /// The number.
    pub fn get(self) -> u64
        ensures value { result ≡ self }
        ensures range { result < 2 ^ 48 }
    {
        self.number
    }
}

/// The name of a transaction, a number from 1.
#[derive(Clone, Copy, Debug, PartialEq, Eq, PartialOrd, Ord, Hash)]
pub struct Txn {
    number: u64,
}

impl Model for Txn {
    ghost use Rattle.std.specs.Prelude.{ℕ, ◌≤◌};

    ghost Value = { ℕ };

    ghost view = { λ t. t.number };

    ghost invariant = { λ t. 1 ≤ t.number };

    ghost inverse = { λ n. record { number = n } };
}

impl Txn {
    /// None at 0.
    pub fn new(number: u64) -> Option<Txn>
        ensures range { IsSome result ↔ (1 ≤ number) }
        ensures value { IfSome result (λ txn. txn ≡ number) }
    {
        if number >= 1 {
            Some(Txn { number })
        } else {
            None
        }
    }

    /// The number.
    pub fn get(self) -> u64
        ensures value { result ≡ self }
        ensures range { (1 ≤ result) × (result < 2 ^ 64) }
    {
        self.number
    }
}

/// The number of an object, a table, from 1. It is printed as `tN`.
#[derive(Clone, Copy, Debug, PartialEq, Eq, PartialOrd, Ord, Hash)]
pub struct Obj {
    number: u16,
}

impl Model for Obj {
    ghost use Rattle.std.specs.Prelude.{ℕ, ◌≤◌};

    ghost Value = { ℕ };

    ghost view = { λ o. o.number };

    ghost invariant = { λ o. 1 ≤ o.number };

    ghost inverse = { λ n. record { number = n } };
}

impl Obj {
    /// None at 0.
    pub fn new(number: u16) -> Option<Obj>
        ensures range { IsSome result ↔ (1 ≤ number) }
        ensures value { IfSome result (λ obj. obj ≡ number) }
    {
        if number >= 1 {
            Some(Obj { number })
        } else {
            None
        }
    }

    /// The number.
    pub fn get(self) -> u16
        ensures value { result ≡ self }
        ensures range { (1 ≤ result) × (result < 2 ^ 16) }
    {
        self.number
    }
}

/// The number of an extent of an object: extent `e` is the 16 blocks from `16 * e` on.
#[derive(Clone, Copy, Debug, PartialEq, Eq, PartialOrd, Ord, Hash)]
pub struct Extent {
    number: u16,
}

impl Model for Extent {
    ghost use Rattle.std.specs.Prelude.{ℕ};

    ghost Value = { ℕ };

    ghost view = { λ e. e.number };

    ghost inverse = { λ n. record { number = n } };
}

impl Extent {
    /// The extent of this number.
    pub fn new(number: u16) -> Extent
        ensures { result ≡ number }
    {
        Extent { number }
    }

    /// The number.
    pub fn get(self) -> u16
        ensures value { result ≡ self }
        ensures range { result < 2 ^ 16 }
    {
        self.number
    }
}

/// A position in the merged log, from 0.
#[derive(Clone, Copy, Debug, PartialEq, Eq, PartialOrd, Ord, Hash)]
pub struct Pos {
    number: u64,
}

impl Model for Pos {
    ghost use Rattle.std.specs.Prelude.{ℕ};

    ghost Value = { ℕ };

    ghost view = { λ p. p.number };

    ghost inverse = { λ n. record { number = n } };
}

impl Pos {
    /// The position of this number.
    pub fn new(number: u64) -> Pos
        ensures { result ≡ number }
    {
        Pos { number }
    }

    /// The number.
    pub fn get(self) -> u64
        ensures value { result ≡ self }
        ensures range { result < 2 ^ 64 }
    {
        self.number
    }
}
