//! The second records of transfers, which their threads keep for later.

use adg_base::number::{Obj, Txn};

/// The second record of a transfer that is not written yet.
#[derive(Clone, Copy, Debug, PartialEq, Eq)]
pub struct Second {
    pub txn: Txn,
    pub table: Obj,
    pub from: u8,
    pub to: u8,
    /// What the row that gets has after the transfer.
    pub balance: i64,
    pub aborts: bool,
}

/// What each of the three threads keeps.
#[derive(Clone, Copy, Debug, PartialEq, Eq)]
pub struct Kept {
    pub one: Option<Second>,
    pub two: Option<Second>,
    pub three: Option<Second>,
}

impl Kept {
    ghost use Rattle.std.specs.Prelude.{◌≡◌};
    ghost use Rattle.feed_gen.specs.Transfers.{nothing_kept, kept_by, with_kept};

    /// Nothing is kept.
    pub fn new() -> Kept
        ensures { result ≡ nothing_kept }
    {
        Kept {
            one: None,
            two: None,
            three: None,
        }
    }

    /// Keeps a record of a thread, and hands out the one that the thread had kept.
    pub fn replace(&mut self, thread: u8, second: Second) -> Option<Second>
        ensures earlier { result ≡ kept_by thread self.old }
        ensures kept { self.new ≡ with_kept thread second self.old }
    {
        match thread {
            1 => self.one.replace(second),
            2 => self.two.replace(second),
            _ => self.three.replace(second),
        }
    }
}
