ghost use Rattle.std.specs.Prelude.{◌≡◌};
ghost use Rattle.row_blocks.specs.Settled.{unsettled};

use adg_base::number::Pos;

/// How many of the versions at an address, from the earliest on, are settled: the transaction of each
/// has ended, at a position up to `upto`. So none of them can be the latest where a later version's
/// transaction committed behind that position.
#[derive(Clone, Copy, Debug, PartialEq, Eq)]
pub struct Settled {
    pub count: usize,
    pub upto: Pos,
}

impl Settled {
    /// No version is.
    pub(crate) fn none() -> Settled
        ensures { result ≡ unsettled }
    {
        Settled {
            count: 0,
            upto: Pos::new(0),
        }
    }
}
