//! What a transfer draws.

ghost use Rattle.std.specs.Prelude.{◌≡◌, ◌<◌, ◌≤◌, ◌+◌, ◌*◌};
ghost use Rattle.feed_gen.specs.Draws.{next, below, draws, drawn};
ghost use Rattle.feed_gen.specs.Bounds.{IsTransfer};

use crate::source::RandomSource;
use crate::table::{BRANCH_ROWS, BRANCHES, TABLES, table_of};
use adg_base::number::Obj;

/// A transfer between two rows of one branch of a table.
#[derive(Clone, Copy, Debug, PartialEq, Eq)]
pub struct Transfer {
    pub table: Obj,
    /// The row that gives.
    pub from: u8,
    /// The row that gets. It may be the one that gives.
    pub to: u8,
    pub amount: u8,
    /// Whether it is taken back and aborted.
    pub aborts: bool,
}

/// Draws a row of a branch.
fn row_of(source: &mut RandomSource, branch: u8) -> u8
    requires { branch < 5 }
    ensures row { result ≡ branch + 5 * below 20 (next source.old) }
    ensures source { source.new ≡ next source.old }
    ensures range { result < 100 }
{
    branch + BRANCHES * source.below(BRANCH_ROWS)
}

/// Draws a transfer.
pub fn draw(source: &mut RandomSource) -> Transfer
    ensures drawn { result ≡ drawn source.old }
    ensures source { source.new ≡ draws 6 source.old }
    ensures good { IsTransfer result }
{
    let table = 1 + source.below(TABLES);
    let branch = source.below(BRANCHES);
    let from = row_of(source, branch);
    let to = row_of(source, branch);
    let amount = source.below(100);
    let aborts = source.below(8) == 0;
    Transfer {
        table: table_of(table),
        from,
        to,
        amount,
        aborts,
    }
}
