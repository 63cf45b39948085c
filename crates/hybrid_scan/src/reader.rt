ghost use Rattle.std.specs.Prelude.{◌≡◌, ℕ, ◌+◌, if◌then◌else◌, length, is_some, Option, List, IfOk};
ghost use Rattle.adg_base.specs.Address.{Place, block_places};
ghost use Rattle.adg_base.specs.declared.value.Value.{Value as Datum};
ghost use Rattle.hybrid_scan.specs.Reader.{placed, StillCovers};

use adg_base::address::Addr;
use adg_base::memory::Memory;
use adg_base::number::{Obj, Scn};
use adg_base::placed::BlockRows;
use adg_base::row::Row;
use adg_base::steps::Steps;
use std::sync::ledger::Ledger;

/// A store of rows, read block by block or address by address. Each row that it hands out costs a step.
pub trait BlockReader {
    /// The SCNs that its store covers.
    ghost covers: { Self → ℕ → Type 0 };

    /// The committed rows at each of them.
    ghost committed: { Self → ℕ → Place → Option (List Datum) };

    /// The rows of a block with their addresses, in the order of their slots.
    fn rows<L: Ledger>(
        &mut self,
        obj: Obj,
        block: u16,
        q: Scn,
        steps: &mut Steps<L>,
    ) -> Result<BlockRows, Memory>
        requires { covers self.old q }
        ensures rows { IfOk result (λ rows. rows ≡ placed (committed self.old q) (block_places obj block)) }
        ensures cost { IfOk result (λ rows. steps.new ≡ steps.old + length rows) }
        ensures still { StillCovers (covers self.old) (covers self.new) (committed self.old) (committed self.new) };

    /// The row at an address.
    fn row<L: Ledger>(
        &mut self,
        addr: Addr,
        q: Scn,
        steps: &mut Steps<L>,
    ) -> Result<Option<Row>, Memory>
        requires { covers self.old q }
        ensures row { IfOk result (λ row. row ≡ committed self.old q addr) }
        ensures cost { IfOk result (λ row. steps.new ≡ steps.old + (if is_some row then 1 else 0)) }
        ensures still { StillCovers (covers self.old) (covers self.new) (committed self.old) (committed self.new) };
}
