ghost use Rattle.std.specs.Prelude.{◌≡◌, ◌+◌, ◌<◌, ◌^◌, ◌++◌, ◌∷◌, [], List, length, Option, Some, None, IfOk, OnOk};
ghost use Rattle.adg_base.specs.declared.value.Value.{Value as Datum};
ghost use Rattle.adg_base.specs.declared.command.Select.{Select as Query};

use adg_base::memory::Memory;
use adg_base::row::{Row, RowList};
use adg_base::value_ref::RowView;
use scan_eval::accumulator::Accumulator;
use std::alloc::Global;

/// Where the rows of a scan go, one after another.
pub trait RowSink {
    /// The rows that it has taken.
    ghost rows: { Self → List (List Datum) };

    /// The query that it answers, where it answers one.
    ghost query: { Self → Option Query };

    /// Takes a row, of which it copies what it needs.
    fn add<R: RowView>(&mut self, alloc: Global, row: &R) -> Result<(), Memory>
        requires { length (rows self.old) + 1 < 2 ^ 64 }
        ensures rows { OnOk result (rows self.new ≡ rows self.old ++ R.values row.now ∷ []) }
        ensures query { query self.new ≡ query self.old };
}

impl RowSink for Accumulator {
    ghost rows = { λ accumulator. accumulator.rows };

    ghost query = { λ accumulator. Some accumulator.select };

    fn add<R: RowView>(&mut self, alloc: Global, row: &R) -> Result<(), Memory> {
        Accumulator::add(self, alloc, row)
    }
}

impl RowSink for RowList {
    ghost rows = { λ list. list };

    ghost query = { λ _. None };

    fn add<R: RowView>(&mut self, alloc: Global, row: &R) -> Result<(), Memory> {
        self.push(built(alloc, row)?)
    }
}

/// A row of its own.
fn built<R: RowView>(alloc: Global, row: &R) -> Result<Row, Memory>
    ensures { IfOk result (λ built. built ≡ R.values row.now) }
{
    let width = row.width();
    let mut values = Vec::with_capacity(alloc, width)?;
    for index in 0..width {
        values.push(row.value(index).to_value(alloc)?)?;
    }
    Row::from_vec(alloc, values)
}
