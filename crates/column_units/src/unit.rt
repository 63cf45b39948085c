ghost use Rattle.std.specs.Prelude.{◌≡◌, ◌/◌, true, if◌then◌else◌, option_map, IfOk};
ghost use Rattle.adg_base.specs.Address.{Place};
ghost use Rattle.column_codec.specs.Extent.{AreColumns, is_in_extent};
ghost use Rattle.column_units.specs.Unit.{awaits, loaded, marks, IsNew, Marks};
ghost use Rattle.column_units.specs.Look.{clean_rows, look_at, unmarked_rows};

use crate::marks::{self, BLOCKS};
use adg_base::address::Addr;
use adg_base::memory::Memory;
use adg_base::number::{Obj, Scn};
use column_codec::columns::Columns;
use std::marker::Model;

/// The columns of an extent as of an SCN, and which of its rows have changed since. A unit is made
/// before its columns are read: changes are marked from then on.
#[derive(Debug, Drop)]
pub struct Unit {
    pub obj: Obj,
    pub extent: u16,
    /// The SCN of the columns.
    pub snapshot: Scn,
    /// Which population loads it.
    pub ticket: u64,
    pub state: UnitState,
    /// A word for each of the extent's blocks, with a bit for each slot.
    pub map: [u64; BLOCKS],
    /// Whether all rows count as changed.
    pub all: bool,
}

/// Whether a unit has its columns.
#[derive(Debug, Drop)]
pub enum UnitState {
    Loading,
    Ready(Columns),
}

/// The columns of a unit, and its map as it was. It can outlive the unit.
#[derive(Debug, Drop)]
pub struct CleanRows {
    columns: Columns,
    marked: [u64; BLOCKS],
}

impl Model for CleanRows {
    ghost use Rattle.column_units.specs.Look.{Look};

    ghost Value = { Look };

    ghost view = { λ l. record { columns = l.columns; marked = l.marked } };
}

impl Unit {
    /// A unit without columns, in which nothing is marked.
    pub fn new(obj: Obj, extent: u16, snapshot: Scn, ticket: u64) -> Unit
        ensures { IsNew obj extent snapshot ticket result }
    {
        Unit {
            obj,
            extent,
            snapshot,
            ticket,
            state: UnitState::Loading,
            map: [0; BLOCKS],
            all: false,
        }
    }

    /// Gives it its columns, where it is being loaded by the population with this ticket. Else they are
    /// dropped.
    pub fn install(&mut self, ticket: u64, columns: Columns) -> bool
        ensures answer { result ≡ awaits ticket self.old }
        ensures unit { self.new ≡ (if awaits ticket self.old then loaded columns self.old else self.old) }
    {
        match self.state {
            UnitState::Loading if self.ticket == ticket => {
                self.state = UnitState::Ready(columns);
                true
            }
            _ => false,
        }
    }

    /// Marks an address of its extent.
    pub fn mark(&mut self, addr: Addr)
        requires { is_in_extent self.old.obj self.old.extent addr ≡ true }
        ensures { Marks addr self.old self.new }
    {
        marks::mark(&mut self.map, addr);
    }

    /// What a scan at `q` may take from it: None exactly where it is not ready, all is marked, or its
    /// snapshot is above `q`.
    #[tactic(auto, using(crate::proofs::Looked::rows_of_look))]
    pub fn clean_rows(&self, q: Scn) -> Result<Option<CleanRows>, Memory>
        ensures look { IfOk result (λ look. look ≡ look_at q self.now) }
        ensures rows { IfOk result (λ look. option_map clean_rows look ≡ unmarked_rows q self.now) }
    {
        match &self.state {
            UnitState::Ready(columns) if !self.all && self.snapshot <= q => {
                let columns = columns.share()?;
                Ok(Some(CleanRows {
                    columns,
                    marked: self.map,
                }))
            }
            _ => Ok(None),
        }
    }
}

impl CleanRows {
    /// The columns of the unit.
    pub fn columns(&self) -> &Columns
        ensures { result.now ≡ self.now.columns }
    {
        &self.columns
    }

    /// Whether the row at an address of the unit's extent is not to be taken from the columns.
    pub fn is_marked(&self, addr: Addr) -> bool
        ensures { result ≡ marks self.now.marked addr }
    {
        marks::is_marked(&self.marked, addr)
    }

    /// The map of the unit.
    pub fn marked(&self) -> &[u64; BLOCKS]
        ensures { result.now ≡ self.now.marked }
    {
        &self.marked
    }
}
