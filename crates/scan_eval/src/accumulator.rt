ghost use Rattle.std.specs.Prelude.{◌≡◌, ◌+◌, ◌<◌, ◌^◌, ◌++◌, ◌∷◌, [], length, map, IfOk, OnOk, OnErr};
ghost use Rattle.adg_model.specs.Defined.{table_of};
ghost use Rattle.adg_model.specs.Query as query;
ghost use Rattle.adg_model.specs.Query.{filtered, select_lines};
ghost use Rattle.adg_base.specs.Values.{cell_of};
ghost use Rattle.scan_eval.specs.Admission.{admission, Follows};
ghost use Rattle.scan_eval.specs.Gathered.{Gathers};
ghost use Rattle.scan_eval.specs.Tally.{tally_cell};

use crate::admission::{QueryRefused, admit};
use crate::condition::meets_all;
use crate::group::Groups;
use crate::seen::Seen;
use crate::tally::{Tally, add_cells, add_empty, add_row, join_all};
use adg_base::answer::{Answer, CellList};
use adg_base::command::{Aggregate, Select, What};
use adg_base::definition::Definition;
use adg_base::list::{Duplicate, List};
use adg_base::memory::Memory;
use adg_base::value_ref::RowView;
use std::alloc::Global;
use std::marker::Model;
use std::mem;

/// A query with what it needs of the rows that were added so far. Contracts see the query and the
/// list of these rows. After want of memory it has no answer any more: `finish` says `Memory`.
#[derive(Drop)]
pub struct Accumulator {
    select: Select,
    gathered: Gathered,
    seen: Seen,
}

impl Model for Accumulator {
    ghost use Rattle.scan_eval.specs.Added.{Added};

    ghost Value = { Added };

    ghost use Rattle.adg_model.specs.Query.{filtered};
    ghost use Rattle.scan_eval.specs.Gathered.{Gathers};

    ghost view = { λ a. record { select = a.select; rows = a.seen.rows } };

    ghost invariant = { λ a. Gathers a.select (filtered a.select.conditions a.seen.rows) a.gathered };
}

/// What is kept of the rows that met the conditions.
#[derive(Drop)]
pub enum Gathered {
    /// The result lines of a query for rows.
    Lines(Vec<CellList>),
    /// One tally for each aggregate.
    Tallies(Vec<Tally>),
    /// The groups by the key in a column.
    Groups(Groups),
    /// Nothing, since memory was wanting.
    Lost,
}

impl Accumulator {
    /// A query with no rows. Its refusals are those of `admit`.
    pub fn new(
        alloc: Global,
        select: &Select,
        def: &Definition,
    ) -> Result<Accumulator, QueryRefused>
        ensures empty { IfOk result (λ accumulator. accumulator ≡ record { select = select.now; rows = [] }) }
        ensures refused { Follows (admission select.now (table_of def.now)) result }
    {
        admit(select, def)?;
        let gathered = Gathered::new(alloc, select)?;
        let select = select.copy(alloc)?;
        Ok(Accumulator {
            select,
            gathered,
            seen: Seen::of(&()),
        })
    }

    /// Adds a row, of which it copies only what the answer prints, and nothing where the row
    /// doesn't meet the conditions.
    pub fn add<R: RowView>(&mut self, alloc: Global, row: &R) -> Result<(), Memory>
        requires { length self.old.rows + 1 < 2 ^ 64 }
        ensures select { self.new.select ≡ self.old.select }
        ensures ok { OnOk result (self.new.rows ≡ self.old.rows ++ R.values row.now ∷ []) }
        ensures err { OnErr result (self.new.rows ≡ self.old.rows) }
    {
        if meets_all(row, self.select.conditions.as_slice()) {
            match self.gathered.add(alloc, &self.select, &self.seen, row) {
                Ok(()) => {}
                Err(memory) => {
                    self.gathered = Gathered::Lost;
                    return Err(memory);
                }
            }
        }
        self.seen = Seen::of(&(&self.seen, row));
        Ok(())
    }

    /// Adds the rows of another accumulator of the same query, in their order, after its own.
    pub fn join(&mut self, alloc: Global, other: Accumulator) -> Result<(), Memory>
        requires select { self.old.select ≡ other.select }
        requires room { length self.old.rows + length other.rows < 2 ^ 64 }
        ensures select { self.new.select ≡ self.old.select }
        ensures ok { OnOk result (self.new.rows ≡ self.old.rows ++ other.rows) }
        ensures err { OnErr result (self.new.rows ≡ self.old.rows) }
    {
        let joined = self.gathered.join(
            alloc,
            &self.select,
            &self.seen,
            other.gathered,
            &other.seen,
        );
        match joined {
            Ok(()) => {
                self.seen = Seen::of(&(&self.seen, &other.seen));
                Ok(())
            }
            Err(memory) => {
                self.gathered = Gathered::Lost;
                Err(memory)
            }
        }
    }

    /// The answer over the rows that were added. Only that of the first call is sure: after it, as
    /// after want of memory, this says `Memory`.
    pub fn take_answer(&mut self, alloc: Global) -> Result<Answer, Memory>
        ensures answer { IfOk result (λ answer. answer ≡ select_lines self.old.select self.old.rows) }
        ensures same { self.new ≡ self.old }
    {
        let gathered = mem::replace(&mut self.gathered, Gathered::Lost);
        gathered.into_answer(alloc, &self.select, &self.seen)
    }

    /// The answer over the rows that were added.
    pub fn finish(self, alloc: Global) -> Result<Answer, Memory>
        ensures { IfOk result (λ answer. answer ≡ select_lines self.select self.rows) }
    {
        self.gathered.into_answer(alloc, &self.select, &self.seen)
    }
}

impl Gathered {
    /// What is kept of no rows.
    fn new(alloc: Global, select: &Select) -> Result<Gathered, Memory>
        ensures { IfOk result (Gathers select.now []) }
    {
        match (&select.what, select.group) {
            (What::All, _) => Ok(Gathered::Lines(Vec::new(alloc))),
            (What::Aggregates(aggregates), None) => {
                let mut tallies = Vec::new(alloc);
                add_empty(aggregates.as_slice(), &mut tallies)?;
                Ok(Gathered::Tallies(tallies))
            }
            (What::Aggregates(_), Some(column)) => Ok(Gathered::Groups(Groups::new(alloc, column))),
        }
    }

    /// One row more, which meets the conditions.
    fn add<R: RowView>(
        &mut self,
        alloc: Global,
        select: &Select,
        seen: &Seen,
        row: &R,
    ) -> Result<(), Memory>
        requires gathers { Gathers select.now (filtered select.now.conditions seen.now.rows) self.old }
        requires room { length seen.now.rows + 1 < 2 ^ 64 }
        ensures { OnOk result (Gathers select.now (filtered select.now.conditions seen.now.rows ++ R.values row.now ∷ []) self.new) }
    {
        match self {
            Gathered::Lines(lines) => add_line(alloc, lines, row),
            Gathered::Tallies(tallies) => add_row(alloc, tallies.as_mut_slice(), row),
            Gathered::Groups(groups) => groups.add(alloc, aggregates_of(select), row),
            Gathered::Lost => Err(Memory),
        }
    }

    /// The rows of another of the same query, after its own.
    fn join(
        &mut self,
        alloc: Global,
        select: &Select,
        seen: &Seen,
        other: Gathered,
        more: &Seen,
    ) -> Result<(), Memory>
        requires gathers { Gathers select.now (filtered select.now.conditions seen.now.rows) self.old }
        requires others { Gathers select.now (filtered select.now.conditions more.now.rows) other }
        requires room { length seen.now.rows + length more.now.rows < 2 ^ 64 }
        ensures { OnOk result (Gathers select.now (filtered select.now.conditions seen.now.rows ++ filtered select.now.conditions more.now.rows) self.new) }
    {
        match (self, other) {
            (Gathered::Lines(lines), Gathered::Lines(mut others)) => {
                lines.append(&mut others)?;
                Ok(())
            }
            (Gathered::Tallies(tallies), Gathered::Tallies(others)) => {
                join_all(alloc, tallies.as_mut_slice(), others.as_slice())
            }
            (Gathered::Groups(groups), Gathered::Groups(others)) => {
                groups.join(alloc, aggregates_of(select), &others)
            }
            _ => Err(Memory),
        }
    }

    /// The answer over the rows that met the conditions.
    fn into_answer(self, alloc: Global, select: &Select, seen: &Seen) -> Result<Answer, Memory>
        requires { Gathers select.now (filtered select.now.conditions seen.now.rows) self }
        ensures { IfOk result (λ answer. answer ≡ select_lines select.now seen.now.rows) }
    {
        match self {
            Gathered::Lines(lines) => Ok(List::from_vec(lines)),
            Gathered::Tallies(tallies) => {
                let mut lines = Vec::new(alloc);
                lines.push(cells_of(alloc, tallies.as_slice())?)?;
                Ok(List::from_vec(lines))
            }
            Gathered::Groups(groups) => groups.into_lines(alloc, aggregates_of(select)),
            Gathered::Lost => Err(Memory),
        }
    }
}

/// What a query asks of its rows together; nothing where it asks for the rows.
fn aggregates_of(select: &Select) -> &[Aggregate]
    ensures { result.now ≡ query.aggregates_of select.now.what }
{
    match &select.what {
        What::All => &[],
        What::Aggregates(aggregates) => aggregates.as_slice(),
    }
}

/// Adds the result line of a row.
#[inline(never)]
fn add_line<R: RowView>(alloc: Global, lines: &mut Vec<CellList>, row: &R) -> Result<(), Memory>
    ensures { OnOk result (lines.new.items ≡ lines.old.items ++ map cell_of (R.values row.now) ∷ []) }
{
    let width = row.width();
    let mut cells = Vec::with_capacity(alloc, width)?;
    for index in 0..width {
        cells.push(row.value(index).to_cell(alloc)?)?;
    }
    lines.push(List::from_vec(cells))?;
    Ok(())
}

/// The result line of tallies.
fn cells_of(alloc: Global, tallies: &[Tally]) -> Result<CellList, Memory>
    ensures { IfOk result (λ cells. cells ≡ map tally_cell tallies.now) }
{
    let mut cells = Vec::with_capacity(alloc, tallies.len())?;
    add_cells(alloc, &mut cells, tallies)?;
    Ok(List::from_vec(cells))
}
