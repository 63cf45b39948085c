//! The groups of rows that have the same key.

ghost use Rattle.std.specs.Prelude.{◌≡◌, ◌+◌, ◌*◌, ◌<◌, ◌≤◌, ◌^◌, ◌++◌, ◌∷◌, [], length, map, take, drop, false, Some, List as ListOf, OnOk, IfOk};
ghost use Rattle.std.specs.List.{list_any, position, slice_index_or};
ghost use Rattle.adg_base.specs.declared.command.Aggregate.{Aggregate};
ghost use Rattle.adg_base.specs.declared.value.Value.TheVariants.{Null};
ghost use Rattle.adg_model.specs.Query as query;
ghost use Rattle.adg_base.specs.Values as order;
ghost use Rattle.adg_base.specs.Values.{cell_of, shown, same};
ghost use Rattle.adg_model.specs.Query.{group_lines, rows_with};
ghost use Rattle.scan_eval.specs.Tally.{tally_cell};
ghost use Rattle.scan_eval.specs.Groups.{AreGroups, AreTallied, AreInOrder, keys_with};

use crate::condition::value_in;
use crate::key_index::KeyIndex;
use crate::seen::Seen;
use crate::tally::{Tally, add_cells, add_empty, add_row_at, join_all_at, part};
use adg_base::answer::{Answer, Cell, CellList};
use adg_base::command::Aggregate;
use adg_base::list::List;
use adg_base::memory::Memory;
use adg_base::value::Value;
use adg_base::value_ref::{RowView, ValueRef};
use std::alloc::Global;
use std::cmp::Ordering;

/// The groups of the rows so far, by the key in a column. Keys stand in the order in which they
/// were first seen; the tallies of each, one for each aggregate, follow one another in one list.
#[derive(Drop)]
pub struct Groups {
    column: u8,
    keys: Vec<Value>,
    tallies: Vec<Tally>,
    index: KeyIndex,
    seen: Seen,
}

/// A key and its place among the keys.
#[derive(Debug, Drop)]
pub struct KeyPlace {
    key: Value,
    place: usize,
}

impl Groups {
    /// The groups of no rows.
    pub fn new(alloc: Global, column: u8) -> Groups
        ensures groups { (aggregates : ListOf Aggregate) → AreGroups aggregates result }
        ensures column { result.column ≡ column }
        ensures seen { result.seen.rows ≡ [] }
    {
        Groups {
            column,
            keys: Vec::new(alloc),
            tallies: Vec::new(alloc),
            index: KeyIndex::new(alloc),
            seen: Seen::of(&()),
        }
    }

    /// The groups with one row more.
    pub fn add<R: RowView>(
        &mut self,
        alloc: Global,
        aggregates: &[Aggregate],
        row: &R,
    ) -> Result<(), Memory>
        requires groups { AreGroups aggregates.now self.old }
        requires room { length self.old.seen.rows + 1 < 2 ^ 64 }
        ensures groups { OnOk result (AreGroups aggregates.now self.new) }
        ensures column { self.new.column ≡ self.old.column }
        ensures seen { OnOk result (self.new.seen.rows ≡ self.old.seen.rows ++ R.values row.now ∷ []) }
    {
        let place = self.place_of(alloc, aggregates, value_in(row, self.column))?;
        let tallies = self.tallies.as_mut_slice();
        let from = place * aggregates.len();
        add_row_at(alloc, tallies, from, from + aggregates.len(), row)?;
        self.seen = Seen::of(&(&self.seen, row));
        Ok(())
    }

    /// The groups of the rows of both, of which `others` have the later ones.
    pub fn join(
        &mut self,
        alloc: Global,
        aggregates: &[Aggregate],
        others: &Groups,
    ) -> Result<(), Memory>
        requires column { self.old.column ≡ others.now.column }
        requires groups { AreGroups aggregates.now self.old }
        requires others { AreGroups aggregates.now others.now }
        requires room { length self.old.seen.rows + length others.now.seen.rows < 2 ^ 64 }
        ensures groups { OnOk result (AreGroups aggregates.now self.new) }
        ensures column { self.new.column ≡ self.old.column }
        ensures seen { OnOk result (self.new.seen.rows ≡ self.old.seen.rows ++ others.now.seen.rows) }
    {
        let before = Seen::of(&self.seen);
        for index in 0..others.keys.len() {
            self.join_key(alloc, aggregates, others, index)?;
        }
        self.seen = Seen::of(&(&before, &others.seen));
        Ok(())
    }

    /// The groups with the rows of the key at an index of others.
    fn join_key(
        &mut self,
        alloc: Global,
        aggregates: &[Aggregate],
        others: &Groups,
        index: usize,
    ) -> Result<(), Memory>
        requires column { self.old.column ≡ others.now.column }
        requires groups { AreGroups aggregates.now self.old }
        requires others { AreGroups aggregates.now others.now }
        requires within { index < length others.now.keys.items }
        requires room { let key = slice_index_or others.now.keys.items index Null in length (rows_with self.old.column key self.old.seen.rows) + length (rows_with self.old.column key others.now.seen.rows) < 2 ^ 64 }
        ensures groups { OnOk result (AreGroups aggregates.now self.new) }
        ensures column { self.new.column ≡ self.old.column }
        ensures seen { OnOk result (self.new.seen.rows ≡ self.old.seen.rows ++ rows_with self.old.column (slice_index_or others.now.keys.items index Null) others.now.seen.rows) }
    {
        let key = ValueRef::of(&others.keys[index]);
        let place = self.place_of(alloc, aggregates, key)?;
        let tallies = self.tallies.as_mut_slice();
        let from = place * aggregates.len();
        let more = others.tallies_at(index, aggregates.len());
        join_all_at(alloc, tallies, from, from + aggregates.len(), more)?;
        self.seen = Seen::of(&(&self.seen, others, index));
        Ok(())
    }

    /// The tallies of the key at an index, which are so many.
    fn tallies_at(&self, index: usize, width: usize) -> &[Tally]
        requires { index * width + width ≤ length self.now.tallies.items }
        ensures { result.now ≡ take width (drop (index * width) self.now.tallies.items) }
    {
        let tallies = self.tallies.as_slice();
        let from = index * width;
        part(tallies, from, from + width)
    }

    /// The place of a key, which is given one where it has none.
    #[inline]
    fn place_of(
        &mut self,
        alloc: Global,
        aggregates: &[Aggregate],
        key: ValueRef<'_>,
    ) -> Result<usize, Memory>
        requires { AreGroups aggregates.now self.old }
        ensures parts { OnOk result (AreTallied aggregates.now self.new) }
        ensures place { IfOk result (λ place. position (same (shown key.entry)) self.new.keys.items ≡ Some place) }
        ensures keys { OnOk result (self.new.keys.items ≡ keys_with (shown key.entry) self.old.keys.items) }
        ensures column { self.new.column ≡ self.old.column }
        ensures seen { self.new.seen ≡ self.old.seen }
    {
        match self.index.find(key) {
            Some(place) => Ok(place),
            None => self.open(alloc, aggregates, key),
        }
    }

    /// A group without rows for a new key.
    #[inline(never)]
    fn open(
        &mut self,
        alloc: Global,
        aggregates: &[Aggregate],
        key: ValueRef<'_>,
    ) -> Result<usize, Memory>
        requires groups { AreGroups aggregates.now self.old }
        requires fresh { list_any (same (shown key)) self.old.keys.items ≡ false }
        ensures parts { OnOk result (AreTallied aggregates.now self.new) }
        ensures place { IfOk result (λ place. place ≡ length self.old.keys.items) }
        ensures keys { OnOk result (self.new.keys.items ≡ self.old.keys.items ++ shown key.entry ∷ []) }
        ensures column { self.new.column ≡ self.old.column }
        ensures seen { self.new.seen ≡ self.old.seen }
    {
        let place = self.keys.len();
        self.index.insert(alloc, key, place)?;
        self.keys.push(key.to_value(alloc)?)?;
        add_empty(aggregates, &mut self.tallies)?;
        Ok(place)
    }

    /// The result lines in the order of their keys.
    pub fn into_lines(self, alloc: Global, aggregates: &[Aggregate]) -> Result<Answer, Memory>
        requires { AreGroups aggregates.now self }
        ensures { IfOk result (λ lines. lines ≡ group_lines aggregates.now self.column self.seen.rows) }
    {
        let width = aggregates.len();
        let places = in_order(alloc, self.keys)?;
        let tallies = self.tallies.as_slice();
        let mut lines = Vec::with_capacity(alloc, places.len())?;
        for place in places {
            lines.push(line_of(alloc, place, tallies, width)?)?;
        }
        Ok(List::from_vec(lines))
    }
}

/// Keys in their order, with the places that they had.
fn in_order(alloc: Global, keys: Vec<Value>) -> Result<Vec<KeyPlace>, Memory>
    ensures { IfOk result (λ places. AreInOrder keys.items places.items) }
{
    let mut places = Vec::with_capacity(alloc, keys.len())?;
    for key in keys {
        let place = places.len();
        places.push(KeyPlace { key, place })?;
    }
    places.sort_unstable_by(|a, b| by_key(a, b));
    Ok(places)
}

fn by_key(a: &KeyPlace, b: &KeyPlace) -> Ordering
    ensures { result ≡ order.value_cmp a.now.key b.now.key }
{
    ValueRef::of(&a.key).compare(ValueRef::of(&b.key))
}

/// The result line of a group: its key, then what is printed of its tallies.
fn line_of(
    alloc: Global,
    place: KeyPlace,
    tallies: &[Tally],
    width: usize,
) -> Result<CellList, Memory>
    requires { place.place * width + width ≤ length tallies.now }
    ensures { IfOk result (λ line. line ≡ cell_of place.key ∷ map tally_cell (take width (drop (place.place * width) tallies.now))) }
{
    let from = place.place * width;
    let mut cells = Vec::with_capacity(alloc, 1 + width)?;
    cells.push(into_cell(place.key))?;
    add_cells(alloc, &mut cells, part(tallies, from, from + width))?;
    Ok(List::from_vec(cells))
}

/// The cell that prints a value.
fn into_cell(value: Value) -> Cell
    ensures { result ≡ cell_of value }
{
    match value {
        Value::Null => Cell::Null,
        Value::Int(number) => Cell::Number(i128::from(number)),
        Value::Text(text) => Cell::Text(text),
    }
}
