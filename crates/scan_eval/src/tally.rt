//! What is kept of rows for one aggregate of them.

ghost use Rattle.std.specs.Prelude.{◌≡◌, ◌+◌, ◌-◌, ◌<◌, ◌≤◌, ◌^◌, ◌++◌, [], map, length, take, drop, IfOk, OnOk};
ghost use Rattle.std.specs.List.{All, AllZip, zip};
ghost use Rattle.adg_base.specs.Values.{shown};
ghost use Rattle.scan_eval.specs.Summed.{summed, with_term, joined};
ghost use Rattle.scan_eval.specs.Tally as tally;
ghost use Rattle.scan_eval.specs.Tally.{tally_of, tallies_of, with_row, with_tally, size_of, sum_cell_of, tally_cell, lesser, greater};

use crate::condition::value_in;
use adg_base::value_ref::{RowView, ValueRef};
use adg_base::answer::Cell;
use adg_base::command::Aggregate;
use adg_base::memory::Memory;
use adg_base::value::Value;
use std::alloc::Global;
use std::marker::Model;

/// The sum of integers, and how many they are. It can't overflow before `2^64` of them.
#[derive(Debug, Drop)]
pub struct RunningSum {
    terms: u64,
    amount: i128,
}

impl Model for RunningSum {
    ghost use Rattle.scan_eval.specs.Summed.{Summed, IsBounded};

    ghost Value = { Summed };

    ghost view = { λ s. record { terms = s.terms; amount = s.amount } };

    ghost invariant = { λ s. IsBounded s.terms s.amount };
}

/// What is kept of the rows so far for one aggregate.
#[derive(Debug, Drop)]
pub enum Tally {
    Count(u64),
    Sum(u8, RunningSum),
    /// The least value in a column, `Null` while there is none.
    Least(u8, Value),
    /// The greatest value in a column, `Null` while there is none.
    Greatest(u8, Value),
}

impl RunningSum {
    fn new() -> RunningSum
        ensures { result ≡ summed [] }
    {
        RunningSum {
            terms: 0,
            amount: 0,
        }
    }

    /// One term more, where there is a value. A text counts as a term of 0.
    fn add(&mut self, term: ValueRef<'_>)
        requires { self.old.terms + 1 < 2 ^ 64 }
        ensures { self.new ≡ with_term self.old (shown term.entry) }
    {
        match term {
            ValueRef::Null => {}
            ValueRef::Int(number) => {
                self.terms += 1;
                self.amount += i128::from(number);
            }
            ValueRef::Text(_) => self.terms += 1,
        }
    }

    /// The terms of another besides its own.
    fn join(&mut self, other: &RunningSum)
        requires { self.old.terms + other.now.terms < 2 ^ 64 }
        ensures { self.new ≡ joined self.old other.now }
    {
        self.terms += other.terms;
        self.amount += other.amount;
    }

    /// The sum, none of no terms.
    fn cell(&self) -> Cell
        ensures { result ≡ sum_cell_of self.now }
    {
        if self.terms == 0 {
            Cell::Null
        } else {
            Cell::Number(self.amount)
        }
    }
}

impl Tally {
    /// The tally of no rows.
    pub fn new(aggregate: Aggregate) -> Tally
        ensures { result ≡ tally_of [] aggregate }
    {
        match aggregate {
            Aggregate::Count => Tally::Count(0),
            Aggregate::Sum(column) => Tally::Sum(column, RunningSum::new()),
            Aggregate::Min(column) => Tally::Least(column, Value::Null),
            Aggregate::Max(column) => Tally::Greatest(column, Value::Null),
        }
    }

    /// The tally with one row more.
    fn add<R: RowView>(&mut self, alloc: Global, row: &R) -> Result<(), Memory>
        requires { size_of self.old + 1 < 2 ^ 64 }
        ensures { OnOk result (self.new ≡ with_row (R.values row.now) self.old) }
    {
        match self {
            Tally::Count(count) => *count += 1,
            Tally::Sum(column, sum) => sum.add(value_in(row, *column)),
            Tally::Least(column, least) => lower(alloc, least, value_in(row, *column))?,
            Tally::Greatest(column, greatest) => raise(alloc, greatest, value_in(row, *column))?,
        }
        Ok(())
    }

    /// The tally with the rows of another of the same aggregate.
    fn join(&mut self, alloc: Global, other: &Tally) -> Result<(), Memory>
        requires { size_of self.old + size_of other.now < 2 ^ 64 }
        ensures { OnOk result (self.new ≡ with_tally self.old other.now) }
    {
        match (self, other) {
            (Tally::Count(count), Tally::Count(more)) => *count += more,
            (Tally::Sum(_, sum), Tally::Sum(_, more)) => sum.join(more),
            (Tally::Least(_, least), Tally::Least(_, value)) => {
                lower(alloc, least, ValueRef::of(value))?
            }
            (Tally::Greatest(_, greatest), Tally::Greatest(_, value)) => {
                raise(alloc, greatest, ValueRef::of(value))?
            }
            _ => {}
        }
        Ok(())
    }

    /// The cell that prints it.
    fn to_cell(&self, alloc: Global) -> Result<Cell, Memory>
        ensures { IfOk result (λ cell. cell ≡ tally_cell self.now) }
    {
        match self {
            Tally::Count(count) => Ok(Cell::Number(i128::from(*count))),
            Tally::Sum(_, sum) => Ok(sum.cell()),
            Tally::Least(_, value) | Tally::Greatest(_, value) => {
                ValueRef::of(value).to_cell(alloc)
            }
        }
    }
}

/// Takes a value in place of a least one that is greater or not there.
fn lower(alloc: Global, least: &mut Value, value: ValueRef<'_>) -> Result<(), Memory>
    ensures { OnOk result (least.new ≡ lesser least.old (shown value.entry)) }
{
    if is_lower(value, ValueRef::of(least)) {
        *least = value.to_value(alloc)?;
    }
    Ok(())
}

fn is_lower(value: ValueRef<'_>, least: ValueRef<'_>) -> bool
    ensures { result ≡ tally.is_lower (shown value.entry) (shown least.entry) }
{
    match (value, least) {
        (ValueRef::Null, _) => false,
        (ValueRef::Int(_) | ValueRef::Text(_), ValueRef::Null) => true,
        (ValueRef::Int(_) | ValueRef::Text(_), ValueRef::Int(_) | ValueRef::Text(_)) => {
            value.compare(least).is_lt()
        }
    }
}

/// Takes a value in place of a greatest one that is less or not there.
fn raise(alloc: Global, greatest: &mut Value, value: ValueRef<'_>) -> Result<(), Memory>
    ensures { OnOk result (greatest.new ≡ tally.greater greatest.old (shown value.entry)) }
{
    if value.compare(ValueRef::of(greatest)).is_gt() {
        *greatest = value.to_value(alloc)?;
    }
    Ok(())
}

/// Adds the tallies of no rows.
pub fn add_empty(aggregates: &[Aggregate], tallies: &mut Vec<Tally>) -> Result<(), Memory>
    ensures { OnOk result (tallies.new.items ≡ tallies.old.items ++ tallies_of aggregates.now []) }
{
    for aggregate in aggregates {
        tallies.push(Tally::new(*aggregate))?;
    }
    Ok(())
}

/// Each tally with one row more.
pub fn add_row<R: RowView>(alloc: Global, tallies: &mut [Tally], row: &R) -> Result<(), Memory>
    requires { All (λ t. size_of t + 1 < 2 ^ 64) tallies.old }
    ensures { OnOk result (tallies.new ≡ map (with_row (R.values row.now)) tallies.old) }
{
    for tally in tallies.iter_mut() {
        tally.add(alloc, row)?;
    }
    Ok(())
}

/// Each tally with the rows of another of the same aggregate.
pub fn join_all(alloc: Global, tallies: &mut [Tally], others: &[Tally]) -> Result<(), Memory>
    requires { AllZip (λ t u. size_of t + size_of u < 2 ^ 64) tallies.old others.now }
    ensures { OnOk result (tallies.new ≡ map (λ p. with_tally p.0 p.1) (zip tallies.old others.now)) }
{
    for (index, tally) in tallies.iter_mut().enumerate() {
        tally.join(alloc, &others[index])?;
    }
    Ok(())
}

/// Each tally in a part of a list with one row more.
pub fn add_row_at<R: RowView>(
    alloc: Global,
    tallies: &mut [Tally],
    from: usize,
    to: usize,
    row: &R,
) -> Result<(), Memory>
    requires order { from ≤ to }
    requires within { to ≤ length tallies.old }
    requires room { All (λ t. size_of t + 1 < 2 ^ 64) (take (to - from) (drop from tallies.old)) }
    ensures { OnOk result (tallies.new ≡ take from tallies.old ++ map (with_row (R.values row.now)) (take (to - from) (drop from tallies.old)) ++ drop to tallies.old) }
{
    add_row(alloc, &mut tallies[from..to], row)
}

/// Each tally in a part of a list with the rows of another of the same aggregate.
pub fn join_all_at(
    alloc: Global,
    tallies: &mut [Tally],
    from: usize,
    to: usize,
    others: &[Tally],
) -> Result<(), Memory>
    requires order { from ≤ to }
    requires within { to ≤ length tallies.old }
    requires room { AllZip (λ t u. size_of t + size_of u < 2 ^ 64) (take (to - from) (drop from tallies.old)) others.now }
    ensures { OnOk result (tallies.new ≡ take from tallies.old ++ map (λ p. with_tally p.0 p.1) (zip (take (to - from) (drop from tallies.old)) others.now) ++ drop to tallies.old) }
{
    join_all(alloc, &mut tallies[from..to], others)
}

/// A part of a list.
pub fn part(tallies: &[Tally], from: usize, to: usize) -> &[Tally]
    requires order { from ≤ to }
    requires within { to ≤ length tallies.now }
    ensures { result.now ≡ take (to - from) (drop from tallies.now) }
{
    &tallies[from..to]
}

/// Adds the cells that print tallies.
pub fn add_cells(alloc: Global, cells: &mut Vec<Cell>, tallies: &[Tally]) -> Result<(), Memory>
    ensures { OnOk result (cells.new.items ≡ cells.old.items ++ map tally_cell tallies.now) }
{
    for tally in tallies {
        cells.push(tally.to_cell(alloc)?)?;
    }
    Ok(())
}
