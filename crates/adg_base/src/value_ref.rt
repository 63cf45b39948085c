ghost use Rattle.std.specs.Prelude.{◌≡◌, List, length, slice_get, unwrap_or, IfOk};
ghost use Rattle.adg_base.specs.declared.value.Value.{Value as Datum};
ghost use Rattle.adg_base.specs.declared.value.Value.TheVariants.{Null};
ghost use Rattle.adg_base.specs.Values.{cell_of, value_cmp, shown};

use crate::answer::Cell;
use crate::list::Duplicate;
use crate::memory::Memory;
use crate::row::Row;
use crate::text::Text;
use crate::value::Value;
use std::alloc::Global;
use std::cmp::Ordering;

/// A value where it lies: a text is lent, and an integer stands for itself.
#[derive(Clone, Copy, Debug)]
pub enum ValueRef<'a> {
    Null,
    Int(i64),
    Text(&'a Text),
}

impl<'a> ValueRef<'a> {
    /// What a value holds.
    pub fn of(value: &'a Value) -> ValueRef<'a>
        ensures { shown result ≡ value.now }
    {
        match value {
            Value::Null => ValueRef::Null,
            Value::Int(number) => ValueRef::Int(*number),
            Value::Text(text) => ValueRef::Text(text),
        }
    }

    /// The order of two values: no value before all others, then integers, then texts by their
    /// bytes.
    pub fn compare(self, other: ValueRef<'_>) -> Ordering
        ensures { result ≡ value_cmp (shown self.entry) (shown other.entry) }
    {
        match (self, other) {
            (ValueRef::Null, ValueRef::Null) => Ordering::Equal,
            (ValueRef::Null, ValueRef::Int(_) | ValueRef::Text(_)) => Ordering::Less,
            (ValueRef::Int(_) | ValueRef::Text(_), ValueRef::Null) => Ordering::Greater,
            (ValueRef::Int(left), ValueRef::Int(right)) => left.cmp(&right),
            (ValueRef::Int(_), ValueRef::Text(_)) => Ordering::Less,
            (ValueRef::Text(_), ValueRef::Int(_)) => Ordering::Greater,
            (ValueRef::Text(left), ValueRef::Text(right)) => left.as_bytes().cmp(right.as_bytes()),
        }
    }

    /// A value of its own.
    pub fn to_value(self, alloc: Global) -> Result<Value, Memory>
        ensures { IfOk result (λ value. value ≡ shown self.entry) }
    {
        match self {
            ValueRef::Null => Ok(Value::Null),
            ValueRef::Int(number) => Ok(Value::Int(number)),
            ValueRef::Text(text) => Ok(Value::Text(text.copy(alloc)?)),
        }
    }

    /// The cell that prints it.
    pub fn to_cell(self, alloc: Global) -> Result<Cell, Memory>
        ensures { IfOk result (λ cell. cell ≡ cell_of (shown self.entry)) }
    {
        match self {
            ValueRef::Null => Ok(Cell::Null),
            ValueRef::Int(number) => Ok(Cell::Number(i128::from(number))),
            ValueRef::Text(text) => Ok(Cell::Text(text.copy(alloc)?)),
        }
    }
}

/// A row whose values can be looked at where they lie, as in a row of its own or in columns.
pub trait RowView {
    /// The values of the row.
    ghost values: { Self → List Datum };

    /// How many values the row has.
    fn width(&self) -> usize
        ensures { result ≡ length (values self.now) };

    /// The value at an index from 0; none beyond the width.
    fn value(&self, index: usize) -> ValueRef<'_>
        ensures { shown result ≡ unwrap_or (slice_get (values self.now) index) Null };
}

impl RowView for Row {
    ghost values = { λ row. row };

    fn width(&self) -> usize {
        self.len()
    }

    fn value(&self, index: usize) -> ValueRef<'_> {
        match self.as_slice().get(index) {
            Some(value) => ValueRef::of(value),
            None => ValueRef::Null,
        }
    }
}
