ghost use Rattle.std.specs.Prelude.{◌≡◌, ◌<◌, false, map, length, IfOk};
ghost use Rattle.std.specs.List.{list_any};
ghost use Rattle.adg_base.specs.Values.{shown};
ghost use Rattle.column_codec.specs.Values.{value_at};
ghost use Rattle.column_codec.specs.Bounds.{AreBounds};
ghost use Rattle.column_codec.specs.Column.{int_of, is_text, values_of};

use crate::bounds::{Bounds, bounds_of};
use adg_base::list::{Duplicate, List};
use adg_base::memory::Memory;
use adg_base::value::Value;
use adg_base::value_ref::ValueRef;
use std::alloc::Global;
use std::marker::Model;
use std::sync::Arc;

/// The values of one column in one piece, and their bounds. Contracts see the list of the values. They
/// are held once, however many copies there are.
#[derive(Debug, Drop)]
pub struct Column {
    alloc: Global,
    plain: Plain,
    bounds: Option<Bounds>,
}

/// A list of columns.
pub type ColumnList = List<Column>;

impl Model for Column {
    ghost use Rattle.std.specs.Prelude.{List};
    ghost use Rattle.adg_base.specs.declared.value.Value.{Value as Datum};
    ghost use Rattle.column_codec.specs.Bounds.{AreBounds};
    ghost use Rattle.column_codec.specs.Column.{values_of};

    ghost Value = { List Datum };

    ghost view = { λ c. values_of c.plain };

    ghost invariant = { λ c. AreBounds (values_of c.plain) c.bounds };
}

/// The values as they lie: where no text is among them, as numbers.
#[derive(Debug, Drop)]
pub enum Plain {
    Ints(Arc<Vec<Option<i64>>>),
    Mixed(Arc<Vec<Value>>),
}

impl Column {
    /// The column of these values, which are copied.
    pub fn build(alloc: Global, values: &[Value]) -> Result<Column, Memory>
        ensures { IfOk result (λ column. column ≡ values.now) }
    {
        let bounds = bounds_of(values);
        let plain = Plain::of(alloc, values)?;
        Ok(Column {
            alloc,
            plain,
            bounds,
        })
    }

    /// The column of these values, of which no text is copied.
    pub fn from_vec(alloc: Global, values: Vec<Value>) -> Result<Column, Memory>
        ensures { IfOk result (λ column. column ≡ values.items) }
    {
        let bounds = bounds_of(values.as_slice());
        let plain = Plain::from_vec(alloc, values)?;
        Ok(Column {
            alloc,
            plain,
            bounds,
        })
    }

    /// How many values there are.
    pub fn len(&self) -> usize
        ensures { result ≡ length self.now }
    {
        self.plain.len()
    }

    /// The value at an index, as a value of its own.
    pub fn get(&self, index: usize) -> Result<Value, Memory>
        requires { index < length self.now }
        ensures { IfOk result (λ value. value ≡ value_at index self.now) }
    {
        self.value(index).to_value(self.alloc)
    }

    /// The value at an index where it lies, without taking memory; `Null` behind the end.
    pub fn value(&self, index: usize) -> ValueRef<'_>
        ensures { shown result ≡ value_at index self.now }
    {
        self.plain.value(index)
    }

    /// Where the smallest and the largest value stand first. Null counts for neither, and integers come
    /// before texts; None exactly where all values are Null.
    pub fn bounds(&self) -> Option<Bounds>
        ensures { AreBounds self.now result }
    {
        self.bounds
    }
}

impl Duplicate for Column {
    fn copy(&self, _alloc: Global) -> Result<Column, Memory> {
        Ok(Column {
            alloc: self.alloc,
            plain: self.plain.share()?,
            bounds: self.bounds,
        })
    }
}

impl Plain {
    fn of(alloc: Global, values: &[Value]) -> Result<Plain, Memory>
        ensures { IfOk result (λ plain. values_of plain ≡ values.now) }
    {
        if has_text(values) {
            Ok(Plain::Mixed(Arc::new(alloc, copied(alloc, values)?)?))
        } else {
            Ok(Plain::Ints(Arc::new(alloc, numbers_of(alloc, values)?)?))
        }
    }

    fn from_vec(alloc: Global, values: Vec<Value>) -> Result<Plain, Memory>
        ensures { IfOk result (λ plain. values_of plain ≡ values.items) }
    {
        if has_text(values.as_slice()) {
            Ok(Plain::Mixed(Arc::new(alloc, values)?))
        } else {
            Ok(Plain::Ints(Arc::new(alloc, numbers_of(alloc, values.as_slice())?)?))
        }
    }

    /// The same values, held once.
    fn share(&self) -> Result<Plain, Memory>
        ensures { IfOk result (λ plain. values_of plain ≡ values_of self.now) }
    {
        match self {
            Plain::Ints(numbers) => Ok(Plain::Ints(numbers.clone()?)),
            Plain::Mixed(values) => Ok(Plain::Mixed(values.clone()?)),
        }
    }

    fn len(&self) -> usize
        ensures { result ≡ length (values_of self.now) }
    {
        match self {
            Plain::Ints(numbers) => numbers.len(),
            Plain::Mixed(values) => values.len(),
        }
    }

    fn value(&self, index: usize) -> ValueRef<'_>
        ensures { shown result ≡ value_at index (values_of self.now) }
    {
        match self {
            Plain::Ints(numbers) => number_at(numbers.as_slice(), index),
            Plain::Mixed(values) => datum_at(values.as_slice(), index),
        }
    }
}

fn number_at(numbers: &[Option<i64>], index: usize) -> ValueRef<'_>
    ensures { shown result ≡ value_at index (map int_of numbers.now) }
{
    match numbers.get(index) {
        Some(Some(number)) => ValueRef::Int(*number),
        _ => ValueRef::Null,
    }
}

fn datum_at(values: &[Value], index: usize) -> ValueRef<'_>
    ensures { shown result ≡ value_at index values.now }
{
    match values.get(index) {
        Some(value) => ValueRef::of(value),
        None => ValueRef::Null,
    }
}

fn has_text(values: &[Value]) -> bool
    ensures { result ≡ list_any is_text values.now }
{
    values.iter().any(|value| is_a_text(value))
}

fn is_a_text(value: &Value) -> bool
    ensures { result ≡ is_text value.now }
{
    match value {
        Value::Text(_) => true,
        Value::Null | Value::Int(_) => false,
    }
}

/// The numbers of values of which none is a text.
#[tactic(auto, using(crate::proofs::Numbers::no_text_at))]
fn numbers_of(alloc: Global, values: &[Value]) -> Result<Vec<Option<i64>>, Memory>
    requires { list_any is_text values.now ≡ false }
    ensures { IfOk result (λ numbers. map int_of numbers.items ≡ values.now) }
{
    let mut numbers = Vec::with_capacity(alloc, values.len())?;
    for value in values {
        numbers.push(number_of(value))?;
    }
    Ok(numbers)
}

fn number_of(value: &Value) -> Option<i64>
    ensures { is_text value.now ≡ false → int_of result ≡ value.now }
{
    match value {
        Value::Int(number) => Some(*number),
        Value::Null | Value::Text(_) => None,
    }
}

fn copied(alloc: Global, values: &[Value]) -> Result<Vec<Value>, Memory>
    ensures { IfOk result (λ copied. copied.items ≡ values.now) }
{
    let mut copied = Vec::with_capacity(alloc, values.len())?;
    for value in values {
        copied.push(value.copy(alloc)?)?;
    }
    Ok(copied)
}
