//! Whether the definition of its object lets a SELECT have an answer.

ghost use Rattle.std.specs.Prelude.{◌≡◌, nat_le, option_to_list, take};
ghost use Rattle.std.specs.List.{list_all};
ghost use Rattle.adg_model.specs.Database.{Table};
ghost use Rattle.adg_model.specs.Query as query;
ghost use Rattle.adg_model.specs.Query.{columns_in, column_of, fits_column};

use adg_base::command::{Aggregate, Condition, Select, What};
use adg_base::definition::Definition;
use adg_base::value::{ColKind, Value};

/// What tells which columns an object has.
pub trait Columns {
    /// The definition of the object.
    ghost table: { Self → Table };

    /// The kinds of its columns.
    fn kinds(&self) -> &[ColKind]
        ensures { result.now ≡ (table self.now).kinds };
}

impl Columns for Definition {
    ghost use Rattle.adg_model.specs.Defined.{table_of};

    ghost table = { table_of };

    fn kinds(&self) -> &[ColKind] {
        at_most(usize::from(self.width), &self.kinds)
    }
}

/// The first kinds, at most so many.
fn at_most(count: usize, kinds: &[ColKind]) -> &[ColKind]
    ensures { result.now ≡ take count kinds.now }
{
    let count = count.min(kinds.len());
    &kinds[..count]
}

/// Whether the columns that a SELECT names are columns of the object.
pub fn has_columns<C: Columns>(select: &Select, columns: &C) -> bool
    ensures { result ≡ query.has_columns select.now (C.table columns.now) }
{
    let width = columns.kinds().len();
    has_asked(&select.what, width)
        && has_tested(select.conditions.as_slice(), width)
        && has_group(select.group, width)
}

fn has_asked(what: &What, width: usize) -> bool
    ensures { result ≡ list_all (λ c. nat_le c width) (columns_in what.now) }
{
    match what {
        What::All => true,
        What::Aggregates(aggregates) => have_columns(aggregates.as_slice(), width),
    }
}

fn have_columns(aggregates: &[Aggregate], width: usize) -> bool
    ensures { result ≡ list_all (λ a. list_all (λ c. nat_le c width) (option_to_list (column_of a))) aggregates.now }
{
    aggregates
        .iter()
        .all(|aggregate| has_column(*aggregate, width))
}

fn has_column(aggregate: Aggregate, width: usize) -> bool
    ensures { result ≡ list_all (λ c. nat_le c width) (option_to_list (column_of aggregate)) }
{
    match aggregate {
        Aggregate::Count => true,
        Aggregate::Sum(column) | Aggregate::Min(column) | Aggregate::Max(column) => {
            usize::from(column) <= width
        }
    }
}

fn has_tested(conditions: &[Condition], width: usize) -> bool
    ensures { result ≡ list_all (λ c. nat_le c.column width) conditions.now }
{
    conditions
        .iter()
        .all(|condition| usize::from(condition.column) <= width)
}

fn has_group(group: Option<u8>, width: usize) -> bool
    ensures { result ≡ list_all (λ c. nat_le c width) (option_to_list group) }
{
    match group {
        Some(column) => usize::from(column) <= width,
        None => true,
    }
}

/// Whether each literal is of its column's kind, and each sum of a column of integers.
pub fn has_types<C: Columns>(select: &Select, columns: &C) -> bool
    ensures { result ≡ query.has_types select.now (C.table columns.now) }
{
    literals_fit(select.conditions.as_slice(), columns) && sums_fit(&select.what, columns)
}

fn literals_fit<C: Columns>(conditions: &[Condition], columns: &C) -> bool
    ensures { result ≡ list_all (λ c. fits_column c.literal (query.kind_in c.column (C.table columns.now))) conditions.now }
{
    conditions.iter().all(|condition| literal_fits(
        &condition.literal,
        kind_in(condition.column, columns),
    ))
}

fn literal_fits(literal: &Value, kind: Option<ColKind>) -> bool
    ensures { result ≡ fits_column literal.now kind }
{
    match (literal, kind) {
        (_, None) => false,
        (Value::Null, Some(_)) => true,
        (Value::Int(_), Some(ColKind::Int)) => true,
        (Value::Int(_), Some(ColKind::Text)) => false,
        (Value::Text(_), Some(ColKind::Int)) => false,
        (Value::Text(_), Some(ColKind::Text)) => true,
    }
}

fn kind_in<C: Columns>(column: u8, columns: &C) -> Option<ColKind>
    ensures { result ≡ query.kind_in column (C.table columns.now) }
{
    let index = usize::from(column).saturating_sub(1);
    columns.kinds().get(index).copied()
}

fn sums_fit<C: Columns>(what: &What, columns: &C) -> bool
    ensures { result ≡ list_all (query.sums_integers (C.table columns.now)) (query.aggregates_of what.now) }
{
    match what {
        What::All => true,
        What::Aggregates(aggregates) => aggregates
            .as_slice()
            .iter()
            .all(|aggregate| sum_fits(*aggregate, columns)),
    }
}

fn sum_fits<C: Columns>(aggregate: Aggregate, columns: &C) -> bool
    ensures { result ≡ query.sums_integers (C.table columns.now) aggregate }
{
    match aggregate {
        Aggregate::Count | Aggregate::Min(_) | Aggregate::Max(_) => true,
        Aggregate::Sum(column) => match kind_in(column, columns) {
            Some(ColKind::Int) => true,
            Some(ColKind::Text) | None => false,
        },
    }
}
