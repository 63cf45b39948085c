//! Whether a row meets conditions, tried on its values where they lie.

ghost use Rattle.std.specs.Prelude.{◌≡◌, ◌&&◌, not, ◌-◌};
ghost use Rattle.std.specs.List.{list_all};
ghost use Rattle.std.specs.Cmp.Lexicographic.{slice_cmp};
ghost use Rattle.std.specs.Ordering.{nat_cmp};
ghost use Rattle.adg_model.specs.Query as query;
ghost use Rattle.adg_model.specs.Query.{allows, value_in};
ghost use Rattle.adg_base.specs.Values.{is_null, value_cmp, shown};

use adg_base::command::{Condition, Op};
use adg_base::value_ref::{RowView, ValueRef};
use adg_model::comparison::is_allowed;
use std::cmp::Ordering;

/// Whether a row meets all conditions.
pub fn meets_all<R: RowView>(row: &R, conditions: &[Condition]) -> bool
    ensures { result ≡ list_all (query.meets (R.values row.now)) conditions.now }
{
    conditions.iter().all(|condition| meets(row, condition))
}

fn meets<R: RowView>(row: &R, condition: &Condition) -> bool
    ensures { result ≡ query.meets (R.values row.now) condition.now }
{
    let value = value_in(row, condition.column);
    passes(value, condition.op, ValueRef::of(&condition.literal))
}

/// The value in a column, which counts from 1.
pub fn value_in<R: RowView>(row: &R, column: u8) -> ValueRef<'_>
    ensures { shown result ≡ query.value_in column (R.values row.now) }
{
    row.value(usize::from(column).saturating_sub(1))
}

/// Whether a comparison holds; with no value on either side none does.
fn passes(value: ValueRef<'_>, op: Op, literal: ValueRef<'_>) -> bool
    ensures { result ≡ (not (is_null (shown value.entry)) && not (is_null (shown literal.entry)) && allows op (value_cmp (shown value.entry) (shown literal.entry))) }
{
    match (value, literal) {
        (ValueRef::Null, _) | (_, ValueRef::Null) => false,
        (ValueRef::Int(number), ValueRef::Int(literal)) => is_allowed(op, number.cmp(&literal)),
        (ValueRef::Int(_), ValueRef::Text(_)) => is_allowed(op, Ordering::Less),
        (ValueRef::Text(_), ValueRef::Int(_)) => is_allowed(op, Ordering::Greater),
        (ValueRef::Text(text), ValueRef::Text(literal)) => {
            text_passes(text.as_bytes(), op, literal.as_bytes())
        }
    }
}

/// Whether a comparison of texts holds. Whether two are equal needs no order of them.
#[tactic(auto, using(crate::proofs::TextKeys::equal_bytes))]
fn text_passes(text: &[u8], op: Op, literal: &[u8]) -> bool
    ensures { result ≡ allows op (slice_cmp nat_cmp text.now literal.now) }
{
    match op {
        Op::Eq => text == literal,
        Op::Ne => text != literal,
        Op::Lt | Op::Le | Op::Gt | Op::Ge => is_allowed(op, text.cmp(literal)),
    }
}
