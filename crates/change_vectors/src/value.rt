//! The values of a row and the kinds of an object's columns.

ghost use Rattle.std.specs.Prelude.{◌≡◌, ◌∷◌, ◌++◌};
ghost use Rattle.change_vectors.specs.Reading.{Finds, Gives, int_at, text_at, value_at, row_at, columns_at, kind_at, many_at};

use crate::field::{kind_of, u8_at, u64_at, width_of};
use crate::unread::{Unread, Unspelled};
use adg_base::row::Values;
use adg_base::text::{Text, TextRefused};
use adg_base::value::{ColKind, Value};
use smallvec::SmallVec;
use std::alloc::Global;

#[tactic(auto, unfolding(crate::specs::Reading::int_at))]
fn int_of(bytes: &[u8]) -> Result<(Value, &[u8]), Unspelled>
    ensures { Finds (λ x. (x.0, x.1.now)) result (int_at bytes.now) }
{
    let (number, rest) = u64_at(bytes)?;
    Ok((Value::Int(number.cast_signed()), rest))
}

#[tactic(auto, unfolding(crate::specs::Reading::text_at))]
fn text_of(alloc: Global, bytes: &[u8]) -> Result<(Value, &[u8]), Unread>
    ensures { Gives (λ x. (x.0, x.1.now)) result (text_at bytes.now) }
{
    let (len, rest) = u8_at(bytes)?;
    let len = len as usize;
    if rest.len() < len {
        return Err(Unread::Bad);
    }
    let (text, rest) = rest.split_at(len);
    match Text::new(alloc, text) {
        Ok(text) => Ok((Value::Text(text), rest)),
        Err(TextRefused::BadText) => Err(Unread::Bad),
        Err(TextRefused::Memory) => Err(Unread::Memory),
    }
}

#[tactic(auto, unfolding(crate::specs::Reading::value_at))]
fn value_of(alloc: Global, bytes: &[u8]) -> Result<(Value, &[u8]), Unread>
    ensures { Gives (λ x. (x.0, x.1.now)) result (value_at bytes.now) }
{
    let (tag, rest) = u8_at(bytes)?;
    match tag {
        0 => Ok((Value::Null, rest)),
        1 => Ok(int_of(rest)?),
        2 => text_of(alloc, rest),
        _ => Err(Unread::Bad),
    }
}

fn values_of(alloc: Global, count: u8, bytes: &[u8]) -> Result<(Values, &[u8]), Unread>
    ensures { Gives (λ x. (x.0.items, x.1.now)) result (many_at value_at count bytes.now) }
{
    let mut values = SmallVec::with_capacity(alloc, count as usize)?;
    let mut rest = bytes;
    for _ in 0..count {
        let (value, after) = value_of(alloc, rest)?;
        values.push(value)?;
        rest = after;
    }
    Ok((values, rest))
}

fn kinds_of(alloc: Global, count: u8, bytes: &[u8]) -> Result<(Vec<ColKind>, &[u8]), Unread>
    ensures { Gives (λ x. (x.0.items, x.1.now)) result (many_at kind_at count bytes.now) }
{
    let mut kinds = Vec::with_capacity(alloc, count as usize)?;
    let mut rest = bytes;
    for _ in 0..count {
        let (kind, after) = kind_of(rest)?;
        kinds.push(kind)?;
        rest = after;
    }
    Ok((kinds, rest))
}

/// The values of a row, behind their number.
#[tactic(auto, unfolding(crate::specs::Reading::row_at))]
pub fn row_of(alloc: Global, bytes: &[u8]) -> Result<(Values, &[u8]), Unread>
    ensures { Gives (λ x. (x.0.items, x.1.now)) result (row_at bytes.now) }
{
    let (width, rest) = width_of(bytes)?;
    values_of(alloc, width, rest)
}

/// The kinds of an object's columns, behind their number.
#[tactic(auto, unfolding(crate::specs::Reading::columns_at))]
pub fn columns_of(alloc: Global, bytes: &[u8]) -> Result<(Vec<ColKind>, &[u8]), Unread>
    ensures { Gives (λ x. (x.0.items, x.1.now)) result (columns_at bytes.now) }
{
    let (width, rest) = width_of(bytes)?;
    kinds_of(alloc, width, rest)
}
