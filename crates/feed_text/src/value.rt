//! The values of a row and the kinds of an object's columns.

ghost use Rattle.std.specs.Prelude.{◌≡◌, codes};
ghost use Rattle.change_vectors.specs.Reading.{Finds, Gives};
ghost use Rattle.feed_text.specs.Reading.{text_at, negative_at, positive_at, value_at, kind_at, more_at, list_at, bracketed_at};

use crate::field::kind_of;
use crate::number::{negative_of, number_of};
use crate::word::{behind, cut};
use adg_base::text::{Text, TextRefused};
use adg_base::value::{ColKind, Value};
use change_vectors::unread::{Unread, Unspelled};
use std::alloc::Global;

/// The most values or kinds behind the first.
const MOST_OTHERS: usize = 15;

/// The text behind its first quotation mark.
#[tactic(auto, unfolding(crate::specs::Reading::text_at))]
fn text_of(alloc: Global, text: &[u8]) -> Result<(Value, &[u8]), Unread>
    ensures { Gives (λ x. (x.0, x.1.now)) result (text_at text.now) }
{
    let (front, Some(rest)) = cut(b'\'', text) else {
        return Err(Unread::Bad);
    };
    match Text::new(alloc, front) {
        Ok(text) => Ok((Value::Text(text), rest)),
        Err(TextRefused::BadText) => Err(Unread::Bad),
        Err(TextRefused::Memory) => Err(Unread::Memory),
    }
}

#[tactic(auto, unfolding(crate::specs::Reading::negative_at))]
fn negative_in(text: &[u8]) -> Result<(Value, &[u8]), Unspelled>
    ensures { Finds (λ x. (x.0, x.1.now)) result (negative_at text.now) }
{
    let (size, rest) = number_of(1 << 63, text)?;
    if size == 0 {
        return Err(Unspelled);
    }
    Ok((Value::Int(negative_of(size)), rest))
}

#[tactic(auto, unfolding(crate::specs::Reading::positive_at))]
fn positive_in(text: &[u8]) -> Result<(Value, &[u8]), Unspelled>
    ensures { Finds (λ x. (x.0, x.1.now)) result (positive_at text.now) }
{
    let (size, rest) = number_of((1 << 63) - 1, text)?;
    Ok((Value::Int(size as i64), rest))
}

/// The value in front, and the bytes behind it.
#[tactic(auto, unfolding(crate::specs::Reading::value_at))]
fn value_of(alloc: Global, text: &[u8]) -> Result<(Value, &[u8]), Unread>
    ensures { Gives (λ x. (x.0, x.1.now)) result (value_at text.now) }
{
    if let Ok(rest) = behind(b"NULL", text) {
        return Ok((Value::Null, rest));
    }
    if let Ok(rest) = behind(b"'", text) {
        return text_of(alloc, rest);
    }
    if let Ok(rest) = behind(b"-", text) {
        return Ok(negative_in(rest)?);
    }
    Ok(positive_in(text)?)
}

/// The values in front, a comma between them, and the bytes behind them.
fn values_of(alloc: Global, text: &[u8]) -> Result<(Vec<Value>, &[u8]), Unread>
    ensures { Gives (λ x. (x.0.items, x.1.now)) result (list_at value_at (codes ", ") 15 text.now) }
{
    let (first, after) = value_of(alloc, text)?;
    let mut values = Vec::new(alloc);
    values.push(first)?;
    let mut rest = after;
    for _ in 0..MOST_OTHERS {
        let Ok(inside) = behind(b", ", rest) else {
            return Ok((values, rest));
        };
        let (value, after) = value_of(alloc, inside)?;
        values.push(value)?;
        rest = after;
    }
    Ok((values, rest))
}

/// The kinds in front, a comma between them, and the bytes behind them.
fn kinds_of(alloc: Global, text: &[u8]) -> Result<(Vec<ColKind>, &[u8]), Unread>
    ensures { Gives (λ x. (x.0.items, x.1.now)) result (list_at kind_at (codes ", ") 15 text.now) }
{
    let (first, after) = kind_of(text)?;
    let mut kinds = Vec::new(alloc);
    kinds.push(first)?;
    let mut rest = after;
    for _ in 0..MOST_OTHERS {
        let Ok(inside) = behind(b", ", rest) else {
            return Ok((kinds, rest));
        };
        let (kind, after) = kind_of(inside)?;
        kinds.push(kind)?;
        rest = after;
    }
    Ok((kinds, rest))
}

/// The values between brackets in front, and the bytes behind them.
#[tactic(auto, unfolding(crate::specs::Reading::bracketed_at))]
pub fn row_of(alloc: Global, text: &[u8]) -> Result<(Vec<Value>, &[u8]), Unread>
    ensures { Gives (λ x. (x.0.items, x.1.now)) result (bracketed_at value_at text.now) }
{
    let (values, rest) = values_of(alloc, behind(b" (", text)?)?;
    Ok((values, behind(b")", rest)?))
}

/// The kinds between brackets in front, and the bytes behind them.
#[tactic(auto, unfolding(crate::specs::Reading::bracketed_at))]
pub fn columns_of(alloc: Global, text: &[u8]) -> Result<(Vec<ColKind>, &[u8]), Unread>
    ensures { Gives (λ x. (x.0.items, x.1.now)) result (bracketed_at kind_at text.now) }
{
    let (kinds, rest) = kinds_of(alloc, behind(b" (", text)?)?;
    Ok((kinds, behind(b")", rest)?))
}
