//! Records: the vectors of each, and several in one frame.

ghost use Rattle.std.specs.Prelude.{◌≡◌, codes, length};
ghost use Rattle.change_vectors.specs.Reading.{Gives};
ghost use Rattle.feed_text.specs.Reading.{vector_at, vectors_at, record_at, list_at};

use crate::number::number_of;
use crate::vector::vector_of;
use crate::word::behind;
use adg_base::list::List;
use adg_base::number::Scn;
use adg_base::vector::{RedoRecord, Vector};
use change_vectors::unread::Unread;
use std::alloc::Global;

/// The most vectors behind the first.
const MOST_OTHERS: usize = 254;

/// The greatest SCN.
const MOST_SCN: u64 = (1 << 48) - 1;

/// The vectors in front, a semicolon between them, and the bytes behind them.
fn some_vectors(alloc: Global, text: &[u8]) -> Result<(Vec<Vector>, &[u8]), Unread>
    ensures { Gives (λ x. (x.0.items, x.1.now)) result (list_at vector_at (codes "; ") 254 text.now) }
{
    let (first, after) = vector_of(alloc, text)?;
    let mut vectors = Vec::new(alloc);
    vectors.push(first)?;
    let mut rest = after;
    for _ in 0..MOST_OTHERS {
        let Ok(inside) = behind(b"; ", rest) else {
            return Ok((vectors, rest));
        };
        let (vector, after) = vector_of(alloc, inside)?;
        vectors.push(vector)?;
        rest = after;
    }
    Ok((vectors, rest))
}

/// The vectors of a record behind its colon, and the bytes behind them.
#[tactic(auto, unfolding(crate::specs::Reading::vectors_at))]
fn vectors_of(alloc: Global, text: &[u8]) -> Result<(Vec<Vector>, &[u8]), Unread>
    ensures { Gives (λ x. (x.0.items, x.1.now)) result (vectors_at text.now) }
{
    if behind(b" |", text).is_ok() {
        return Ok((Vec::new(alloc), text));
    }
    if let Ok(inside) = behind(b" ", text) {
        return some_vectors(alloc, inside);
    }
    Ok((Vec::new(alloc), text))
}

/// The record in front, from its SCN on, and the bytes behind it.
#[tactic(auto, unfolding(crate::specs::Reading::record_at))]
fn record_of(alloc: Global, text: &[u8]) -> Result<(RedoRecord, &[u8]), Unread>
    ensures { Gives (λ x. (x.0, x.1.now)) result (record_at text.now) }
{
    let (number, rest) = number_of(MOST_SCN, text)?;
    let Some(scn) = Scn::new(number) else {
        return Err(Unread::Bad);
    };
    let (vectors, rest) = vectors_of(alloc, behind(b":", rest)?)?;
    let vectors = List::from_vec(vectors);
    Ok((RedoRecord { scn, vectors }, rest))
}

/// The records in front, a bar between them, and the bytes behind them.
pub fn some_records(alloc: Global, text: &[u8]) -> Result<(Vec<RedoRecord>, &[u8]), Unread>
    ensures { Gives (λ x. (x.0.items, x.1.now)) result (list_at record_at (codes " | @") (length text.now) text.now) }
{
    let (first, after) = match record_of(alloc, text) {
        Ok(found) => found,
        Err(unread) => return Err(unread),
    };
    let mut records = Vec::new(alloc);
    records.push(first)?;
    let mut rest = after;
    for _ in 0..text.len() {
        let Ok(inside) = behind(b" | @", rest) else {
            return Ok((records, rest));
        };
        match record_of(alloc, inside) {
            Ok((redo, after)) => {
                records.push(redo)?;
                rest = after;
            }
            Err(unread) => return Err(unread),
        }
    }
    Ok((records, rest))
}
