//! The fields of vectors: a reader takes one off the front, and hands on the bytes behind it.

ghost use Rattle.std.specs.Prelude.{◌≡◌};
ghost use Rattle.change_vectors.specs.Reading.{Finds};
ghost use Rattle.feed_text.specs.Reading.{change_at, flag_at, kind_at};

use crate::number::{byte_of, two_bytes_of, txn_of};
use crate::word::behind;
use adg_base::number::{Obj, Txn};
use adg_base::value::ColKind;
use change_vectors::change::Change;
use change_vectors::unread::Unspelled;

/// The transaction and the address in front, and the bytes behind them.
#[tactic(auto, unfolding(crate::specs::Reading::change_at))]
pub fn change_of(text: &[u8]) -> Result<(Change, &[u8]), Unspelled>
    ensures { Finds (λ x. (x.0, x.1.now)) result (change_at text.now) }
{
    let (txn, rest) = txn_of(text)?;
    let Some(txn) = Txn::new(txn) else {
        return Err(Unspelled);
    };
    let (obj, rest) = two_bytes_of(behind(b" t", rest)?)?;
    let Some(obj) = Obj::new(obj) else {
        return Err(Unspelled);
    };
    let (block, rest) = two_bytes_of(behind(b".", rest)?)?;
    let (slot, rest) = byte_of(behind(b".", rest)?)?;
    let change = Change {
        txn,
        obj,
        block,
        slot,
    };
    Ok((change, rest))
}

/// Which of two words is in front, the first for true, and the bytes behind it.
#[tactic(auto, unfolding(crate::specs::Reading::flag_at))]
pub fn flag_of<'a>(
    yes_word: &[u8],
    no_word: &[u8],
    text: &'a [u8],
) -> Result<(bool, &'a [u8]), Unspelled>
    ensures { Finds (λ x. (x.0, x.1.now)) result (flag_at yes_word.now no_word.now text.now) }
{
    if let Ok(rest) = behind(yes_word, text) {
        return Ok((true, rest));
    }
    if let Ok(rest) = behind(no_word, text) {
        return Ok((false, rest));
    }
    Err(Unspelled)
}

/// The kind of a column in front, and the bytes behind it.
#[tactic(auto, unfolding(crate::specs::Reading::kind_at))]
pub fn kind_of(text: &[u8]) -> Result<(ColKind, &[u8]), Unspelled>
    ensures { Finds (λ x. (x.0, x.1.now)) result (kind_at text.now) }
{
    if let Ok(rest) = behind(b"int", text) {
        return Ok((ColKind::Int, rest));
    }
    if let Ok(rest) = behind(b"text", text) {
        return Ok((ColKind::Text, rest));
    }
    Err(Unspelled)
}
