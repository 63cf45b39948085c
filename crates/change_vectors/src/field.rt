//! The fields of vectors: a reader takes one off the front, and hands on the bytes after it.

ghost use Rattle.std.specs.Prelude.{◌≡◌};
ghost use Rattle.std.specs.Int.{w16, w64};
ghost use Rattle.change_vectors.specs.Reading.{Finds, byte_at, number_at, not_zero, flag_at, kind_at, change_at, width_at, extents_at};

use crate::change::Change;
use crate::unread::Unspelled;
use adg_base::definition::{MOST_COLUMNS, MOST_EXTENTS};
use adg_base::number::{Obj, Txn};
use adg_base::value::ColKind;
use byteorder::{BigEndian, ByteOrder};

/// The byte at the front and the bytes after it; `Unspelled` where there is none.
pub fn u8_at(bytes: &[u8]) -> Result<(u8, &[u8]), Unspelled>
    ensures { Finds (λ x. (x.0, x.1.now)) result (byte_at bytes.now) }
{
    match bytes {
        [] => Err(Unspelled),
        [byte, rest @ ..] => Ok((*byte, rest)),
    }
}

/// The number in the two bytes at the front and the bytes after it; `Unspelled` where there are fewer.
#[tactic(auto, using(adg_model::proofs::BigEndian::number_of_2))]
pub fn u16_at(bytes: &[u8]) -> Result<(u16, &[u8]), Unspelled>
    ensures { Finds (λ x. (x.0, x.1.now)) result (number_at w16 bytes.now) }
{
    if bytes.len() < 2 {
        return Err(Unspelled);
    }
    Ok((BigEndian::read_u16(bytes), &bytes[2..]))
}

/// The number in the eight bytes at the front and the bytes after it; `Unspelled` where there are
/// fewer.
#[tactic(auto, using(adg_model::proofs::BigEndian::number_of_8))]
pub fn u64_at(bytes: &[u8]) -> Result<(u64, &[u8]), Unspelled>
    ensures { Finds (λ x. (x.0, x.1.now)) result (number_at w64 bytes.now) }
{
    if bytes.len() < 8 {
        return Err(Unspelled);
    }
    Ok((BigEndian::read_u64(bytes), &bytes[8..]))
}

/// The flag at the front and the bytes after it; `Unspelled` where no byte is there that is 0 or 1.
#[tactic(auto, unfolding(crate::specs::Reading::flag_at))]
pub fn flag_of(bytes: &[u8]) -> Result<(bool, &[u8]), Unspelled>
    ensures { Finds (λ x. (x.0, x.1.now)) result (flag_at bytes.now) }
{
    let (byte, rest) = u8_at(bytes)?;
    match byte {
        0 => Ok((false, rest)),
        1 => Ok((true, rest)),
        _ => Err(Unspelled),
    }
}

/// The kind of a column at the front and the bytes after it; `Unspelled` where no byte is there that is 1
/// or 2.
#[tactic(auto, unfolding(crate::specs::Reading::kind_at))]
pub fn kind_of(bytes: &[u8]) -> Result<(ColKind, &[u8]), Unspelled>
    ensures { Finds (λ x. (x.0, x.1.now)) result (kind_at bytes.now) }
{
    let (byte, rest) = u8_at(bytes)?;
    match byte {
        1 => Ok((ColKind::Int, rest)),
        2 => Ok((ColKind::Text, rest)),
        _ => Err(Unspelled),
    }
}

/// The number of columns at the front, 1 to 16, and the bytes after it; `Unspelled` where none such is
/// there.
#[tactic(auto, unfolding(crate::specs::Reading::width_at))]
pub fn width_of(bytes: &[u8]) -> Result<(u8, &[u8]), Unspelled>
    ensures { Finds (λ x. (x.0, x.1.now)) result (width_at bytes.now) }
{
    let (width, rest) = u8_at(bytes)?;
    if 1 <= width && usize::from(width) <= MOST_COLUMNS {
        Ok((width, rest))
    } else {
        Err(Unspelled)
    }
}

/// The number of extents at the front, 1 to 256, and the bytes after it; `Unspelled` where none such is
/// there.
#[tactic(auto, unfolding(crate::specs::Reading::extents_at))]
pub fn extents_of(bytes: &[u8]) -> Result<(u16, &[u8]), Unspelled>
    ensures { Finds (λ x. (x.0, x.1.now)) result (extents_at bytes.now) }
{
    let (extents, rest) = u16_at(bytes)?;
    if 1 <= extents && extents <= MOST_EXTENTS {
        Ok((extents, rest))
    } else {
        Err(Unspelled)
    }
}

/// The transaction and the address at the front and the bytes after them; `Unspelled` where there are fewer
/// bytes, or a transaction or an object is 0.
#[tactic(auto, unfolding(crate::specs::Reading::change_at))]
pub fn change_of(bytes: &[u8]) -> Result<(Change, &[u8]), Unspelled>
    ensures { Finds (λ x. (x.0, x.1.now)) result (change_at bytes.now) }
{
    let (txn, rest) = u64_at(bytes)?;
    let Some(txn) = Txn::new(txn) else {
        return Err(Unspelled);
    };
    let (obj, rest) = u16_at(rest)?;
    let Some(obj) = Obj::new(obj) else {
        return Err(Unspelled);
    };
    let (block, rest) = u16_at(rest)?;
    let (slot, rest) = u8_at(rest)?;
    let change = Change {
        txn,
        obj,
        block,
        slot,
    };
    Ok((change, rest))
}
