//! The vectors of a record.

ghost use Rattle.std.specs.Prelude.{◌≡◌, codes};
ghost use Rattle.change_vectors.specs.Reading.{Finds, Gives};
ghost use Rattle.feed_text.specs.Reading.{begin_at, put_at, delete_at, undo_at, commit_at, abort_at, create_at, drop_object_at, add_column_at, no_in_memory_at, definition_at, vector_at};

use crate::field::{change_of, flag_of, kind_of};
use crate::number::{two_bytes_of, txn_of};
use crate::value::{columns_of, row_of};
use crate::word::behind;
use adg_base::list::List;
use adg_base::number::{Obj, Txn};
use adg_base::row::Row;
use adg_base::vector::Vector;
use change_vectors::unread::{Unread, Unspelled};
use std::alloc::Global;

#[tactic(auto, unfolding(crate::specs::Reading::begin_at))]
fn begin_of(text: &[u8]) -> Result<(Vector, &[u8]), Unspelled>
    ensures { Finds (λ x. (x.0, x.1.now)) result (begin_at text.now) }
{
    let (txn, rest) = txn_of(text)?;
    match Txn::new(txn) {
        Some(txn) => Ok((Vector::Begin { txn }, rest)),
        None => Err(Unspelled),
    }
}

#[tactic(auto, unfolding(crate::specs::Reading::put_at))]
fn put_of(alloc: Global, text: &[u8]) -> Result<(Vector, &[u8]), Unread>
    ensures { Gives (λ x. (x.0, x.1.now)) result (put_at text.now) }
{
    match change_of(text) {
        Ok((change, rest)) => {
            let (values, rest) = row_of(alloc, rest)?;
            let Ok(row) = Row::from_vec(alloc, values) else {
                return Err(Unread::Memory);
            };
            let put = Vector::Put {
                txn: change.txn,
                obj: change.obj,
                block: change.block,
                slot: change.slot,
                row,
            };
            Ok((put, rest))
        }
        Err(Unspelled) => Err(Unread::Bad),
    }
}

#[tactic(auto, unfolding(crate::specs::Reading::delete_at))]
fn delete_of(text: &[u8]) -> Result<(Vector, &[u8]), Unspelled>
    ensures { Finds (λ x. (x.0, x.1.now)) result (delete_at text.now) }
{
    match change_of(text) {
        Ok((change, rest)) => {
            let delete = Vector::Delete {
                txn: change.txn,
                obj: change.obj,
                block: change.block,
                slot: change.slot,
            };
            Ok((delete, rest))
        }
        Err(Unspelled) => Err(Unspelled),
    }
}

#[tactic(auto, unfolding(crate::specs::Reading::undo_at))]
fn undo_of(text: &[u8]) -> Result<(Vector, &[u8]), Unspelled>
    ensures { Finds (λ x. (x.0, x.1.now)) result (undo_at text.now) }
{
    match change_of(text) {
        Ok((change, rest)) => {
            let undo = Vector::Undo {
                txn: change.txn,
                obj: change.obj,
                block: change.block,
                slot: change.slot,
            };
            Ok((undo, rest))
        }
        Err(Unspelled) => Err(Unspelled),
    }
}

#[tactic(auto, unfolding(crate::specs::Reading::commit_at))]
fn commit_of(text: &[u8]) -> Result<(Vector, &[u8]), Unspelled>
    ensures { Finds (λ x. (x.0, x.1.now)) result (commit_at text.now) }
{
    let (txn, rest) = txn_of(text)?;
    let Some(txn) = Txn::new(txn) else {
        return Err(Unspelled);
    };
    let (flag, rest) = flag_of(b" +", b" -", rest)?;
    Ok((Vector::Commit { txn, flag }, rest))
}

#[tactic(auto, unfolding(crate::specs::Reading::abort_at))]
fn abort_of(text: &[u8]) -> Result<(Vector, &[u8]), Unspelled>
    ensures { Finds (λ x. (x.0, x.1.now)) result (abort_at text.now) }
{
    let (txn, rest) = txn_of(text)?;
    match Txn::new(txn) {
        Some(txn) => Ok((Vector::Abort { txn }, rest)),
        None => Err(Unspelled),
    }
}

#[tactic(auto, unfolding(crate::specs::Reading::create_at))]
fn create_of(alloc: Global, text: &[u8]) -> Result<(Vector, &[u8]), Unread>
    ensures { Gives (λ x. (x.0, x.1.now)) result (create_at text.now) }
{
    let (obj, rest) = two_bytes_of(text)?;
    let Some(obj) = Obj::new(obj) else {
        return Err(Unread::Bad);
    };
    let (extents, rest) = two_bytes_of(behind(b" x", rest)?)?;
    let (flag, rest) = flag_of(b" im", b" plain", rest)?;
    let (columns, rest) = columns_of(alloc, rest)?;
    let create = Vector::Create {
        obj,
        extents,
        flag,
        columns: List::from_vec(columns),
    };
    Ok((create, rest))
}

#[tactic(auto, unfolding(crate::specs::Reading::drop_object_at))]
fn drop_object_of(text: &[u8]) -> Result<(Vector, &[u8]), Unspelled>
    ensures { Finds (λ x. (x.0, x.1.now)) result (drop_object_at text.now) }
{
    let (obj, rest) = two_bytes_of(text)?;
    match Obj::new(obj) {
        Some(obj) => Ok((Vector::DropObject { obj }, rest)),
        None => Err(Unspelled),
    }
}

#[tactic(auto, unfolding(crate::specs::Reading::add_column_at))]
fn add_column_of(text: &[u8]) -> Result<(Vector, &[u8]), Unspelled>
    ensures { Finds (λ x. (x.0, x.1.now)) result (add_column_at text.now) }
{
    let (obj, rest) = two_bytes_of(text)?;
    let Some(obj) = Obj::new(obj) else {
        return Err(Unspelled);
    };
    let (kind, rest) = kind_of(behind(b" ", rest)?)?;
    Ok((Vector::AddColumn { obj, kind }, rest))
}

#[tactic(auto, unfolding(crate::specs::Reading::no_in_memory_at))]
fn no_in_memory_of(text: &[u8]) -> Result<(Vector, &[u8]), Unspelled>
    ensures { Finds (λ x. (x.0, x.1.now)) result (no_in_memory_at text.now) }
{
    let (obj, rest) = two_bytes_of(text)?;
    match Obj::new(obj) {
        Some(obj) => Ok((Vector::NoInMemory { obj }, rest)),
        None => Err(Unspelled),
    }
}

#[tactic(auto, unfolding(crate::specs::Reading::definition_at))]
fn definition_of(alloc: Global, text: &[u8]) -> Result<(Vector, &[u8]), Unread>
    ensures { Gives (λ x. (x.0, x.1.now)) result (definition_at text.now) }
{
    if let Ok(rest) = behind(b"Create t", text) {
        return create_of(alloc, rest);
    }
    if let Ok(rest) = behind(b"DropObject t", text) {
        return Ok(drop_object_of(rest)?);
    }
    if let Ok(rest) = behind(b"AddColumn t", text) {
        return Ok(add_column_of(rest)?);
    }
    if let Ok(rest) = behind(b"NoInMemory t", text) {
        return Ok(no_in_memory_of(rest)?);
    }
    if let Ok(rest) = behind(b"EndThread", text) {
        return Ok((Vector::EndThread, rest));
    }
    Err(Unread::Bad)
}

/// The vector in front, and the bytes behind it.
#[tactic(auto, unfolding(crate::specs::Reading::vector_at))]
pub fn vector_of(alloc: Global, text: &[u8]) -> Result<(Vector, &[u8]), Unread>
    ensures { Gives (λ x. (x.0, x.1.now)) result (vector_at text.now) }
{
    if let Ok(rest) = behind(b"Begin ", text) {
        return Ok(begin_of(rest)?);
    }
    if let Ok(rest) = behind(b"Put ", text) {
        return put_of(alloc, rest);
    }
    if let Ok(rest) = behind(b"Delete ", text) {
        return Ok(delete_of(rest)?);
    }
    if let Ok(rest) = behind(b"Undo ", text) {
        return Ok(undo_of(rest)?);
    }
    if let Ok(rest) = behind(b"Commit ", text) {
        return Ok(commit_of(rest)?);
    }
    if let Ok(rest) = behind(b"Abort ", text) {
        return Ok(abort_of(rest)?);
    }
    definition_of(alloc, text)
}
