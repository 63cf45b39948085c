//! A vector off the front of bytes.

ghost use Rattle.std.specs.Prelude.{◌≡◌};
ghost use Rattle.change_vectors.specs.Reading.{Finds, Gives, begin_at, put_at, delete_at, undo_at, commit_at, abort_at, create_at, drop_object_at, add_column_at, no_in_memory_at, end_at, fields_at, vector_at};

use crate::field::{change_of, extents_of, flag_of, kind_of, u8_at, u16_at, u64_at};
use crate::unread::{Unread, Unspelled};
use crate::value::{columns_of, row_of};
use adg_base::list::List;
use adg_base::number::{Obj, Txn};
use adg_base::row::Row;
use adg_base::vector::Vector;
use adg_model::record::tag;
use std::alloc::Global;

#[tactic(auto, unfolding(crate::specs::Reading::begin_at))]
fn begin_of(bytes: &[u8]) -> Result<(Vector, &[u8]), Unspelled>
    ensures { Finds (λ x. (x.0, x.1.now)) result (begin_at bytes.now) }
{
    let (txn, rest) = u64_at(bytes)?;
    match Txn::new(txn) {
        Some(txn) => Ok((Vector::Begin { txn }, rest)),
        None => Err(Unspelled),
    }
}

#[tactic(auto, unfolding(crate::specs::Reading::put_at))]
fn put_of(alloc: Global, bytes: &[u8]) -> Result<(Vector, &[u8]), Unread>
    ensures { Gives (λ x. (x.0, x.1.now)) result (put_at bytes.now) }
{
    match change_of(bytes) {
        Ok((change, rest)) => {
            let (values, rest) = row_of(alloc, rest)?;
            let Ok(row) = Row::from_values(alloc, values) else {
                return Err(Unread::Memory);
            };
            let put = Vector::Put {
                txn: change.txn,
                obj: change.obj,
                block: change.block,
                slot: change.slot,
                row,
            };
            Ok((put, rest))
        }
        Err(Unspelled) => Err(Unread::Bad),
    }
}

#[tactic(auto, unfolding(crate::specs::Reading::delete_at))]
fn delete_of(bytes: &[u8]) -> Result<(Vector, &[u8]), Unspelled>
    ensures { Finds (λ x. (x.0, x.1.now)) result (delete_at bytes.now) }
{
    match change_of(bytes) {
        Ok((change, rest)) => {
            let delete = Vector::Delete {
                txn: change.txn,
                obj: change.obj,
                block: change.block,
                slot: change.slot,
            };
            Ok((delete, rest))
        }
        Err(Unspelled) => Err(Unspelled),
    }
}

#[tactic(auto, unfolding(crate::specs::Reading::undo_at))]
fn undo_of(bytes: &[u8]) -> Result<(Vector, &[u8]), Unspelled>
    ensures { Finds (λ x. (x.0, x.1.now)) result (undo_at bytes.now) }
{
    match change_of(bytes) {
        Ok((change, rest)) => {
            let undo = Vector::Undo {
                txn: change.txn,
                obj: change.obj,
                block: change.block,
                slot: change.slot,
            };
            Ok((undo, rest))
        }
        Err(Unspelled) => Err(Unspelled),
    }
}

#[tactic(auto, unfolding(crate::specs::Reading::commit_at))]
fn commit_of(bytes: &[u8]) -> Result<(Vector, &[u8]), Unspelled>
    ensures { Finds (λ x. (x.0, x.1.now)) result (commit_at bytes.now) }
{
    let (txn, rest) = u64_at(bytes)?;
    let Some(txn) = Txn::new(txn) else {
        return Err(Unspelled);
    };
    let (flag, rest) = flag_of(rest)?;
    Ok((Vector::Commit { txn, flag }, rest))
}

#[tactic(auto, unfolding(crate::specs::Reading::abort_at))]
fn abort_of(bytes: &[u8]) -> Result<(Vector, &[u8]), Unspelled>
    ensures { Finds (λ x. (x.0, x.1.now)) result (abort_at bytes.now) }
{
    let (txn, rest) = u64_at(bytes)?;
    match Txn::new(txn) {
        Some(txn) => Ok((Vector::Abort { txn }, rest)),
        None => Err(Unspelled),
    }
}

#[tactic(auto, unfolding(crate::specs::Reading::create_at))]
fn create_of(alloc: Global, bytes: &[u8]) -> Result<(Vector, &[u8]), Unread>
    ensures { Gives (λ x. (x.0, x.1.now)) result (create_at bytes.now) }
{
    let (obj, rest) = u16_at(bytes)?;
    let Some(obj) = Obj::new(obj) else {
        return Err(Unread::Bad);
    };
    let (extents, rest) = extents_of(rest)?;
    let (flag, rest) = flag_of(rest)?;
    let (columns, rest) = columns_of(alloc, rest)?;
    let create = Vector::Create {
        obj,
        extents,
        flag,
        columns: List::from_vec(columns),
    };
    Ok((create, rest))
}

#[tactic(auto, unfolding(crate::specs::Reading::drop_object_at))]
fn drop_object_of(bytes: &[u8]) -> Result<(Vector, &[u8]), Unspelled>
    ensures { Finds (λ x. (x.0, x.1.now)) result (drop_object_at bytes.now) }
{
    let (obj, rest) = u16_at(bytes)?;
    match Obj::new(obj) {
        Some(obj) => Ok((Vector::DropObject { obj }, rest)),
        None => Err(Unspelled),
    }
}

#[tactic(auto, unfolding(crate::specs::Reading::add_column_at))]
fn add_column_of(bytes: &[u8]) -> Result<(Vector, &[u8]), Unspelled>
    ensures { Finds (λ x. (x.0, x.1.now)) result (add_column_at bytes.now) }
{
    let (obj, rest) = u16_at(bytes)?;
    let Some(obj) = Obj::new(obj) else {
        return Err(Unspelled);
    };
    let (kind, rest) = kind_of(rest)?;
    Ok((Vector::AddColumn { obj, kind }, rest))
}

#[tactic(auto, unfolding(crate::specs::Reading::no_in_memory_at))]
fn no_in_memory_of(bytes: &[u8]) -> Result<(Vector, &[u8]), Unspelled>
    ensures { Finds (λ x. (x.0, x.1.now)) result (no_in_memory_at bytes.now) }
{
    let (obj, rest) = u16_at(bytes)?;
    match Obj::new(obj) {
        Some(obj) => Ok((Vector::NoInMemory { obj }, rest)),
        None => Err(Unspelled),
    }
}

#[tactic(auto, unfolding(crate::specs::Reading::end_at))]
fn end_of(count: u8, bytes: &[u8]) -> Result<(Vector, &[u8]), Unspelled>
    ensures { Finds (λ x. (x.0, x.1.now)) result (end_at count bytes.now) }
{
    if count == 1 {
        Ok((Vector::EndThread, bytes))
    } else {
        Err(Unspelled)
    }
}

#[tactic(auto, unfolding(crate::specs::Reading::fields_at))]
fn fields_of(alloc: Global, count: u8, first: u8, bytes: &[u8]) -> Result<(Vector, &[u8]), Unread>
    ensures { Gives (λ x. (x.0, x.1.now)) result (fields_at count first bytes.now) }
{
    match first {
        tag::BEGIN => Ok(begin_of(bytes)?),
        tag::PUT => put_of(alloc, bytes),
        tag::DELETE => Ok(delete_of(bytes)?),
        tag::UNDO => Ok(undo_of(bytes)?),
        tag::COMMIT => Ok(commit_of(bytes)?),
        tag::ABORT => Ok(abort_of(bytes)?),
        tag::CREATE => create_of(alloc, bytes),
        tag::DROP_OBJECT => Ok(drop_object_of(bytes)?),
        tag::ADD_COLUMN => Ok(add_column_of(bytes)?),
        tag::NO_IN_MEMORY => Ok(no_in_memory_of(bytes)?),
        tag::END_THREAD => Ok(end_of(count, bytes)?),
        _ => Err(Unread::Bad),
    }
}

/// The vector at the front, in a record with so many vectors.
#[tactic(auto, unfolding(crate::specs::Reading::vector_at))]
pub fn vector_of(alloc: Global, count: u8, bytes: &[u8]) -> Result<(Vector, &[u8]), Unread>
    ensures { Gives (λ x. (x.0, x.1.now)) result (vector_at count bytes.now) }
{
    let (first, rest) = u8_at(bytes)?;
    fields_of(alloc, count, first, rest)
}
