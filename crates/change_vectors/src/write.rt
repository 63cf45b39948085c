//! The one spelling of a record.

ghost use Rattle.std.specs.Prelude.{◌≡◌, ◌≢◌, ◌<◌, [], ◌++◌, ◌∷◌, IfOk, OnOk, length};
ghost use Rattle.std.specs.List.{flat_map, AllByRecursion};
ghost use Rattle.std.specs.Int.{w16, w64, to_be_bytes};
ghost use Rattle.adg_model.specs.Spelling.{value_bytes, row_bytes, txn_bytes, obj_bytes, change_bytes, kind_byte, flag_byte, vector_bytes, vectors_bytes, AreVectors, IsTxn, IsObj, IsValue, IsRow, IsChange, IsCreate, IsVector};
ghost use Rattle.adg_model.specs.Records.{record_bytes, raw_of, raw_len, IsRecord};
ghost use Rattle.change_vectors.specs.Room.{IsTooLong, framed};

use crate::refused::WriteRefused;
use crate::size::{room_after_vectors, text_len};
use adg_base::definition::{MOST_COLUMNS, MOST_EXTENTS};
use adg_base::list::{Bytes, List};
use adg_base::number::{Obj, Scn, Txn};
use adg_base::value::{ColKind, Value};
use adg_base::vector::{RedoRecord, Vector};
use adg_model::record::{MOST_RECORD_BYTES, RECORD_OVERHEAD, tag};
use byteorder::{BigEndian, ByteOrder};
use std::alloc::{AllocError, Global};

/// Appends a number in two bytes.
fn put_u16(out: &mut Vec<u8>, number: u16) -> Result<(), AllocError>
    ensures { OnOk result (out.new.items ≡ out.old.items ++ to_be_bytes w16 number) }
{
    let mut bytes = [0; 2];
    BigEndian::write_u16(&mut bytes, number);
    out.extend_from_slice(&bytes)?;
    Ok(())
}

/// Appends a number in eight bytes.
fn put_u64(out: &mut Vec<u8>, number: u64) -> Result<(), AllocError>
    ensures { OnOk result (out.new.items ≡ out.old.items ++ to_be_bytes w64 number) }
{
    let mut bytes = [0; 8];
    BigEndian::write_u64(&mut bytes, number);
    out.extend_from_slice(&bytes)?;
    Ok(())
}

fn put_value(out: &mut Vec<u8>, value: &Value) -> Result<(), AllocError>
    ensures written { OnOk result (out.new.items ≡ out.old.items ++ value_bytes value.now) }
    ensures good { OnOk result (IsValue value.now) }
{
    match value {
        Value::Null => out.push(0)?,
        Value::Int(number) => {
            out.push(1)?;
            put_u64(out, number.cast_unsigned())?;
        }
        Value::Text(text) => {
            out.push(2)?;
            out.push(text_len(text))?;
            out.extend_from_slice(text.as_bytes())?;
        }
    }
    Ok(())
}

fn put_values(out: &mut Vec<u8>, values: &[Value]) -> Result<(), AllocError>
    ensures written { OnOk result (out.new.items ≡ out.old.items ++ flat_map value_bytes values.now) }
    ensures good { OnOk result (AllByRecursion IsValue values.now) }
{
    for value in values {
        put_value(out, value)?;
    }
    Ok(())
}

fn put_row(out: &mut Vec<u8>, row: &[Value]) -> Result<(), WriteRefused>
    ensures written { OnOk result (out.new.items ≡ out.old.items ++ row_bytes row.now) }
    ensures good { OnOk result (IsRow row.now) }
    ensures bad { result ≡ Err WriteRefused.BadForm → IsRow row.now → ⊥ }
    ensures fits { result ≢ Err WriteRefused.TooLong }
{
    let width = row.len();
    if width == 0 || width > MOST_COLUMNS {
        return Err(WriteRefused::BadForm);
    }
    out.push(width as u8)?;
    put_values(out, row)?;
    Ok(())
}

fn kind_code(kind: ColKind) -> u8
    ensures { result ≡ kind_byte kind }
{
    match kind {
        ColKind::Int => 1,
        ColKind::Text => 2,
    }
}

fn put_kinds(out: &mut Vec<u8>, kinds: &[ColKind]) -> Result<(), AllocError>
    ensures written { OnOk result (out.new.items ≡ out.old.items ++ flat_map (λ k. kind_byte k ∷ []) kinds.now) }
{
    for kind in kinds {
        out.push(kind_code(*kind))?;
    }
    Ok(())
}

fn put_txn(out: &mut Vec<u8>, first: u8, txn: Txn) -> Result<(), AllocError>
    ensures written { OnOk result (out.new.items ≡ out.old.items ++ first ∷ txn_bytes txn) }
    ensures good { IsTxn txn }
{
    out.push(first)?;
    put_u64(out, txn.get())?;
    Ok(())
}

fn put_obj(out: &mut Vec<u8>, first: u8, obj: Obj) -> Result<(), AllocError>
    ensures written { OnOk result (out.new.items ≡ out.old.items ++ first ∷ obj_bytes obj) }
    ensures good { IsObj obj }
{
    out.push(first)?;
    put_u16(out, obj.get())?;
    Ok(())
}

fn put_change(
    out: &mut Vec<u8>,
    first: u8,
    txn: Txn,
    obj: Obj,
    block: u16,
    slot: u8,
) -> Result<(), AllocError>
    ensures written { OnOk result (out.new.items ≡ out.old.items ++ first ∷ change_bytes txn obj block slot) }
    ensures good { OnOk result (IsChange txn obj block slot) }
{
    put_txn(out, first, txn)?;
    put_u16(out, obj.get())?;
    put_u16(out, block)?;
    out.push(slot)?;
    Ok(())
}

fn put_create(
    out: &mut Vec<u8>,
    obj: Obj,
    extents: u16,
    flag: bool,
    columns: &[ColKind],
) -> Result<(), WriteRefused>
    ensures written { OnOk result (out.new.items ≡ out.old.items ++ vector_bytes (Vector.Create obj extents flag columns.now)) }
    ensures good { OnOk result (IsCreate obj extents columns.now) }
    ensures bad { result ≡ Err WriteRefused.BadForm → IsCreate obj extents columns.now → ⊥ }
    ensures fits { result ≢ Err WriteRefused.TooLong }
{
    let width = columns.len();
    if extents == 0 || extents > MOST_EXTENTS || width == 0 || width > MOST_COLUMNS {
        return Err(WriteRefused::BadForm);
    }
    put_obj(out, tag::CREATE, obj)?;
    put_u16(out, extents)?;
    out.push(flag as u8)?;
    out.push(width as u8)?;
    put_kinds(out, columns)?;
    Ok(())
}

fn put_vector(out: &mut Vec<u8>, count: usize, vector: &Vector) -> Result<(), WriteRefused>
    ensures written { OnOk result (out.new.items ≡ out.old.items ++ vector_bytes vector.now) }
    ensures good { OnOk result (IsVector count vector.now) }
    ensures bad { result ≡ Err WriteRefused.BadForm → IsVector count vector.now → ⊥ }
    ensures fits { result ≢ Err WriteRefused.TooLong }
{
    match vector {
        Vector::Begin { txn } => put_txn(out, tag::BEGIN, *txn)?,
        Vector::Put {
            txn,
            obj,
            block,
            slot,
            row,
        } => {
            put_change(out, tag::PUT, *txn, *obj, *block, *slot)?;
            put_row(out, row.as_slice())?;
        }
        Vector::Delete {
            txn,
            obj,
            block,
            slot,
        } => put_change(out, tag::DELETE, *txn, *obj, *block, *slot)?,
        Vector::Undo {
            txn,
            obj,
            block,
            slot,
        } => put_change(out, tag::UNDO, *txn, *obj, *block, *slot)?,
        Vector::Commit { txn, flag } => {
            put_txn(out, tag::COMMIT, *txn)?;
            out.push(*flag as u8)?;
        }
        Vector::Abort { txn } => put_txn(out, tag::ABORT, *txn)?,
        Vector::Create {
            obj,
            extents,
            flag,
            columns,
        } => put_create(out, *obj, *extents, *flag, columns.as_slice())?,
        Vector::DropObject { obj } => put_obj(out, tag::DROP_OBJECT, *obj)?,
        Vector::AddColumn { obj, kind } => {
            put_obj(out, tag::ADD_COLUMN, *obj)?;
            out.push(kind_code(*kind))?;
        }
        Vector::NoInMemory { obj } => put_obj(out, tag::NO_IN_MEMORY, *obj)?,
        Vector::EndThread => {
            if count != 1 {
                return Err(WriteRefused::BadForm);
            }
            out.push(tag::END_THREAD)?;
        }
    }
    Ok(())
}

fn put_vectors(out: &mut Vec<u8>, vectors: &[Vector]) -> Result<(), WriteRefused>
    ensures written { OnOk result (out.new.items ≡ out.old.items ++ vectors_bytes vectors.now) }
    ensures good { OnOk result (AreVectors (length vectors.now) vectors.now) }
    ensures bad { result ≡ Err WriteRefused.BadForm → AreVectors (length vectors.now) vectors.now → ⊥ }
    ensures fits { result ≢ Err WriteRefused.TooLong }
{
    for vector in vectors {
        put_vector(out, vectors.len(), vector)?;
    }
    Ok(())
}

fn put_head(out: &mut Vec<u8>, len: u16, scn: Scn, count: u8) -> Result<(), AllocError>
    ensures { OnOk result (out.new.items ≡ out.old.items ++ (to_be_bytes w16 len ++ to_be_bytes w64 scn ++ count ∷ [])) }
{
    put_u16(out, len)?;
    put_u64(out, scn.get())?;
    out.push(count)?;
    Ok(())
}

/// Appends a record of this length.
fn put_record(out: &mut Vec<u8>, len: u16, scn: Scn, vectors: &[Vector]) -> Result<(), WriteRefused>
    requires { length vectors.now < 256 }
    ensures written { OnOk result (out.new.items ≡ out.old.items ++ framed len scn vectors.now) }
    ensures good { OnOk result (AreVectors (length vectors.now) vectors.now) }
    ensures bad { result ≡ Err WriteRefused.BadForm → AreVectors (length vectors.now) vectors.now → ⊥ }
    ensures fits { result ≢ Err WriteRefused.TooLong }
{
    put_head(out, len, scn, vectors.len() as u8)?;
    put_vectors(out, vectors)?;
    put_u16(out, len)?;
    Ok(())
}

/// The one spelling of a record. It comes exactly where the record has one, unless memory is wanting.
pub fn write_record(alloc: Global, redo: &RedoRecord) -> Result<Bytes, WriteRefused>
    ensures written { IfOk result (λ bytes. bytes ≡ record_bytes redo.now) }
    ensures good { OnOk result (IsRecord redo.now) }
    ensures too_long { result ≡ Err WriteRefused.TooLong → IsTooLong redo.now }
    ensures room { result ≡ Err WriteRefused.BadForm → IsTooLong redo.now → ⊥ }
    ensures bad { result ≡ Err WriteRefused.BadForm → IsRecord redo.now → ⊥ }
{
    let vectors = redo.vectors.as_slice();
    if vectors.len() > 255 {
        return Err(WriteRefused::TooLong);
    }
    let Some(left) = room_after_vectors(MOST_RECORD_BYTES - RECORD_OVERHEAD, vectors) else {
        return Err(WriteRefused::TooLong);
    };
    let len = MOST_RECORD_BYTES - left;
    if redo.scn.get() == 0 {
        return Err(WriteRefused::BadForm);
    }
    let mut out = Vec::with_capacity(alloc, len)?;
    put_record(&mut out, len as u16, redo.scn, vectors)?;
    Ok(List::from_vec(out))
}
