//! The text of values, vectors and records.

ghost use Rattle.std.specs.Prelude.{◌≡◌, ◌++◌, ◌∷◌, OnOk, codes};
ghost use Rattle.std.specs.List.{flat_map};
ghost use Rattle.std.specs.Fmt.{decimal, signed_decimal};
ghost use Rattle.feed_text.specs.Words.{value_text, kind_text, bracketed, change_text, commit_flag, create_flag, vector_text, vectors_text, record_text, records_text};

use adg_base::number::{Obj, Txn};
use adg_base::value::{ColKind, Value};
use adg_base::vector::{RedoRecord, Vector};
use std::alloc::{AllocError, Global};

/// Adds a number in decimal.
pub fn put_number(out: &mut Vec<u8>, alloc: Global, number: u64) -> Result<(), AllocError>
    ensures { OnOk result (out.new.items ≡ out.old.items ++ decimal number) }
{
    let digits = format!(in alloc; "{number}")?;
    out.extend_from_slice(digits.as_bytes())?;
    Ok(())
}

fn put_integer(out: &mut Vec<u8>, alloc: Global, number: i64) -> Result<(), AllocError>
    ensures { OnOk result (out.new.items ≡ out.old.items ++ signed_decimal number) }
{
    let digits = format!(in alloc; "{number}")?;
    out.extend_from_slice(digits.as_bytes())?;
    Ok(())
}

/// Adds a word, and a number behind it.
pub fn put_named(
    out: &mut Vec<u8>,
    alloc: Global,
    word: &[u8],
    number: u64,
) -> Result<(), AllocError>
    ensures { OnOk result (out.new.items ≡ out.old.items ++ (word.now ++ decimal number)) }
{
    out.extend_from_slice(word)?;
    put_number(out, alloc, number)
}

/// Adds a word, and the number of an object behind it.
fn put_obj(out: &mut Vec<u8>, alloc: Global, word: &[u8], obj: Obj) -> Result<(), AllocError>
    ensures { OnOk result (out.new.items ≡ out.old.items ++ (word.now ++ decimal obj)) }
{
    put_named(out, alloc, word, obj.get() as u64)
}

fn put_value(out: &mut Vec<u8>, alloc: Global, value: &Value) -> Result<(), AllocError>
    ensures { OnOk result (out.new.items ≡ out.old.items ++ value_text value.now) }
{
    match value {
        Value::Null => out.extend_from_slice(b"NULL")?,
        Value::Int(number) => put_integer(out, alloc, *number)?,
        Value::Text(text) => {
            out.extend_from_slice(b"'")?;
            out.extend_from_slice(text.as_bytes())?;
            out.extend_from_slice(b"'")?;
        }
    }
    Ok(())
}

fn put_other_values(out: &mut Vec<u8>, alloc: Global, values: &[Value]) -> Result<(), AllocError>
    ensures { OnOk result (out.new.items ≡ out.old.items ++ flat_map (λ y. codes ", " ++ value_text y) values.now) }
{
    for value in values {
        out.extend_from_slice(b", ")?;
        put_value(out, alloc, value)?;
    }
    Ok(())
}

fn put_some_values(
    out: &mut Vec<u8>,
    alloc: Global,
    first: &Value,
    others: &[Value],
) -> Result<(), AllocError>
    ensures { OnOk result (out.new.items ≡ out.old.items ++ bracketed value_text (first.now ∷ others.now)) }
{
    out.extend_from_slice(b" (")?;
    put_value(out, alloc, first)?;
    put_other_values(out, alloc, others)?;
    out.extend_from_slice(b")")?;
    Ok(())
}

fn put_row(out: &mut Vec<u8>, alloc: Global, values: &[Value]) -> Result<(), AllocError>
    ensures { OnOk result (out.new.items ≡ out.old.items ++ bracketed value_text values.now) }
{
    match values.split_first() {
        None => out.extend_from_slice(b" ()"),
        Some((first, others)) => put_some_values(out, alloc, first, others),
    }
}

fn kind_word(kind: ColKind) -> &'static [u8]
    ensures { result.now ≡ kind_text kind }
{
    match kind {
        ColKind::Int => b"int",
        ColKind::Text => b"text",
    }
}

fn put_other_kinds(out: &mut Vec<u8>, kinds: &[ColKind]) -> Result<(), AllocError>
    ensures { OnOk result (out.new.items ≡ out.old.items ++ flat_map (λ y. codes ", " ++ kind_text y) kinds.now) }
{
    for kind in kinds {
        out.extend_from_slice(b", ")?;
        out.extend_from_slice(kind_word(*kind))?;
    }
    Ok(())
}

fn put_some_kinds(out: &mut Vec<u8>, first: ColKind, others: &[ColKind]) -> Result<(), AllocError>
    ensures { OnOk result (out.new.items ≡ out.old.items ++ bracketed kind_text (first ∷ others.now)) }
{
    out.extend_from_slice(b" (")?;
    out.extend_from_slice(kind_word(first))?;
    put_other_kinds(out, others)?;
    out.extend_from_slice(b")")?;
    Ok(())
}

fn put_columns(out: &mut Vec<u8>, kinds: &[ColKind]) -> Result<(), AllocError>
    ensures { OnOk result (out.new.items ≡ out.old.items ++ bracketed kind_text kinds.now) }
{
    match kinds.split_first() {
        None => out.extend_from_slice(b" ()"),
        Some((first, others)) => put_some_kinds(out, *first, others),
    }
}

/// Adds a word, and a transaction and an address behind it.
fn put_change(
    out: &mut Vec<u8>,
    alloc: Global,
    word: &[u8],
    txn: Txn,
    obj: Obj,
    block: u16,
    slot: u8,
) -> Result<(), AllocError>
    ensures { OnOk result (out.new.items ≡ out.old.items ++ (word.now ++ change_text txn obj block slot)) }
{
    put_named(out, alloc, word, txn.get())?;
    put_obj(out, alloc, b" t", obj)?;
    put_named(out, alloc, b".", block as u64)?;
    put_named(out, alloc, b".", slot as u64)
}

fn commit_word(flag: bool) -> &'static [u8]
    ensures { result.now ≡ commit_flag flag }
{
    if flag { b" +" } else { b" -" }
}

fn create_word(flag: bool) -> &'static [u8]
    ensures { result.now ≡ create_flag flag }
{
    if flag { b" im" } else { b" plain" }
}

fn put_create(
    out: &mut Vec<u8>,
    alloc: Global,
    obj: Obj,
    extents: u16,
    flag: bool,
    columns: &[ColKind],
) -> Result<(), AllocError>
    ensures { OnOk result (out.new.items ≡ out.old.items ++ vector_text (Vector.Create obj extents flag columns.now)) }
{
    put_obj(out, alloc, b"Create t", obj)?;
    put_named(out, alloc, b" x", extents as u64)?;
    out.extend_from_slice(create_word(flag))?;
    put_columns(out, columns)
}

fn put_column(out: &mut Vec<u8>, alloc: Global, obj: Obj, kind: ColKind) -> Result<(), AllocError>
    ensures { OnOk result (out.new.items ≡ out.old.items ++ vector_text (Vector.AddColumn obj kind)) }
{
    put_obj(out, alloc, b"AddColumn t", obj)?;
    out.extend_from_slice(b" ")?;
    out.extend_from_slice(kind_word(kind))?;
    Ok(())
}

fn put_vector(out: &mut Vec<u8>, alloc: Global, vector: &Vector) -> Result<(), AllocError>
    ensures { OnOk result (out.new.items ≡ out.old.items ++ vector_text vector.now) }
{
    match vector {
        Vector::Begin { txn } => put_named(out, alloc, b"Begin ", txn.get())?,
        Vector::Put {
            txn,
            obj,
            block,
            slot,
            row,
        } => {
            put_change(out, alloc, b"Put ", *txn, *obj, *block, *slot)?;
            put_row(out, alloc, row.as_slice())?;
        }
        Vector::Delete {
            txn,
            obj,
            block,
            slot,
        } => put_change(out, alloc, b"Delete ", *txn, *obj, *block, *slot)?,
        Vector::Undo {
            txn,
            obj,
            block,
            slot,
        } => put_change(out, alloc, b"Undo ", *txn, *obj, *block, *slot)?,
        Vector::Commit { txn, flag } => {
            put_named(out, alloc, b"Commit ", txn.get())?;
            out.extend_from_slice(commit_word(*flag))?;
        }
        Vector::Abort { txn } => put_named(out, alloc, b"Abort ", txn.get())?,
        Vector::Create {
            obj,
            extents,
            flag,
            columns,
        } => put_create(out, alloc, *obj, *extents, *flag, columns.as_slice())?,
        Vector::DropObject { obj } => put_obj(out, alloc, b"DropObject t", *obj)?,
        Vector::AddColumn { obj, kind } => put_column(out, alloc, *obj, *kind)?,
        Vector::NoInMemory { obj } => put_obj(out, alloc, b"NoInMemory t", *obj)?,
        Vector::EndThread => out.extend_from_slice(b"EndThread")?,
    }
    Ok(())
}

fn put_other_vectors(out: &mut Vec<u8>, alloc: Global, vectors: &[Vector]) -> Result<(), AllocError>
    ensures { OnOk result (out.new.items ≡ out.old.items ++ flat_map (λ w. codes "; " ++ vector_text w) vectors.now) }
{
    for vector in vectors {
        out.extend_from_slice(b"; ")?;
        put_vector(out, alloc, vector)?;
    }
    Ok(())
}

fn put_some_vectors(
    out: &mut Vec<u8>,
    alloc: Global,
    first: &Vector,
    others: &[Vector],
) -> Result<(), AllocError>
    ensures { OnOk result (out.new.items ≡ out.old.items ++ vectors_text (first.now ∷ others.now)) }
{
    out.extend_from_slice(b" ")?;
    put_vector(out, alloc, first)?;
    put_other_vectors(out, alloc, others)
}

fn put_vectors(out: &mut Vec<u8>, alloc: Global, vectors: &[Vector]) -> Result<(), AllocError>
    ensures { OnOk result (out.new.items ≡ out.old.items ++ vectors_text vectors.now) }
{
    match vectors.split_first() {
        None => Ok(()),
        Some((first, others)) => put_some_vectors(out, alloc, first, others),
    }
}

fn put_record(out: &mut Vec<u8>, alloc: Global, redo: &RedoRecord) -> Result<(), AllocError>
    ensures { OnOk result (out.new.items ≡ out.old.items ++ record_text redo.now) }
{
    put_number(out, alloc, redo.scn.get())?;
    out.extend_from_slice(b":")?;
    put_vectors(out, alloc, redo.vectors.as_slice())
}

fn put_other_records(
    out: &mut Vec<u8>,
    alloc: Global,
    records: &[RedoRecord],
) -> Result<(), AllocError>
    ensures { OnOk result (out.new.items ≡ out.old.items ++ flat_map (λ s. codes " | @" ++ record_text s) records.now) }
{
    for redo in records {
        out.extend_from_slice(b" | @")?;
        put_record(out, alloc, redo)?;
    }
    Ok(())
}

fn put_some_records(
    out: &mut Vec<u8>,
    alloc: Global,
    first: &RedoRecord,
    others: &[RedoRecord],
) -> Result<(), AllocError>
    ensures { OnOk result (out.new.items ≡ out.old.items ++ records_text (first.now ∷ others.now)) }
{
    put_record(out, alloc, first)?;
    put_other_records(out, alloc, others)
}

/// Adds records, a bar between them.
pub fn put_records(
    out: &mut Vec<u8>,
    alloc: Global,
    records: &[RedoRecord],
) -> Result<(), AllocError>
    ensures { OnOk result (out.new.items ≡ out.old.items ++ records_text records.now) }
{
    match records.split_first() {
        None => Ok(()),
        Some((first, others)) => put_some_records(out, alloc, first, others),
    }
}
