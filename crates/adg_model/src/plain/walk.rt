//! What the entries of a log make, by walks over the whole log: one for each question.

ghost use Rattle.std.specs.Prelude.{◌≡◌, ◌∷◌, IfOk, OnOk, option_copied};
ghost use Rattle.std.specs.List.{position};
ghost use Rattle.adg_model.specs.Log.{upto};
ghost use Rattle.adg_model.specs.Database.{Database, after, database, played, struck};
ghost use Rattle.adg_base.specs.Address.{place, same_place};
ghost use Rattle.adg_model.specs.Plain.{no_rows};

use crate::admission::Columns;
use adg_base::list::{Duplicate, List};
use adg_base::log::{EntryList, LogEntry};
use adg_base::memory::Memory;
use adg_base::number::{Obj, Scn, Txn};
use adg_base::row::Row;
use adg_base::value::{ColKind, KindList};
use adg_base::vector::Vector;
use std::alloc::Global;
use std::marker::Model;

/// The row that a transaction sets at an address; none where it removes the row.
#[derive(Drop)]
pub struct PlainChange {
    obj: Obj,
    block: u16,
    slot: u8,
    row: Option<Row>,
}

impl Model for PlainChange {
    ghost use Rattle.adg_model.specs.Database.{Change};

    ghost Value = { Change };

    ghost view = { λ c. record { at = record { obj = c.obj; block = c.block; slot = c.slot }; row = c.row } };
}

/// The definition of an object: its extents, whether it is in-memory, and the kinds of its columns.
#[derive(Drop)]
pub struct PlainTable {
    extents: u16,
    flag: bool,
    kinds: KindList,
}

impl Model for PlainTable {
    ghost use Rattle.adg_model.specs.Database.{Table};

    ghost Value = { Table };

    ghost view = { λ t. record { extents = t.extents; flag = t.flag; kinds = t.kinds } };
}

impl PlainTable {
    /// How many extents it has.
    pub fn extents(&self) -> u16
        ensures { result ≡ self.now.extents }
    {
        self.extents
    }

    /// Whether it is in-memory.
    pub fn flag(&self) -> bool
        ensures { result ≡ self.now.flag }
    {
        self.flag
    }
}

impl Columns for PlainTable {
    ghost table = { λ t. t };

    fn kinds(&self) -> &[ColKind] {
        self.kinds.as_slice()
    }
}

impl PlainChange {
    fn is_at(&self, obj: Obj, block: u32, slot: u8) -> bool
        ensures { result ≡ same_place (place obj block slot) self.now.at }
    {
        obj == self.obj && block == u32::from(self.block) && slot == self.slot
    }
}

/// The entries with SCNs up to one.
pub fn entries_upto(alloc: Global, entries: &[LogEntry], q: Scn) -> Result<EntryList, Memory>
    ensures { IfOk result (λ kept. kept ≡ upto q entries.now) }
{
    let mut kept = List::new(alloc);
    for entry in entries {
        if entry.scn <= q {
            kept.push(entry.copy(alloc)?)?;
        }
    }
    Ok(kept)
}

/// The changes of a transaction that are pending after some entries, the latest first.
fn pending(alloc: Global, entries: &[LogEntry], txn: Txn) -> Result<Vec<PlainChange>, Memory>
    ensures { IfOk result (λ changes. changes.items ≡ (database entries.now).pending txn) }
{
    let mut changes = Vec::new(alloc);
    for entry in entries {
        follow(alloc, &mut changes, txn, &entry.vector)?;
    }
    Ok(changes)
}

/// What a vector makes of the pending changes of a transaction.
fn follow(
    alloc: Global,
    changes: &mut Vec<PlainChange>,
    txn: Txn,
    vector: &Vector,
) -> Result<(), Memory>
    ensures { OnOk result ((db : Database) → db.pending txn ≡ changes.old.items → (after db vector.now).pending txn ≡ changes.new.items) }
{
    match vector {
        Vector::Put {
            txn: writer,
            obj,
            block,
            slot,
            row,
        } => {
            if *writer == txn {
                let row = Some(row.copy(alloc)?);
                add(changes, *obj, *block, *slot, row)?;
            }
        }
        Vector::Delete {
            txn: remover,
            obj,
            block,
            slot,
        } => {
            if *remover == txn {
                add(changes, *obj, *block, *slot, None)?;
            }
        }
        Vector::Undo {
            txn: owner,
            obj,
            block,
            slot,
        } => {
            if *owner == txn {
                strike(changes, *obj, *block, *slot);
            }
        }
        Vector::Commit { txn: ended, .. } | Vector::Abort { txn: ended } => {
            if *ended == txn {
                changes.clear();
            }
        }
        Vector::Begin { .. }
        | Vector::Create { .. }
        | Vector::DropObject { .. }
        | Vector::AddColumn { .. }
        | Vector::NoInMemory { .. }
        | Vector::EndThread => {}
    }
    Ok(())
}

fn add(
    changes: &mut Vec<PlainChange>,
    obj: Obj,
    block: u16,
    slot: u8,
    row: Option<Row>,
) -> Result<(), Memory>
    ensures { OnOk result (changes.new.items ≡ record { at = place obj block slot; row = row } ∷ changes.old.items) }
{
    let change = PlainChange {
        obj,
        block,
        slot,
        row,
    };
    changes.insert(0, change)?;
    Ok(())
}

/// Takes back the latest change at an address.
fn strike(changes: &mut Vec<PlainChange>, obj: Obj, block: u16, slot: u8)
    ensures { changes.new.items ≡ struck (place obj block slot) changes.old.items }
{
    match latest_at(changes.as_slice(), obj, block, slot) {
        Some(index) => {
            changes.remove(index);
        }
        None => {}
    }
}

fn latest_at(changes: &[PlainChange], obj: Obj, block: u16, slot: u8) -> Option<usize>
    ensures { result ≡ position (λ c. same_place (place obj block slot) c.at) changes.now }
{
    changes
        .iter()
        .position(|change| change.is_at(obj, u32::from(block), slot))
}

/// The changes that are committed by some entries, the latest first: a transaction's changes all
/// come where it commits.
pub fn committed(alloc: Global, entries: &[LogEntry]) -> Result<Vec<PlainChange>, Memory>
    ensures { IfOk result (λ changes. played changes.items no_rows ≡ (database entries.now).rows) }
{
    let mut changes = Vec::new(alloc);
    for (index, entry) in entries.iter().enumerate() {
        commit(alloc, &mut changes, &entries[..index], &entry.vector)?;
    }
    Ok(changes)
}

/// What a vector makes of the changes that the entries before it have committed.
fn commit(
    alloc: Global,
    changes: &mut Vec<PlainChange>,
    before: &[LogEntry],
    vector: &Vector,
) -> Result<(), Memory>
    ensures { OnOk result (played changes.old.items no_rows ≡ (database before.now).rows → played changes.new.items no_rows ≡ (after (database before.now) vector.now).rows) }
{
    match vector {
        Vector::Commit { txn, .. } => {
            let mut latest = pending(alloc, before, *txn)?;
            latest.append(changes)?;
            *changes = latest;
            Ok(())
        }
        Vector::Begin { .. }
        | Vector::Put { .. }
        | Vector::Delete { .. }
        | Vector::Undo { .. }
        | Vector::Abort { .. }
        | Vector::Create { .. }
        | Vector::DropObject { .. }
        | Vector::AddColumn { .. }
        | Vector::NoInMemory { .. }
        | Vector::EndThread => Ok(()),
    }
}

/// The row at an address after some changes, the latest of which comes first.
pub fn row_at(changes: &[PlainChange], obj: Obj, block: u32, slot: u8) -> Option<&Row>
    ensures { option_copied result ≡ played changes.now no_rows (place obj block slot) }
{
    for change in changes {
        if change.is_at(obj, block, slot) {
            return change.row.as_ref();
        }
    }
    None
}

/// The definition that some entries give an object.
pub fn table(alloc: Global, entries: &[LogEntry], obj: Obj) -> Result<Option<PlainTable>, Memory>
    ensures { IfOk result (λ table. table ≡ (database entries.now).tables obj) }
{
    let mut table = None;
    for entry in entries {
        define(alloc, &mut table, obj, &entry.vector)?;
    }
    Ok(table)
}

/// What a vector makes of the definition of an object.
fn define(
    alloc: Global,
    table: &mut Option<PlainTable>,
    obj: Obj,
    vector: &Vector,
) -> Result<(), Memory>
    ensures { OnOk result ((db : Database) → db.tables obj ≡ table.old → (after db vector.now).tables obj ≡ table.new) }
{
    match vector {
        Vector::Create {
            obj: of,
            extents,
            flag,
            columns,
        } => {
            if *of == obj {
                let kinds = columns.copy(alloc)?;
                *table = Some(PlainTable {
                    extents: *extents,
                    flag: *flag,
                    kinds,
                });
            }
        }
        Vector::DropObject { obj: of } => {
            if *of == obj {
                *table = None;
            }
        }
        Vector::AddColumn { obj: of, kind } => {
            if *of == obj
                && let Some(table) = table
            {
                table.kinds.push(*kind)?;
            }
        }
        Vector::NoInMemory { obj: of } => {
            if *of == obj
                && let Some(table) = table
            {
                table.flag = false;
            }
        }
        Vector::Begin { .. }
        | Vector::Put { .. }
        | Vector::Delete { .. }
        | Vector::Undo { .. }
        | Vector::Commit { .. }
        | Vector::Abort { .. }
        | Vector::EndThread => {}
    }
    Ok(())
}
