use adg_base::definition::Definition;
use adg_base::list::List;
use adg_base::log::LogEntry;
use adg_base::number::{Obj, Pos, Scn, Txn};
use adg_base::row::Row;
use adg_base::text::Text;
use adg_base::value::{ColKind, KindList, Value};
use adg_base::vector::Vector;
use adg_model::fault::CheckKind;
use adg_model::fault::CheckKind::{
    BadAddress, BadFlag, BadRow, NoObject, NothingToUndo, ObjectTwice, TxnTwice, TxnUnknown,
};
use dictionary::{Dictionary, RedoRefused};
use std::alloc::Global;
use std::test::Fail;

/// An entry in short: transaction, object, block, slot. A row or the kinds of columns are letters:
/// `i` an integer, `t` a text, `n` Null.
#[derive(Clone, Copy)]
enum Line {
    Begin(u64),
    Put(u64, u16, u16, u8, &'static [u8]),
    Delete(u64, u16, u16, u8),
    Undo(u64, u16, u16, u8),
    Commit(u64, bool),
    Abort(u64),
    Create(u16, u16, bool, &'static [u8]),
    Drop(u16),
    Add(u16),
    Plain(u16),
    End,
}

fn txn(number: u64) -> Result<Txn, Fail> {
    Ok(Txn::new(number).ok_or("a transaction")?)
}

fn obj(number: u16) -> Result<Obj, Fail> {
    Ok(Obj::new(number).ok_or("an object")?)
}

fn row(alloc: Global, letters: &[u8]) -> Result<Row, Fail> {
    let mut values = Vec::new(alloc);
    for letter in letters {
        values.push(match letter {
            b'i' => Value::Int(7),
            b't' => Value::Text(Text::new(alloc, b"x".as_slice())?),
            _ => Value::Null,
        })?;
    }
    Ok(Row::from_vec(alloc, values)?)
}

fn kinds(alloc: Global, letters: &[u8]) -> Result<KindList, Fail> {
    let mut kinds = List::new(alloc);
    for letter in letters {
        kinds.push(if *letter == b'i' {
            ColKind::Int
        } else {
            ColKind::Text
        })?;
    }
    Ok(kinds)
}

fn vector(alloc: Global, line: Line) -> Result<Vector, Fail> {
    Ok(match line {
        Line::Begin(t) => Vector::Begin { txn: txn(t)? },
        Line::Put(t, o, block, slot, letters) => Vector::Put {
            txn: txn(t)?,
            obj: obj(o)?,
            block,
            slot,
            row: row(alloc, letters)?,
        },
        Line::Delete(t, o, block, slot) => Vector::Delete {
            txn: txn(t)?,
            obj: obj(o)?,
            block,
            slot,
        },
        Line::Undo(t, o, block, slot) => Vector::Undo {
            txn: txn(t)?,
            obj: obj(o)?,
            block,
            slot,
        },
        Line::Commit(t, flag) => Vector::Commit { txn: txn(t)?, flag },
        Line::Abort(t) => Vector::Abort { txn: txn(t)? },
        Line::Create(o, extents, flag, letters) => Vector::Create {
            obj: obj(o)?,
            extents,
            flag,
            columns: kinds(alloc, letters)?,
        },
        Line::Drop(o) => Vector::DropObject { obj: obj(o)? },
        Line::Add(o) => Vector::AddColumn {
            obj: obj(o)?,
            kind: ColKind::Text,
        },
        Line::Plain(o) => Vector::NoInMemory { obj: obj(o)? },
        Line::End => Vector::EndThread,
    })
}

/// What the dictionary answers to the line as its next entry: None where it is accepted.
fn answer(
    alloc: Global,
    dictionary: &mut Dictionary,
    pos: u64,
    scn: u64,
    line: Line,
) -> Result<Option<CheckKind>, Fail> {
    let entry = LogEntry {
        pos: Pos::new(pos),
        scn: Scn::new(scn).ok_or("an SCN")?,
        thread: 1,
        number: 1,
        index: 1,
        vector: vector(alloc, line)?,
    };
    match dictionary.check(&entry) {
        Ok(()) => Ok(None),
        Err(RedoRefused::Check(check)) => Ok(Some(check)),
        Err(RedoRefused::Memory) => Err("memory")?,
    }
}

/// Each refusal beside a twin that is accepted, and the order of the checks where two fail.
#[test]
fn refusals(rt: HostRuntime) -> Result<(), Fail> {
    let script = [
        (Line::Begin(1), None),
        (Line::Begin(1), Some(TxnTwice)),
        (Line::Put(1, 1, 0, 0, b"it".as_slice()), Some(NoObject)),
        (Line::Put(9, 1, 0, 0, b"it".as_slice()), Some(TxnUnknown)),
        (Line::Create(1, 1, true, b"it".as_slice()), None),
        (
            Line::Create(1, 1, true, b"it".as_slice()),
            Some(ObjectTwice),
        ),
        (Line::Put(1, 1, 15, 63, b"it".as_slice()), None),
        (Line::Put(1, 1, 16, 63, b"it".as_slice()), Some(BadAddress)),
        (Line::Put(1, 1, 15, 64, b"it".as_slice()), Some(BadAddress)),
        (Line::Put(1, 1, 16, 0, b"ti".as_slice()), Some(BadAddress)),
        (Line::Put(1, 1, 0, 0, b"ti".as_slice()), Some(BadRow)),
        (Line::Put(1, 1, 0, 0, b"i".as_slice()), Some(BadRow)),
        (Line::Put(1, 1, 0, 0, b"itn".as_slice()), Some(BadRow)),
        (Line::Put(1, 1, 0, 0, b"nn".as_slice()), None),
        (Line::Delete(1, 1, 16, 0), Some(BadAddress)),
        (Line::Delete(9, 1, 0, 0), Some(TxnUnknown)),
        // an Undo wants a pending change of its own transaction, and strikes one
        (Line::Begin(2), None),
        (Line::Undo(2, 1, 15, 63), Some(NothingToUndo)),
        (Line::Undo(1, 1, 16, 0), Some(BadAddress)),
        (Line::Undo(9, 1, 15, 63), Some(TxnUnknown)),
        (Line::Put(1, 1, 15, 63, b"in".as_slice()), None),
        (Line::Undo(1, 1, 15, 63), None),
        (Line::Undo(1, 1, 15, 63), None),
        (Line::Undo(1, 1, 15, 63), Some(NothingToUndo)),
        (Line::Undo(1, 1, 1, 0), Some(NothingToUndo)),
        // a change that was struck stays noted, and an end forgets the pending changes
        (Line::Commit(1, false), Some(BadFlag)),
        (Line::Commit(9, false), Some(TxnUnknown)),
        (Line::Commit(1, true), None),
        (Line::Commit(1, true), Some(TxnUnknown)),
        (Line::Abort(1), Some(TxnUnknown)),
        (Line::Undo(1, 1, 0, 0), Some(TxnUnknown)),
        (Line::Begin(1), Some(TxnTwice)),
        (Line::Commit(2, true), Some(BadFlag)),
        (Line::Abort(2), None),
        // the object stops to be in-memory after the change, and before it
        (Line::Begin(3), None),
        (Line::Begin(4), None),
        (Line::Delete(3, 1, 0, 0), None),
        (Line::Plain(1), None),
        (Line::Delete(4, 1, 0, 0), None),
        (Line::Commit(3, false), Some(BadFlag)),
        (Line::Commit(3, true), None),
        (Line::Commit(4, true), Some(BadFlag)),
        (Line::Commit(4, false), None),
        // the last address of the most extents, and the next one
        (Line::Begin(5), None),
        (Line::Create(2, 256, false, b"t".as_slice()), None),
        (Line::Put(5, 2, 4095, 63, b"t".as_slice()), None),
        (Line::Put(5, 2, 4096, 0, b"t".as_slice()), Some(BadAddress)),
        (Line::Add(3), Some(NoObject)),
        (Line::Plain(3), Some(NoObject)),
        (Line::Drop(3), Some(NoObject)),
        // a dropped object is there no more, and is not made again
        (Line::Drop(2), None),
        (Line::Delete(5, 2, 4095, 63), Some(NoObject)),
        (Line::Undo(5, 2, 4095, 63), Some(NoObject)),
        (Line::Drop(2), Some(NoObject)),
        (Line::Add(2), Some(NoObject)),
        (Line::Plain(2), Some(NoObject)),
        (
            Line::Create(2, 1, false, b"t".as_slice()),
            Some(ObjectTwice),
        ),
        (Line::Abort(5), None),
        (Line::End, None),
    ];
    let alloc = rt.alloc();
    let mut dictionary = Dictionary::new(alloc);
    let mut pos = 0u64;
    for (i, (line, expected)) in script.iter().enumerate() {
        let found = answer(alloc, &mut dictionary, pos, 1, *line)?;
        assert_eq!(rt; found, *expected, "line {i}");
        if found.is_none() {
            pos = pos.saturating_add(1);
        }
    }
    Ok(())
}

/// Columns up to the sixteenth, and rows that have as many.
#[test]
fn columns(rt: HostRuntime) -> Result<(), Fail> {
    let alloc = rt.alloc();
    let mut dictionary = Dictionary::new(alloc);
    let create = Line::Create(1, 1, false, b"i".as_slice());
    assert_eq!(rt; answer(alloc, &mut dictionary, 0, 1, create)?, None);
    for pos in 1..16u64 {
        assert_eq!(rt; answer(alloc, &mut dictionary, pos, 1, Line::Add(1))?, None);
    }
    assert_eq!(rt;
        answer(alloc, &mut dictionary, 16, 1, Line::Add(1))?,
        Some(BadRow)
    );
    assert_eq!(rt;
        answer(alloc, &mut dictionary, 16, 1, Line::Begin(1))?,
        None
    );
    let rows = [
        (b"itttttttttttttti".as_slice(), Some(BadRow)),
        (b"itttttttttttttt".as_slice(), Some(BadRow)),
        (b"ittttttttttttttt".as_slice(), None),
    ];
    for (letters, expected) in rows {
        let put = Line::Put(1, 1, 0, 0, letters);
        assert_eq!(rt; answer(alloc, &mut dictionary, 17, 1, put)?, expected);
    }
    Ok(())
}

/// How many columns the object has at an SCN, and whether it is in-memory.
fn shape(dictionary: &Dictionary, object: u16, scn: u64) -> Result<Option<(u8, bool)>, Fail> {
    let found: Option<Definition> = dictionary.at(obj(object)?, Scn::new(scn).ok_or("an SCN")?);
    match found {
        Some(definition) => Ok(Some((definition.width, definition.flag))),
        None => Ok(None),
    }
}

/// The definition below, at and above each DDL entry, some of them in one SCN.
#[test]
fn definitions(rt: HostRuntime) -> Result<(), Fail> {
    let alloc = rt.alloc();
    let mut dictionary = Dictionary::new(alloc);
    let log = [
        (10, Line::Create(1, 1, true, b"i".as_slice())),
        (20, Line::Add(1)),
        (30, Line::Add(1)),
        (40, Line::Plain(1)),
        (50, Line::Drop(1)),
        (60, Line::Create(2, 1, true, b"i".as_slice())),
        (60, Line::Add(2)),
        (60, Line::Add(2)),
        (60, Line::Plain(2)),
        (60, Line::Create(3, 1, true, b"i".as_slice())),
        (60, Line::Drop(3)),
        (70, Line::Drop(2)),
    ];
    for (pos, (scn, line)) in log.iter().enumerate() {
        assert_eq!(rt;
            answer(alloc, &mut dictionary, pos as u64, *scn, *line)?,
            None
        );
    }
    let shapes = [
        (1, 9, None),
        (1, 10, Some((1, true))),
        (1, 19, Some((1, true))),
        (1, 20, Some((2, true))),
        (1, 30, Some((3, true))),
        (1, 39, Some((3, true))),
        (1, 40, Some((3, false))),
        (1, 49, Some((3, false))),
        (1, 50, None),
        (1, 1000, None),
        (2, 59, None),
        (2, 60, Some((3, false))),
        (2, 69, Some((3, false))),
        (2, 70, None),
        (3, 60, None),
        (4, 60, None),
    ];
    for (object, scn, expected) in shapes {
        assert_eq!(rt;
            shape(&dictionary, object, scn)?,
            expected,
            "{object} at {scn}"
        );
    }
    Ok(())
}
