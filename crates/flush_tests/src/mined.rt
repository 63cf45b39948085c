use adg_base::address::Addr;
use adg_base::list::List;
use adg_base::log::LogEntry;
use adg_base::number::{Obj, Pos, Scn, Txn};
use adg_base::row::Row;
use adg_base::value::{ColKind, Value};
use adg_base::vector::Vector;
use dictionary::Dictionary;
use mining::{Mined, mine};
use std::alloc::Global;
use std::test::Fail;

/// An entry in short: transaction, object, block, slot, and the flag of a commit or of an object.
#[derive(Clone, Copy)]
enum Line {
    Begin(u64),
    Put(u64, u16, u16, u8),
    Delete(u64, u16, u16, u8),
    Undo(u64, u16, u16, u8),
    Commit(u64, bool),
    Abort(u64),
    Create(u16, bool),
    Drops(u16),
    Add(u16),
    Plain(u16),
    Ends,
}

/// What it notes, in short.
#[derive(Clone, Copy)]
enum Noted {
    Nothing,
    Begun(u64),
    At(u64, u16, u16, u8),
    Committed(u64, bool),
    Aborted(u64),
    Changed(u16),
}

use Line::{Abort, Add, Begin, Commit, Create, Delete, Drops, Ends, Plain, Put, Undo};
use Noted::{Aborted, At, Begun, Changed, Committed, Nothing};

/// A log: what a line shows, its SCN, the entry, and what it notes. t1, t3 and t4 are in-memory and t2
/// is plain; t3 is dropped at 13, and t1 is no longer in-memory from 20 on.
static LOG: [(&str, u64, Line, Noted); 39] = [
    ("in-memory object", 10, Create(1, true), Nothing),
    ("plain object", 10, Create(2, false), Nothing),
    ("object to drop", 10, Create(3, true), Nothing),
    ("object to widen", 10, Create(4, true), Nothing),
    ("begin", 11, Begin(7), Begun(7)),
    ("put", 11, Put(7, 1, 0, 0), At(7, 1, 0, 0)),
    ("delete", 11, Delete(7, 1, 0, 1), At(7, 1, 0, 1)),
    ("undo", 11, Undo(7, 1, 0, 0), At(7, 1, 0, 0)),
    ("last place", 11, Put(7, 1, 4095, 63), At(7, 1, 4095, 63)),
    ("plain put", 11, Put(7, 2, 0, 0), Nothing),
    ("plain delete", 11, Delete(7, 2, 0, 1), Nothing),
    ("plain undo", 11, Undo(7, 2, 0, 0), Nothing),
    ("last name", 11, Begin(u64::MAX), Begun(u64::MAX)),
    ("abort", 11, Abort(u64::MAX), Aborted(u64::MAX)),
    ("put before drop", 12, Put(7, 3, 0, 0), At(7, 3, 0, 0)),
    ("put beside drop", 13, Put(7, 3, 0, 1), Nothing),
    ("drop", 13, Drops(3), Changed(3)),
    ("plain column", 13, Add(2), Changed(2)),
    ("put beside column", 14, Put(7, 4, 0, 0), At(7, 4, 0, 0)),
    ("column", 14, Add(4), Changed(4)),
    ("and behind", 14, Delete(7, 4, 0, 1), At(7, 4, 0, 1)),
    ("put below", 19, Put(7, 1, 1, 0), At(7, 1, 1, 0)),
    ("undo below", 19, Undo(7, 1, 4095, 63), At(7, 1, 4095, 63)),
    ("put beside, before", 20, Put(7, 1, 1, 1), Nothing),
    ("delete beside, before", 20, Delete(7, 1, 1, 2), Nothing),
    ("undo beside, before", 20, Undo(7, 1, 1, 0), Nothing),
    ("no longer in-memory", 20, Plain(1), Changed(1)),
    ("put beside, behind", 20, Put(7, 1, 1, 3), Nothing),
    ("delete beside, behind", 20, Delete(7, 1, 1, 4), Nothing),
    ("undo beside, behind", 20, Undo(7, 1, 1, 3), Nothing),
    ("put above", 21, Put(7, 1, 1, 5), Nothing),
    ("delete above", 21, Delete(7, 1, 1, 6), Nothing),
    ("undo above", 21, Undo(7, 1, 1, 5), Nothing),
    ("once more", 22, Plain(1), Changed(1)),
    ("commit", 23, Commit(7, true), Committed(7, true)),
    ("third begin", 24, Begin(9), Begun(9)),
    ("plain now", 24, Delete(9, 1, 0, 0), Nothing),
    ("no flag", 24, Commit(9, false), Committed(9, false)),
    ("end of the thread", 25, Ends, Nothing),
];

fn txn(number: u64) -> Result<Txn, Fail> {
    Ok(Txn::new(number).ok_or("a transaction")?)
}

fn obj(number: u16) -> Result<Obj, Fail> {
    Ok(Obj::new(number).ok_or("an object")?)
}

/// Objects have one column and 256 extents.
fn create(alloc: Global, object: u16, flag: bool) -> Result<Vector, Fail> {
    Ok(Vector::Create {
        obj: obj(object)?,
        extents: 256,
        flag,
        columns: List::from_slice(alloc, [ColKind::Int].as_slice())?,
    })
}

fn put(alloc: Global, t: u64, o: u16, block: u16, slot: u8) -> Result<Vector, Fail> {
    Ok(Vector::Put {
        txn: txn(t)?,
        obj: obj(o)?,
        block,
        slot,
        row: Row::from_vec(alloc, vec![in alloc; Value::Int(7)]?)?,
    })
}

fn vector(alloc: Global, line: Line) -> Result<Vector, Fail> {
    Ok(match line {
        Begin(t) => Vector::Begin { txn: txn(t)? },
        Put(t, o, block, slot) => put(alloc, t, o, block, slot)?,
        Delete(t, o, block, slot) => Vector::Delete {
            txn: txn(t)?,
            obj: obj(o)?,
            block,
            slot,
        },
        Undo(t, o, block, slot) => Vector::Undo {
            txn: txn(t)?,
            obj: obj(o)?,
            block,
            slot,
        },
        Commit(t, flag) => Vector::Commit { txn: txn(t)?, flag },
        Abort(t) => Vector::Abort { txn: txn(t)? },
        Create(o, flag) => create(alloc, o, flag)?,
        Drops(o) => Vector::DropObject { obj: obj(o)? },
        Add(o) => Vector::AddColumn {
            obj: obj(o)?,
            kind: ColKind::Text,
        },
        Plain(o) => Vector::NoInMemory { obj: obj(o)? },
        Ends => Vector::EndThread,
    })
}

fn wanted(noted: Noted) -> Result<Option<Mined>, Fail> {
    Ok(match noted {
        Nothing => None,
        Begun(t) => Some(Mined::Begin { txn: txn(t)? }),
        At(t, o, block, slot) => Some(Mined::Note {
            txn: txn(t)?,
            addr: Addr::new(obj(o)?, block, slot).ok_or("an address")?,
        }),
        Committed(t, flag) => Some(Mined::End {
            txn: txn(t)?,
            flag,
            committed: true,
        }),
        Aborted(t) => Some(Mined::End {
            txn: txn(t)?,
            flag: false,
            committed: false,
        }),
        Changed(o) => Some(Mined::Ddl { obj: obj(o)? }),
    })
}

/// Each entry is mined when the dictionary has all of them.
#[test]
fn notes_of_a_log(rt: HostRuntime) -> Result<(), Fail> {
    let alloc = rt.alloc();
    let mut dictionary = Dictionary::new(alloc);
    let mut entries = Vec::new(alloc);
    for (pos, (name, scn, line, _)) in LOG.iter().enumerate() {
        let entry = LogEntry {
            pos: Pos::new(pos as u64),
            scn: Scn::new(*scn).ok_or("an SCN")?,
            thread: 1,
            number: 1,
            index: 1,
            vector: vector(alloc, *line)?,
        };
        assert!(rt; dictionary.check(&entry).is_ok(), "{name}");
        entries.push(entry)?;
    }
    for (entry, (name, _, _, noted)) in entries.iter().zip(LOG.iter()) {
        assert_eq!(rt; mine(entry, &dictionary), wanted(*noted)?, "{name}");
    }
    Ok(())
}
