use adg_base::address::{Addr, AddrList};
use adg_base::number::{Obj, Txn};
use adg_journal::area::Area;
use std::alloc::Global;
use std::test::Fail;

/// What is done with an area, and what comes of it. An address is the number of its slot in t1.0.
#[derive(Clone, Copy)]
enum Step {
    Note(u64, u8),
    Begin(u64),
    /// Whether the beginning of a transaction is held.
    End(u64, bool),
    /// The addresses of a transaction; None where nothing is held of it.
    Collect(u64, Option<&'static [u8]>),
}

use Step::{Begin, Collect, End, Note};

/// Three transactions, interleaved.
static STEPS: [(&str, Step); 32] = [
    ("nothing is held at first", Collect(7, None)),
    ("nor a beginning", End(7, false)),
    ("the first begins", Begin(7)),
    ("it has begun", End(7, true)),
    ("the second has not", End(8, false)),
    ("the first changes a row", Note(7, 5)),
    ("the second, not begun here, the same one", Note(8, 5)),
    ("the first another", Note(7, 3)),
    ("the third begins", Begin(9)),
    ("the second another", Note(8, 9)),
    ("the first the first again", Note(7, 5)),
    ("the first a lower one", Note(7, 1)),
    ("the second the first again", Note(8, 5)),
    ("the first begins again", Begin(7)),
    ("the second has still not begun", End(8, false)),
    (
        "the third is collected with no address",
        Collect(9, Some(&[])),
    ),
    ("nothing is held of it", Collect(9, None)),
    ("nor its beginning", End(9, false)),
    (
        "the first is collected in the order first noted",
        Collect(7, Some(&[5, 3, 1])),
    ),
    ("nothing is held of it", Collect(7, None)),
    ("nor its beginning", End(7, false)),
    ("the second changes a row more", Note(8, 2)),
    ("the first, again, the last", Note(7, 1)),
    (
        "the second is collected whole",
        Collect(8, Some(&[5, 9, 2])),
    ),
    ("the first anew", Collect(7, Some(&[1]))),
    ("its beginning was not held", End(7, false)),
    ("the third begins after a change", Note(9, 63)),
    ("a change first", End(9, false)),
    ("then its beginning", Begin(9)),
    ("both are held", End(9, true)),
    ("both are collected", Collect(9, Some(&[63]))),
    ("nothing is left", Collect(9, None)),
];

fn addr(block: u16, slot: u8) -> Result<Addr, Fail> {
    let obj = Obj::new(1).ok_or("an object")?;
    Ok(Addr::new(obj, block, slot).ok_or("a slot")?)
}

fn slots(alloc: Global, addrs: &AddrList) -> Result<Vec<u8>, Fail> {
    let mut slots = Vec::new(alloc);
    for addr in addrs.as_slice() {
        slots.push(addr.slot())?;
    }
    Ok(slots)
}

/// Takes a step; false where what comes of it is not what is expected.
fn is_expected(alloc: Global, area: &mut Area, step: Step) -> Result<bool, Fail> {
    let number = |txn| Txn::new(txn).ok_or("a transaction");
    match step {
        Note(txn, slot) => area.note(number(txn)?, addr(0, slot)?)?,
        Begin(txn) => area.begin(number(txn)?)?,
        End(txn, expected) => return Ok(area.end(number(txn)?) == expected),
        Collect(txn, expected) => match (area.collect(number(txn)?), expected) {
            (Some(addrs), Some(expected)) => {
                return Ok(slots(alloc, &addrs)?.as_slice() == expected);
            }
            (found, _) => return Ok(found.is_none() && expected.is_none()),
        },
    }
    Ok(true)
}

#[test]
fn interleaved(rt: HostRuntime) -> Result<(), Fail> {
    let alloc = rt.alloc();
    let mut area = Area::new(alloc);
    for (name, step) in &STEPS {
        assert!(rt; is_expected(alloc, &mut area, *step)?, "{name}");
    }
    Ok(())
}

/// Far more addresses than are looked at one by one, each noted three times: in turn, and from the
/// last back. They are collected in the order first noted.
#[test]
fn many(rt: HostRuntime) -> Result<(), Fail> {
    let alloc = rt.alloc();
    let mut area = Area::new(alloc);
    let txn = Txn::new(7).ok_or("a transaction")?;
    for block in 0..100u16 {
        area.note(txn, addr(block, 1)?)?;
        area.note(txn, addr(block / 2, 1)?)?;
    }
    for block in (0..100u16).rev() {
        area.note(txn, addr(block, 1)?)?;
    }
    let addrs = area.collect(txn).ok_or("nothing")?;
    assert_eq!(rt; addrs.len(), 100);
    for (block, found) in addrs.as_slice().iter().enumerate() {
        assert_eq!(rt; usize::from(found.block()), block);
    }
    Ok(())
}
