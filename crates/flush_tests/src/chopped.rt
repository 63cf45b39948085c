use NodeKind::{Aborted, Committed};
use adg_base::address::Addr;
use adg_base::list::{Duplicate, List};
use adg_base::node::{DdlNode, Item, Node, NodeKind};
use adg_base::number::{Obj, Pos, Scn, Txn};
use std::alloc::Global;
use std::process::Abort;
use std::test::Fail;
use worklinks::chop;
use worklinks::collected::{Collected, CollectedList};
use worklinks::worklink::{Worklink, WorklinkList};

/// What has to be done for a transaction.
#[derive(Clone, Copy)]
enum Deed {
    Change,
    Coarse,
    Forget,
}

/// How a transaction ended, whether all its changes were noted, and what has to be done for it.
static ENDS: [(NodeKind, bool, Deed); 6] = [
    (Committed { flag: true }, true, Deed::Change),
    (Committed { flag: true }, false, Deed::Coarse),
    (Committed { flag: false }, true, Deed::Forget),
    (Committed { flag: false }, false, Deed::Forget),
    (Aborted, true, Deed::Forget),
    (Aborted, false, Deed::Forget),
];

/// So many ends and changes of definitions, the workers, and how many items the worklinks have.
static FLUSHES: [(&str, usize, usize, u8, &[usize]); 12] = [
    ("nothing", 0, 0, 8, &[]),
    ("one end", 1, 0, 1, &[1]),
    ("one change", 0, 1, 2, &[1]),
    ("one full", 64, 0, 8, &[64]),
    ("one more than full", 65, 0, 8, &[64, 1]),
    ("two full and one", 129, 0, 8, &[64, 64, 1]),
    ("full with a change", 63, 1, 3, &[64]),
    ("the changes in two", 63, 2, 3, &[64, 1]),
    ("a change alone", 64, 1, 3, &[64, 1]),
    ("changes in two", 0, 65, 4, &[64, 1]),
    ("three full", 129, 63, 4, &[64, 64, 64]),
    ("as many workers as fit", 1, 0, 255, &[1]),
];

/// The line of the end at a place, where the first end has line `from`.
fn end_at(from: usize, at: usize) -> Result<(NodeKind, bool, Deed), Fail> {
    let line = ENDS.get(from.wrapping_add(at) % 6);
    Ok(*line.ok_or("no such line")?)
}

fn txn_at(at: usize) -> Result<Txn, Fail> {
    Ok(Txn::new((at as u64).wrapping_add(100)).ok_or("a transaction")?)
}

fn obj_at(at: usize) -> Result<Obj, Fail> {
    Ok(Obj::new(u16::try_from(at.wrapping_add(1))?).ok_or("an object")?)
}

fn ends(alloc: Global, from: usize, count: usize) -> Result<Vec<Node>, Fail> {
    let mut nodes = Vec::new(alloc);
    for at in 0..count {
        let (kind, complete, _) = end_at(from, at)?;
        nodes.push(Node {
            scn: Scn::new(10).ok_or("an SCN")?,
            pos: Pos::new(at as u64),
            txn: txn_at(at)?,
            complete,
            kind,
        })?;
    }
    Ok(nodes)
}

fn changes(alloc: Global, count: usize) -> Result<Vec<DdlNode>, Fail> {
    let mut nodes = Vec::new(alloc);
    for at in 0..count {
        nodes.push(DdlNode {
            scn: Scn::new(10).ok_or("an SCN")?,
            obj: obj_at(at)?,
        })?;
    }
    Ok(nodes)
}

/// The item at a place of a flush of so many ends.
fn item_at(from: usize, count: usize, at: usize) -> Result<Item, Fail> {
    if at >= count {
        return Ok(Item::DropObject {
            obj: obj_at(at.wrapping_sub(count))?,
        });
    }
    let txn = txn_at(at)?;
    Ok(match end_at(from, at)?.2 {
        Deed::Change => Item::Change { txn },
        Deed::Coarse => Item::Coarse { txn },
        Deed::Forget => Item::Forget { txn },
    })
}

/// All items of worklinks, one after another.
fn items_of(alloc: Global, links: &WorklinkList) -> Result<Vec<Item>, Fail> {
    let mut items = Vec::new(alloc);
    for link in links.as_slice() {
        items.extend_from_slice(link.items.as_slice())?;
    }
    Ok(items)
}

/// Each worklink has as many items as wanted and is ready for so many workers.
fn has_shape(rt: &impl Abort, links: &WorklinkList, workers: u8, lengths: &[usize], name: &str) {
    assert_eq!(rt; links.len(), lengths.len(), "{name}");
    for (link, length) in links.as_slice().iter().zip(lengths) {
        assert_eq!(rt; link.items.len(), *length, "{name}");
        assert!(rt; link.collected.as_slice().is_empty(), "{name}");
        let room = length.wrapping_mul(usize::from(workers));
        assert_eq!(rt; link.collected.room(), room, "{name}");
    }
}

/// The worklinks of so many ends and changes, where the first end has line `from`.
fn links_of(
    alloc: Global,
    from: usize,
    count: usize,
    drops: usize,
    workers: u8,
) -> Result<WorklinkList, Fail> {
    let nodes = ends(alloc, from, count)?;
    let ddl = changes(alloc, drops)?;
    Ok(chop(alloc, &nodes, &ddl, workers)?)
}

/// The items are those of the ends, and then those of the changes.
fn assert_items(
    rt: &impl Abort,
    items: &[Item],
    from: usize,
    count: usize,
    name: &str,
) -> Result<(), Fail> {
    for (at, item) in items.iter().enumerate() {
        assert_eq!(rt; *item, item_at(from, count, at)?, "{name} at {at}");
    }
    Ok(())
}

#[test]
fn chops(rt: HostRuntime) -> Result<(), Fail> {
    for from in 0..6 {
        for (name, count, drops, workers, lengths) in &FLUSHES {
            let links = links_of(rt.alloc(), from, *count, *drops, *workers)?;
            has_shape(&rt, &links, *workers, lengths, *name);
            let items = items_of(rt.alloc(), &links)?;
            assert_eq!(rt; items.len(), count.wrapping_add(*drops), "{name}");
            assert_items(&rt, &items, from, *count, *name)?;
        }
    }
    Ok(())
}

/// An address.
fn addr() -> Result<Addr, Fail> {
    Ok(Addr::new(obj_at(0)?, 2, 3).ok_or("an address")?)
}

/// A worklink whose room for two lists is filled by a list of one address and an empty one.
fn filled(alloc: Global) -> Result<Worklink, Fail> {
    let mut collected = CollectedList::with_room(alloc, 2)?;
    collected.push(txn_at(0)?, List::from_slice(alloc, [addr()?].as_slice())?);
    collected.push(txn_at(1)?, List::new(alloc));
    let items = List::from_slice(alloc, [Item::Change { txn: txn_at(0)? }].as_slice())?;
    Ok(Worklink { items, collected })
}

/// The list of the first transaction, which has one address.
fn assert_first(rt: &impl Abort, list: &Collected) -> Result<(), Fail> {
    assert!(rt; list.txn == txn_at(0)?);
    assert_eq!(rt; list.addrs.as_slice(), [addr()?].as_slice());
    Ok(())
}

/// A copy of a worklink has the same items, lists and room.
#[test]
fn collects_and_copies(rt: HostRuntime) -> Result<(), Fail> {
    let link = filled(rt.alloc())?.copy(rt.alloc())?;
    assert_eq!(rt;
        link.items.as_slice(),
        [Item::Change { txn: txn_at(0)? }].as_slice()
    );
    assert_eq!(rt; link.collected.room(), 2);
    let [first, second] = link.collected.as_slice() else {
        return Err(Fail::new("not two lists"));
    };
    assert_first(&rt, first)?;
    assert!(rt; second.txn == txn_at(1)? && second.addrs.is_empty());
    assert_first(&rt, &first.copy(rt.alloc())?)
}

/// A copy of nodes has the same nodes.
#[test]
fn copies_nodes(rt: HostRuntime) -> Result<(), Fail> {
    let nodes = List::from_vec(ends(rt.alloc(), 0, 6)?);
    assert_eq!(rt; nodes.copy(rt.alloc())?.as_slice(), nodes.as_slice());
    let redefined = List::from_vec(changes(rt.alloc(), 2)?);
    assert_eq!(rt;
        redefined.copy(rt.alloc())?.as_slice(),
        redefined.as_slice()
    );
    Ok(())
}
