ghost use Rattle.std.specs.Prelude.{◌≡◌, IfOk};

use NodeKind::{Aborted, Committed};
use adg_base::node::{Node, NodeKind, NodeList};
use adg_base::number::{Pos, Scn, Txn};
use commit_table::partition::Partition;
use std::alloc::Global;
use std::test::Fail;

/// An end: its SCN, its transaction, whether all was noted, and how it ended.
type End = (u64, u64, bool, NodeKind);

/// Ends in the order of their positions.
static ENDS: [End; 6] = [
    (10, 7, true, Committed { flag: true }),
    (10, 5, false, Committed { flag: true }),
    (20, 9, true, Aborted),
    (20, 6, true, Committed { flag: false }),
    (20, 8, false, Aborted),
    (30, 1, true, Committed { flag: true }),
];

/// An SCN, and how many of the ends are taken at it.
static CUTS: [(&str, u64, usize); 7] = [
    ("below all", 9, 0),
    ("at the first", 10, 2),
    ("above the first", 11, 2),
    ("below the second", 19, 2),
    ("at the second", 20, 5),
    ("at the last", 30, 6),
    ("above all", 31, 6),
];

/// Which nodes are asked for: those that are copied or taken, or those that are left.
#[derive(Clone, Copy, Debug)]
enum Way {
    Copied,
    Taken,
    LeftByCut,
    LeftByDrop,
}

static WAYS: [Way; 4] = [Way::Copied, Way::Taken, Way::LeftByCut, Way::LeftByDrop];

/// The node of an end, which stands at its place in the log.
fn node(index: usize) -> Result<Node, Fail>
    ensures { IfOk result (λ node. node.pos ≡ index) }
{
    let (scn, txn, complete, kind) = *ENDS.get(index).ok_or("an end")?;
    Ok(Node {
        scn: Scn::new(scn).ok_or("an SCN")?,
        pos: Pos::new(index as u64),
        txn: Txn::new(txn).ok_or("a transaction")?,
        complete,
        kind,
    })
}

fn nodes(alloc: Global) -> Result<Vec<Node>, Fail> {
    let mut nodes = Vec::new(alloc);
    for index in 0..ENDS.len() {
        nodes.push(node(index)?)?;
    }
    Ok(nodes)
}

fn partition(alloc: Global) -> Result<Partition, Fail> {
    let mut partition = Partition::new(alloc);
    for index in 0..ENDS.len() {
        partition.enter(node(index)?)?;
    }
    Ok(partition)
}

fn answer(alloc: Global, way: Way, through: Scn) -> Result<NodeList, Fail> {
    let mut partition = partition(alloc)?;
    match way {
        Way::Copied => return Ok(partition.upto(through)?),
        Way::Taken => return Ok(partition.cut(through)?),
        Way::LeftByCut => {
            partition.cut(through)?;
        }
        Way::LeftByDrop => partition.drop_through(through),
    }
    Ok(partition.upto(Scn::new(99).ok_or("an SCN")?)?)
}

/// Cuts at, below and above each SCN.
#[test]
fn cuts(rt: HostRuntime) -> Result<(), Fail> {
    let alloc = rt.alloc();
    let all = nodes(alloc)?;
    for (name, through, count) in &CUTS {
        let through = Scn::new(*through).ok_or("an SCN")?;
        let (taken, left) = all.split_at_checked(*count).ok_or("more than all")?;
        for way in &WAYS {
            let expected = match way {
                Way::Copied | Way::Taken => taken,
                Way::LeftByCut | Way::LeftByDrop => left,
            };
            let found = answer(alloc, *way, through)?;
            assert_eq!(rt; found.as_slice(), expected, "{name}: {way:?}");
        }
    }
    Ok(())
}
