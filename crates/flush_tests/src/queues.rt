use adg_base::list::List;
use adg_base::node::{DdlList, DdlNode};
use adg_base::number::{Obj, Scn};
use scn_queue::queue::ScnQueue;
use std::alloc::Global;
use std::test::Fail;

/// What is done with a queue, and what comes of it: the objects of the nodes, in their order.
#[derive(Clone, Copy)]
enum Step {
    Enter(u64, u16),
    Upto(u64, &'static [u16]),
    Cut(u64, &'static [u16]),
    Drop(u64),
}

use Step::{Cut, Drop as Drops, Enter, Upto};

static STEPS: [(&str, Step); 34] = [
    ("nothing of an empty queue", Upto(9, &[])),
    ("nothing cut of an empty queue", Cut(9, &[])),
    ("the first", Enter(20, 1)),
    ("one above the last", Enter(40, 2)),
    ("one below the last", Enter(30, 3)),
    ("one at the first's SCN", Enter(20, 4)),
    ("one below all", Enter(10, 5)),
    ("one at the last's SCN", Enter(40, 6)),
    ("one more at the first's SCN", Enter(20, 7)),
    ("below the first", Upto(9, &[])),
    ("at the first", Upto(10, &[5])),
    ("between two", Upto(19, &[5])),
    ("at equal SCNs", Upto(20, &[5, 1, 4, 7])),
    ("above equal SCNs", Upto(21, &[5, 1, 4, 7])),
    ("below the last", Upto(39, &[5, 1, 4, 7, 3])),
    ("at the last", Upto(40, &[5, 1, 4, 7, 3, 2, 6])),
    ("above all", Upto(41, &[5, 1, 4, 7, 3, 2, 6])),
    ("none is cut below the first", Cut(9, &[])),
    ("those at the SCN are cut", Cut(20, &[5, 1, 4, 7])),
    ("they are gone", Upto(41, &[3, 2, 6])),
    ("they are not cut again", Cut(20, &[])),
    ("one below those that are left", Enter(15, 8)),
    ("one round the end of the ring", Enter(50, 9)),
    ("another", Enter(50, 1)),
    ("another in the middle", Enter(30, 2)),
    ("all in their order", Upto(50, &[8, 3, 2, 2, 6, 9, 1])),
    ("none is dropped below the first", Drops(14)),
    ("all are there", Upto(50, &[8, 3, 2, 2, 6, 9, 1])),
    ("those at the SCN are dropped", Drops(30)),
    ("the others are left", Upto(50, &[2, 6, 9, 1])),
    ("all are cut", Cut(50, &[2, 6, 9, 1])),
    ("the queue is empty", Upto(50, &[])),
    ("it takes more", Enter(7, 3)),
    ("and gives it", Cut(7, &[3])),
];

fn node(scn: u64, obj: u16) -> Result<DdlNode, Fail> {
    Ok(DdlNode {
        scn: Scn::new(scn).ok_or("an SCN")?,
        obj: Obj::new(obj).ok_or("an object")?,
    })
}

fn objects(alloc: Global, nodes: &DdlList) -> Result<Vec<u16>, Fail> {
    let mut objects = Vec::new(alloc);
    for node in nodes.as_slice() {
        objects.push(node.obj.get())?;
    }
    Ok(objects)
}

/// Takes a step, and gives the nodes that come of it.
fn take(alloc: Global, queue: &mut ScnQueue<DdlNode>, step: Step) -> Result<DdlList, Fail> {
    let through = |scn| Scn::new(scn).ok_or("an SCN");
    match step {
        Enter(scn, obj) => queue.enter(node(scn, obj)?)?,
        Upto(scn, _) => return Ok(queue.upto(through(scn)?)?),
        Cut(scn, _) => return Ok(queue.cut(through(scn)?)?),
        Drops(scn) => queue.drop_through(through(scn)?),
    }
    Ok(List::new(alloc))
}

/// Entries in any order of SCN, cut at, below and above each SCN.
#[test]
fn steps(rt: HostRuntime) -> Result<(), Fail> {
    let alloc = rt.alloc();
    let mut queue = ScnQueue::new(alloc);
    for (name, step) in &STEPS {
        let expected: &[u16] = match *step {
            Upto(_, objects) | Cut(_, objects) => objects,
            Enter(_, _) | Drops(_) => &[],
        };
        let nodes = take(alloc, &mut queue, *step)?;
        assert_eq!(rt; objects(alloc, &nodes)?.as_slice(), expected, "{name}");
    }
    Ok(())
}
