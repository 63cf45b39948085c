use adg_base::node::DdlList;
use adg_base::number::{Obj, Scn};
use ddl_table::table::DdlTable;
use std::alloc::Global;
use std::test::Fail;

/// A cut of a table, and the objects of the nodes that it takes and of those that it leaves, in their
/// order.
struct Cut {
    name: &'static str,
    through: u64,
    taken: &'static [u16],
    left: &'static [u16],
}

/// The entered changes: SCNs and objects.
static CHANGES: [(u64, u16); 6] = [(20, 3), (30, 1), (10, 2), (20, 1), (30, 3), (10, 1)];

static CUTS: [Cut; 7] = [
    Cut {
        name: "below all",
        through: 9,
        taken: &[],
        left: &[2, 1, 3, 1, 1, 3],
    },
    Cut {
        name: "at the first",
        through: 10,
        taken: &[2, 1],
        left: &[3, 1, 1, 3],
    },
    Cut {
        name: "above the first",
        through: 19,
        taken: &[2, 1],
        left: &[3, 1, 1, 3],
    },
    Cut {
        name: "in the middle",
        through: 20,
        taken: &[2, 1, 3, 1],
        left: &[1, 3],
    },
    Cut {
        name: "below the last",
        through: 29,
        taken: &[2, 1, 3, 1],
        left: &[1, 3],
    },
    Cut {
        name: "at the last",
        through: 30,
        taken: &[2, 1, 3, 1, 1, 3],
        left: &[],
    },
    Cut {
        name: "above all",
        through: 31,
        taken: &[2, 1, 3, 1, 1, 3],
        left: &[],
    },
];

fn objects(alloc: Global, nodes: &DdlList) -> Result<Vec<u16>, Fail> {
    let mut objects = Vec::new(alloc);
    for node in nodes.as_slice() {
        objects.push(node.obj.get())?;
    }
    Ok(objects)
}

/// The table after all changes.
fn table(alloc: Global) -> Result<DdlTable, Fail> {
    let mut table = DdlTable::new(alloc);
    for (scn, obj) in &CHANGES {
        let scn = Scn::new(*scn).ok_or("an SCN")?;
        table.enter(scn, Obj::new(*obj).ok_or("an object")?)?;
    }
    Ok(table)
}

/// Which nodes are asked for: those that are copied or taken, or those that are left.
#[derive(Clone, Copy, Debug)]
enum Way {
    Copied,
    Taken,
    LeftByCut,
    LeftByDrop,
}

static WAYS: [Way; 4] = [Way::Copied, Way::Taken, Way::LeftByCut, Way::LeftByDrop];

fn answer(alloc: Global, way: Way, through: u64) -> Result<DdlList, Fail> {
    let mut table = table(alloc)?;
    let through = Scn::new(through).ok_or("an SCN")?;
    match way {
        Way::Copied => return Ok(table.upto(through)?),
        Way::Taken => return Ok(table.cut(through)?),
        Way::LeftByCut => {
            table.cut(through)?;
        }
        Way::LeftByDrop => table.drop_through(through),
    }
    Ok(table.upto(Scn::new(99).ok_or("an SCN")?)?)
}

/// Cuts at, below and above each SCN, of changes that were entered in no order of SCN.
#[test]
fn cuts(rt: HostRuntime) -> Result<(), Fail> {
    let alloc = rt.alloc();
    for cut in &CUTS {
        for way in &WAYS {
            let expected = match way {
                Way::Copied | Way::Taken => cut.taken,
                Way::LeftByCut | Way::LeftByDrop => cut.left,
            };
            let found = objects(alloc, &answer(alloc, *way, cut.through)?)?;
            assert_eq!(rt; found.as_slice(), expected, "{}: {way:?}", cut.name);
        }
    }
    Ok(())
}
