use adg_base::command::{CommandList, CommandText};
use adg_base::list::{Duplicate, List};
use adg_base::log::{EntryList, LogEntry};
use adg_base::number::{Pos, Scn};
use adg_base::vector::Vector;
use adg_model::delivery::{CheckedDelivery, PieceList, RawDelivery, RedoPiece};
use std::alloc::Global;
use std::fmt::Debug;
use std::process::Abort;
use std::test::Fail;

fn pieces(alloc: Global) -> Result<PieceList, Fail> {
    let (first, second) = (
        List::from_slice(alloc, &[0, 13, 255])?,
        List::from_slice(alloc, &[7])?,
    );
    let pieces = vec![in alloc;
        RedoPiece {
            thread: 1,
            bytes: first
        },
        RedoPiece {
            thread: 8,
            bytes: second
        },
    ]?;
    Ok(List::from_vec(pieces))
}

fn commands(alloc: Global) -> Result<CommandList, Fail> {
    let text = List::from_slice(alloc, b"SYNC")?;
    let command = CommandText { session: 8, text };
    Ok(List::from_vec(vec![in alloc; command]?))
}

fn entries(alloc: Global, scn: Scn) -> Result<EntryList, Fail> {
    let entry = LogEntry {
        pos: Pos::new(5),
        scn,
        thread: 8,
        number: 9,
        index: 255,
        vector: Vector::EndThread,
    };
    Ok(List::from_vec(vec![in alloc; entry]?))
}

fn assert_copied<T: Duplicate + Debug + Drop>(
    rt: &impl Abort,
    alloc: Global,
    value: T,
) -> Result<(), Fail> {
    let copied = value.copy(alloc)?;
    let shown = format!(in alloc; "{copied:?}")?;
    assert_eq!(rt; shown, format!(in alloc; "{value:?}")?);
    Ok(())
}

fn assert_copies(rt: &impl Abort, alloc: Global) -> Result<(), Fail> {
    let schedule = List::from_slice(alloc, &[3, 2])?;
    let raw = RawDelivery {
        pieces: pieces(alloc)?,
        commands: commands(alloc)?,
        schedule,
    };
    assert_copied(rt, alloc, raw)?;
    let frontier = Scn::new(281_474_976_710_655).ok_or("scn")?;
    let schedule = List::from_slice(alloc, &[1])?;
    let checked = CheckedDelivery {
        entries: entries(alloc, frontier)?,
        frontier,
        commands: commands(alloc)?,
        schedule,
    };
    assert_copied(rt, alloc, checked)
}

#[test]
fn copies_are_whole(rt: HostRuntime) -> Result<(), Fail> {
    assert_copies(&rt, rt.alloc())
}
