use adg_base::answer::Reply;
use adg_base::command::Select;
use adg_base::number::{Obj, Scn};

/// What can happen to the core, one atomic step each. Workers count from 0, sessions from 1. Actor 0
/// is the coordinator and actor `1 + w` is worker `w`.
#[derive(Debug, Drop)]
pub enum Event {
    /// A worker applies the next entry of its share to its shard.
    Apply { worker: u8 },
    /// A worker mines the next entry that it has applied.
    Mine { worker: u8 },
    /// A worker says that all of its share up to an SCN is mined.
    Raise { worker: u8, through: Scn },
    /// The coordinator begins the flush of all that ended up to an SCN.
    BeginFlush { through: Scn },
    /// An actor takes the first worklink that nobody has taken.
    Claim { actor: u8 },
    /// An actor takes what the next area holds for its worklink.
    Collect { actor: u8 },
    /// An actor marks in the next unit shard what it has collected.
    Touch { actor: u8 },
    /// An actor has marked all that its worklink asks for.
    Done { actor: u8 },
    /// The flush is over, and its SCN becomes the QuerySCN.
    Publish,
    /// A session begins to populate an object, or is refused.
    PopBegin { session: u8, obj: Obj },
    /// A population registers the unit of its next extent.
    PopRegister { session: u8 },
    /// A population lets publication go on.
    PopRelease { session: u8 },
    /// A population reads the next block of its extent.
    PopRead { session: u8 },
    /// A population installs the columns of its extent and goes on to the next, or ends.
    PopEnd { session: u8 },
    /// A session begins a SELECT, or is refused.
    ScanBegin { session: u8, select: Select },
    /// A scan gathers the rows of its next extent.
    ScanExtent { session: u8 },
    /// A scan ends with its answer.
    ScanEnd { session: u8 },
    /// All that is in memory but the row store and the log is lost.
    Restart,
}

/// What the core answers to an event.
#[derive(Debug, Drop)]
pub enum CoreAnswer {
    /// The event can't happen now, and nothing changed.
    NotReady,
    /// It happened.
    Moved,
    /// It happened, or it was refused, and this is the reply to its session.
    Said(Reply),
}
