ghost use Rattle.std.specs.Prelude.{◌≡◌, ℕ, ◌+◌, IfOk};
ghost use Rattle.core_rules.specs.State.{CoreState, Session as SessionOf, At};
ghost use Rattle.turn_rules.specs.Round.{Asks};
ghost use Rattle.turn_rules.specs.Picks.{request_act, populate_act, select_act};
ghost use Rattle.standby_core.specs.Shows.{IsState};
ghost use Rattle.step_driver.specs.Acts.{act_shown};
ghost use Rattle.step_driver.specs.Seating.{request_shown};

use crate::act::Act;
use crate::request::Request;
use adg_base::answer::Reply;
use adg_base::command::{Command, Select};
use adg_base::list::Duplicate;
use adg_base::memory::Memory;
use adg_base::number::Obj;
use core_rules::event::Event;
use standby_core::Core;
use standby_core::duties::Duty;
use std::alloc::Global;

/// What a session, which counts from 1, does for its request at hand.
pub(crate) fn session(
    alloc: Global,
    core: &Core,
    session: u8,
    request: &Request,
) -> Result<Act, Memory>
    ensures { IfOk result (λ act. (c : CoreState) (place : ℕ) (s : SessionOf) → IsState core.now c → session ≡ place + 1 → At c.sessions place s
        → act_shown act ≡ request_act c place (Some (request_shown request.now))) }
{
    let scn = core.query_scn();
    match request {
        Request::Garbles { byte } => Ok(Act::Tell(Reply::BadQuery { scn, byte: *byte })),
        Request::Asks(Command::ShowScn) => Ok(Act::Tell(Reply::Shown { scn })),
        Request::Asks(Command::Sync) => Ok(sync(core)),
        Request::Asks(Command::Abort) => {
            Ok(Act::MakeAndTell(Event::Restart, Reply::Aborted { scn }))
        }
        Request::Asks(Command::Populate { obj }) => Ok(populate(core, session, *obj)),
        Request::Asks(Command::Select(query)) => select(alloc, core, session, query),
    }
}

/// What a session does for a SYNC: it waits until the QuerySCN is the frontier.
fn sync(core: &Core) -> Act
    ensures { (c : CoreState) (place : ℕ) → IsState core.now c → act_shown result ≡ request_act c place (Some (Asks Command.Sync)) }
{
    let scn = core.query_scn();
    if scn == core.frontier() {
        Act::Tell(Reply::Synced { scn })
    } else {
        Act::Rest
    }
}

/// What a session does for a POPULATE.
fn populate(core: &Core, session: u8, obj: Obj) -> Act
    ensures { (c : CoreState) (place : ℕ) (s : SessionOf) → IsState core.now c → session ≡ place + 1 → At c.sessions place s
        → act_shown result ≡ populate_act c session obj (Some s) }
{
    match core.duty(session) {
        Duty::Free if core.is_flushing() => Act::Rest,
        Duty::Free => Act::Make(Event::PopBegin { session, obj }),
        Duty::Register => Act::Make(Event::PopRegister { session }),
        Duty::Release => Act::Make(Event::PopRelease { session }),
        Duty::Read => Act::Make(Event::PopRead { session }),
        Duty::Install => Act::Make(Event::PopEnd { session }),
        Duty::Gather | Duty::Answer => Act::Rest,
    }
}

/// What a session does for a SELECT. The query is copied once, as the scan begins.
fn select(alloc: Global, core: &Core, session: u8, query: &Select) -> Result<Act, Memory>
    ensures { IfOk result (λ act. (c : CoreState) (place : ℕ) (s : SessionOf) → IsState core.now c → session ≡ place + 1 → At c.sessions place s
        → act_shown act ≡ select_act session query.now (Some s)) }
{
    match core.duty(session) {
        Duty::Free => {
            let select = query.copy(alloc)?;
            Ok(Act::Make(Event::ScanBegin { session, select }))
        }
        Duty::Gather => Ok(Act::Make(Event::ScanExtent { session })),
        Duty::Answer => Ok(Act::Make(Event::ScanEnd { session })),
        Duty::Register | Duty::Release | Duty::Read | Duty::Install => Ok(Act::Rest),
    }
}
