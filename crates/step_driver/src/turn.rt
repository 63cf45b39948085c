ghost use Rattle.std.specs.Prelude.{◌≡◌, ℕ, ◌-◌, ◌<◌, ◌^◌, ◌||◌, true, List, OnOk, OnErr, IfOk};
ghost use Rattle.core_rules.specs.State.{CoreState};
ghost use Rattle.dictionary.specs.Standing.{Known, StandsFor};
ghost use Rattle.turn_rules.specs.Round.{Round};
ghost use Rattle.turn_rules.specs.Picks.{SessionAt, Rests, act_of};
ghost use Rattle.turn_rules.specs.Turns.{seats_after, is_abort_told};
ghost use Rattle.standby_core.specs.Shows.{IsState, HasState};
ghost use Rattle.step_driver.specs.Acts.{act_shown, actor_shown, crew_shown, HasTaken, HasActed};
ghost use Rattle.step_driver.specs.Seating.{seats_shown, IsCounted};
ghost use Rattle.step_driver.specs.Rounds.{ShowsRound, GoesOn, IsActor, IsWithin, IsNamed, IsPicked, IsTurnOf, HasTurned, RestsOrActs, HasStopped};

use crate::act::{Act, Actor};
use crate::crew::{coordinator, worker};
use crate::request::Request;
use crate::seats::Seats;
use crate::session::session;
use adg_base::answer::Reply;
use adg_base::command::Command;
use adg_base::memory::Memory;
use core_rules::event::{CoreAnswer, Event};
use dictionary::Dictionary;
use standby_core::Core;
use standby_core::crew::CrewEvent;
use std::alloc::Global;

/// The core takes an event. What it says is to be told to the session whose turn it is.
fn take_event(
    core: &mut Core,
    event: Event,
    dictionary: &Dictionary,
) -> Result<Option<Reply>, Memory>
    requires { HasState core.old }
    ensures ok { IfOk result (λ told. (c : CoreState) → IsState core.old c → StandsFor dictionary.now c.log → HasTaken core.new c event told) }
    ensures err { OnErr result ((c : CoreState) → IsState core.old c → IsState core.new c) }
{
    match core.step(event, dictionary)? {
        CoreAnswer::Said(reply) => Ok(Some(reply)),
        CoreAnswer::NotReady | CoreAnswer::Moved => Ok(None),
    }
}

/// Does an act. The answer is to be told to the session whose turn it is.
fn act_out(core: &mut Core, act: Act, dictionary: &Dictionary) -> Result<Option<Reply>, Memory>
    requires { HasState core.old }
    ensures ok { IfOk result (λ told. (c : CoreState) → IsState core.old c → StandsFor dictionary.now c.log → HasActed core.new c (act_shown act) told) }
    ensures err { OnErr result ((c : CoreState) → IsState core.old c → IsState core.new c) }
{
    match act {
        Act::Rest => Ok(None),
        Act::Make(event) => take_event(core, event, dictionary),
        Act::Tell(reply) => Ok(Some(reply)),
        Act::MakeAndTell(event, reply) => {
            take_event(core, event, dictionary)?;
            Ok(Some(reply))
        }
    }
}

/// What a session does in its turn.
fn pick(alloc: Global, core: &Core, seats: &Seats, place: u8) -> Result<Act, Memory>
    requires { place < 2 ^ 8 - 1 }
    ensures { IfOk result (λ act. (known : Known) (r : Round) → ShowsRound known core.now seats.now r → act_shown act ≡ act_of r (SessionAt place)) }
{
    match seats.at_hand(place) {
        Some(request) => session(alloc, core, place + 1, request),
        None => Ok(Act::Rest),
    }
}

/// Whether the session at a place rests and a look tells so: no request is at hand, or a SYNC that waits.
fn waits(core: &Core, seats: &Seats, place: u8) -> bool
    ensures { result ≡ true → (known : Known) (r : Round) → ShowsRound known core.now seats.now r → Rests ≡ act_of r (SessionAt place) }
{
    match seats.at_hand(place) {
        None => true,
        Some(Request::Asks(Command::Sync)) => core.query_scn() != core.frontier(),
        Some(_) => false,
    }
}

/// Takes up what was told to an actor.
fn take_up(seats: &mut Seats, actor: Actor, told: Option<Reply>) -> Result<(), Memory>
    requires { IsCounted seats.old }
    ensures seats { OnOk result (seats_shown seats.new ≡ seats_after (actor_shown actor) told (seats_shown seats.old)) }
    ensures counted { OnOk result (IsCounted seats.new) }
    ensures aborted { OnOk result (seats.new.aborted ≡ (seats.old.aborted || is_abort_told told)) }
{
    let Some(reply) = told else {
        return Ok(());
    };
    if let Reply::Aborted { .. } = &reply {
        seats.aborted = true;
    }
    match actor {
        Actor::Session(place) => seats.tell(place, reply),
        Actor::Coordinator | Actor::Worker(_) => Ok(()),
    }
}

/// The coordinator or a worker takes the event that it has picked, if any. It tells nobody anything.
#[inline(always)]
pub(crate) fn take_crew_turn(
    core: &mut Core,
    seats: &Seats,
    number: usize,
    event: Option<CrewEvent>,
    dictionary: &Dictionary,
) -> Result<(), Memory>
    requires round { GoesOn dictionary.now core.old seats.now }
    requires actor { IsWithin dictionary.now core.old seats.now number }
    requires picked { IsPicked dictionary.now core.old seats.now number (crew_shown event) }
    ensures turns { OnOk result ((schedule : List ℕ) (r : Round) → ShowsRound dictionary.now core.old seats.now r → IsTurnOf schedule r number → HasTurned dictionary.now core.new seats.now schedule r) }
    ensures acts { OnOk result (RestsOrActs dictionary.now core.old seats.now core.new seats.now number) }
    ensures err { OnErr result ((r : Round) → ShowsRound dictionary.now core.old seats.now r → HasStopped core.new r.core) }
{
    let Some(event) = event else {
        return Ok(());
    };
    core.step_crew(event, dictionary)?;
    Ok(())
}

/// The session at a place does what it has picked. It stands by itself, so that the turns of the others
/// need no room for queries and replies.
#[inline(never)]
fn take_session_turn(
    alloc: Global,
    core: &mut Core,
    seats: &mut Seats,
    number: usize,
    place: u8,
    dictionary: &Dictionary,
) -> Result<(), Memory>
    requires small { place < 2 ^ 8 - 1 }
    requires round { GoesOn dictionary.now core.old seats.old }
    requires actor { IsActor dictionary.now core.old seats.old number }
    requires named { IsNamed dictionary.now core.old seats.old number (SessionAt place) }
    ensures turns { OnOk result ((schedule : List ℕ) (r : Round) → ShowsRound dictionary.now core.old seats.old r → IsTurnOf schedule r number → HasTurned dictionary.now core.new seats.new schedule r) }
    ensures acts { OnOk result (RestsOrActs dictionary.now core.old seats.old core.new seats.new number) }
    ensures err { OnErr result ((r : Round) → ShowsRound dictionary.now core.old seats.old r → HasStopped core.new r.core) }
{
    let act = pick(alloc, core, seats, place)?;
    if let Act::Rest = &act {
        return Ok(());
    }
    let told = act_out(core, act, dictionary)?;
    take_up(seats, Actor::Session(place), told)
}

/// The actor of a number has a turn.
pub(crate) fn take_turn(
    alloc: Global,
    core: &mut Core,
    seats: &mut Seats,
    number: usize,
    dictionary: &Dictionary,
) -> Result<(), Memory>
    requires round { GoesOn dictionary.now core.old seats.old }
    requires actor { IsActor dictionary.now core.old seats.old number }
    ensures turns { OnOk result ((schedule : List ℕ) (r : Round) → ShowsRound dictionary.now core.old seats.old r → IsTurnOf schedule r number → HasTurned dictionary.now core.new seats.new schedule r) }
    ensures acts { OnOk result (RestsOrActs dictionary.now core.old seats.old core.new seats.new number) }
    ensures err { OnErr result ((r : Round) → ShowsRound dictionary.now core.old seats.old r → HasStopped core.new r.core) }
{
    match Actor::numbered(core.workers(), number) {
        Actor::Coordinator => {
            let event = coordinator(core);
            take_crew_turn(core, seats, number, event, dictionary)
        }
        Actor::Worker(place) => {
            let event = worker(core, place);
            take_crew_turn(core, seats, number, event, dictionary)
        }
        Actor::Session(place) => {
            if waits(core, seats, place) {
                take_crew_turn(core, seats, number, None, dictionary)
            } else {
                take_session_turn(alloc, core, seats, number, place, dictionary)
            }
        }
    }
}
