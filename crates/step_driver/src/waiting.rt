ghost use Rattle.std.specs.Prelude.{◌≡◌, ℕ, ◌+◌, ◌*◌, ◌<◌, true, false, List, length, slice_get, IfOk, OnOk, OnErr, ◌⊎◌};
ghost use Rattle.dictionary.specs.Standing.{Known};
ghost use Rattle.turn_rules.specs.Round.{Round, actors as actors_of, is_over};
ghost use Rattle.turn_rules.specs.Picks.{Rests, coordinator_act};
ghost use Rattle.step_driver.specs.Seating.{seats_shown, hand_of};
ghost use Rattle.step_driver.specs.Work.{work_left};
ghost use Rattle.step_driver.specs.Rounds.{ShowsRound, HasRound, HasStopped};
ghost use Rattle.step_driver.specs.Waiting.{Awaits, AwaitFrontier, IsUnseen, HasPlayedCrew, HaveWorkersRested, HasCycled};

use crate::crew::{coordinator, worker};
use crate::request::Request;
use crate::seats::Seats;
use crate::turn::take_crew_turn;
use adg_base::command::Command;
use adg_base::memory::Memory;
use dictionary::Dictionary;
use standby_core::Core;
use standby_core::crew::CrewEvent;

/// Whether each session has no request, or a SYNC, and the frontier is ahead of the QuerySCN. Then they
/// rest until the QuerySCN is the frontier, whatever the coordinator and the workers do.
pub(crate) fn all_wait(core: &Core, seats: &Seats) -> bool
    ensures { result ≡ true → (known : Known) (r : Round) → ShowsRound known core.now seats.now r → is_over r ≡ false → AwaitFrontier core.now seats.now }
{
    if core.query_scn() == core.frontier() {
        return false;
    }
    for place in 0..core.sessions() {
        if !awaits(seats, place) {
            return false;
        }
    }
    true
}

/// Whether the session at a place has no request at hand, or a SYNC.
fn awaits(seats: &Seats, place: u8) -> bool
    ensures { result ≡ true → Awaits (hand_of (slice_get (seats_shown seats.now) place)) }
{
    match seats.at_hand(place) {
        None | Some(Request::Asks(Command::Sync)) => true,
        Some(_) => false,
    }
}

/// Cycles of turns, which end behind the coordinator as the QuerySCN becomes the frontier. In whole ones the
/// sessions rest, and are not looked at.
pub(crate) fn play_crew(
    core: &mut Core,
    seats: &Seats,
    dictionary: &Dictionary,
) -> Result<(), Memory>
    requires round { HasRound dictionary.now core.old seats.now }
    requires wait { AwaitFrontier core.old seats.now }
    ensures turns { OnOk result ((schedule : List ℕ) (r : Round) (k : ℕ) → ShowsRound dictionary.now core.old seats.now r → r.turns ≡ length schedule + k * actors_of r
        → HasCycled dictionary.now core.new seats.now schedule r k) }
    ensures less { OnOk result (work_left core.new seats.now < work_left core.old seats.now) }
    ensures err { OnErr result ((r : Round) → ShowsRound dictionary.now core.old seats.now r → HasStopped core.new r.core) }
{
    let mut rests = false;
    loop {
        rests = play_coordinator(core, seats, rests, dictionary)?;
        if core.query_scn() == core.frontier() {
            return Ok(());
        }
        rests = play_workers(core, seats, rests, dictionary)?;
    }
}

/// The turn of the coordinator, which is not looked at where it is known to rest. The answer is whether it
/// is known to rest now: not behind an act.
fn play_coordinator(
    core: &mut Core,
    seats: &Seats,
    rests: bool,
    dictionary: &Dictionary,
) -> Result<bool, Memory>
    requires round { HasRound dictionary.now core.old seats.now }
    requires wait { AwaitFrontier core.old seats.now }
    ensures turns { IfOk result (λ still. (schedule : List ℕ) (r : Round) (k : ℕ) → ShowsRound dictionary.now core.old seats.now r → (rests ≡ true → coordinator_act r.core ≡ Rests)
        → r.turns ≡ length schedule + k * actors_of r → HasPlayedCrew dictionary.now core.new seats.now schedule r (length schedule + k * actors_of r + 1) still) }
    ensures acts { IfOk result (λ still. ((still ≡ true) × (core.new ≡ core.old)) ⊎ (work_left core.new seats.now < work_left core.old seats.now)) }
    ensures err { OnErr result ((r : Round) → ShowsRound dictionary.now core.old seats.now r → HasStopped core.new r.core) }
{
    if rests {
        return Ok(true);
    }
    let event = coordinator(core);
    let rested = event.is_none();
    take_crew_turn(core, seats, 0, event, dictionary)?;
    Ok(rested)
}

/// A turn of each worker, and of the sessions, which rest. The answer is whether the coordinator is known to
/// rest still: it was before, and sees nothing of what was done.
fn play_workers(
    core: &mut Core,
    seats: &Seats,
    rests: bool,
    dictionary: &Dictionary,
) -> Result<bool, Memory>
    requires round { HasRound dictionary.now core.old seats.now }
    requires wait { AwaitFrontier core.old seats.now }
    ensures turns { IfOk result (λ still. (schedule : List ℕ) (r : Round) (k : ℕ) → ShowsRound dictionary.now core.old seats.now r → (rests ≡ true → coordinator_act r.core ≡ Rests)
        → r.turns ≡ length schedule + k * actors_of r + 1 → HasPlayedCrew dictionary.now core.new seats.now schedule r (length schedule + (k + 1) * actors_of r) still) }
    ensures wait { OnOk result (AwaitFrontier core.new seats.now) }
    ensures acts { OnOk result (HaveWorkersRested dictionary.now core.old core.new seats.now ⊎ (work_left core.new seats.now < work_left core.old seats.now)) }
    ensures err { OnErr result ((r : Round) → ShowsRound dictionary.now core.old seats.now r → HasStopped core.new r.core) }
{
    let mut still = rests;
    for place in 0..core.workers() {
        let event = worker(core, place);
        still &= is_unseen(&event);
        take_crew_turn(core, seats, 1 + usize::from(place), event, dictionary)?;
    }
    Ok(still)
}

/// Whether what a worker does is known to be nothing that the coordinator sees.
fn is_unseen(event: &Option<CrewEvent>) -> bool
    ensures { result ≡ true → IsUnseen event.now }
{
    match *event {
        None | Some(CrewEvent::Apply { .. } | CrewEvent::Mine { .. }) => true,
        Some(CrewEvent::Collect { actor } | CrewEvent::Touch { actor }) => actor != 0,
        Some(_) => false,
    }
}
