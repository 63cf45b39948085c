ghost use Rattle.std.specs.Prelude.{◌≡◌, ℕ, ◌+◌, ◌*◌, ◌<◌, ◌≤◌, List, length, OnOk, OnErr};
ghost use Rattle.dictionary.specs.Standing.{Known};
ghost use Rattle.turn_rules.specs.Round.{Round, actors as actors_of, is_over};
ghost use Rattle.step_driver.specs.declared.seats.Seats.{Seats as Row};
ghost use Rattle.step_driver.specs.Work.{work_left};
ghost use Rattle.step_driver.specs.Rounds.{ShowsRound, HasRound, AreActors, GoesOn, HasPlayedTo, HasPlayedBehind, IsBehind, HasEnded, HasStopped};

use crate::seats::Seats;
use crate::turn::take_turn;
use crate::waiting::{all_wait, play_crew};
use adg_base::memory::Memory;
use dictionary::Dictionary;
use standby_core::Core;
use std::alloc::Global;

/// Takes the turns of a round until it is over: first those of the schedule bytes, then the actors in
/// their order, again and again.
pub(crate) fn play_round(
    alloc: Global,
    core: &mut Core,
    seats: &mut Seats,
    schedule: &[u8],
    dictionary: &Dictionary,
) -> Result<(), Memory>
    requires { HasRound dictionary.now core.old seats.old }
    ensures ok { OnOk result ((r : Round) → ShowsRound dictionary.now core.old seats.old r → r.turns ≡ 0 → HasEnded dictionary.now core.new seats.new schedule.now r) }
    ensures err { OnErr result ((r : Round) → ShowsRound dictionary.now core.old seats.old r → HasStopped core.new r.core) }
{
    play_schedule(alloc, core, seats, schedule, dictionary)?;
    play_on(alloc, core, seats, dictionary)
}

/// Whether a round is over.
fn is_over(core: &Core, seats: &Seats) -> bool
    ensures { (known : Known) (r : Round) → ShowsRound known core.now seats.now r → result ≡ is_over r }
{
    seats.aborted || (seats.waiting == 0 && core.query_scn() == core.frontier())
}

/// How many actors have turns.
fn actors(core: &Core) -> usize
    ensures { (known : Known) (seats : Row) (r : Round) → ShowsRound known core.now seats r → AreActors result r }
{
    1 + usize::from(core.workers()) + usize::from(core.sessions())
}

/// Takes a turn for each schedule byte, unless the round is over before.
fn play_schedule(
    alloc: Global,
    core: &mut Core,
    seats: &mut Seats,
    schedule: &[u8],
    dictionary: &Dictionary,
) -> Result<(), Memory>
    requires { HasRound dictionary.now core.old seats.old }
    ensures ok { OnOk result ((r : Round) → ShowsRound dictionary.now core.old seats.old r → r.turns ≡ 0 → HasPlayedTo dictionary.now core.new seats.new schedule.now r (length schedule.now)) }
    ensures err { OnErr result ((r : Round) → ShowsRound dictionary.now core.old seats.old r → HasStopped core.new r.core) }
{
    for byte in schedule {
        if is_over(core, seats) {
            return Ok(());
        }
        let number = usize::from(*byte) % actors(core);
        take_turn(alloc, core, seats, number, dictionary)?;
    }
    Ok(())
}

/// Takes the turns behind the schedule bytes.
fn play_on(
    alloc: Global,
    core: &mut Core,
    seats: &mut Seats,
    dictionary: &Dictionary,
) -> Result<(), Memory>
    requires { HasRound dictionary.now core.old seats.old }
    ensures ok { OnOk result ((schedule : List ℕ) (r : Round) → ShowsRound dictionary.now core.old seats.old r → IsBehind schedule r → HasEnded dictionary.now core.new seats.new schedule r) }
    ensures err { OnErr result ((r : Round) → ShowsRound dictionary.now core.old seats.old r → HasStopped core.new r.core) }
{
    while !is_over(core, seats) {
        play_cycles(alloc, core, seats, dictionary)?;
    }
    Ok(())
}

/// Turns to the end of a cycle, one of each actor or more, unless the round is over before.
fn play_cycles(
    alloc: Global,
    core: &mut Core,
    seats: &mut Seats,
    dictionary: &Dictionary,
) -> Result<(), Memory>
    requires { GoesOn dictionary.now core.old seats.old }
    ensures turns { OnOk result ((schedule : List ℕ) (r : Round) (k : ℕ) → ShowsRound dictionary.now core.old seats.old r → r.turns ≡ length schedule + k * actors_of r
        → HasPlayedBehind dictionary.now core.new seats.new schedule r) }
    ensures less { OnOk result (work_left core.new seats.new < work_left core.old seats.old) }
    ensures err { OnErr result ((r : Round) → ShowsRound dictionary.now core.old seats.old r → HasStopped core.new r.core) }
{
    if all_wait(core, seats) {
        play_crew(core, seats, dictionary)?;
        play_from(alloc, core, seats, 1, dictionary)
    } else {
        play_from(alloc, core, seats, 0, dictionary)
    }
}

/// One turn of each actor from the first or the second on, unless the round is over before.
fn play_from(
    alloc: Global,
    core: &mut Core,
    seats: &mut Seats,
    first: usize,
    dictionary: &Dictionary,
) -> Result<(), Memory>
    requires round { HasRound dictionary.now core.old seats.old }
    requires first { first ≤ 1 }
    ensures turns { OnOk result ((schedule : List ℕ) (r : Round) (k : ℕ) → ShowsRound dictionary.now core.old seats.old r → r.turns ≡ length schedule + k * actors_of r + first
        → HasPlayedTo dictionary.now core.new seats.new schedule r (length schedule + (k + 1) * actors_of r)) }
    ensures left { OnOk result (work_left core.new seats.new ≤ work_left core.old seats.old) }
    ensures less { OnOk result (first ≡ 0 → GoesOn dictionary.now core.old seats.old → work_left core.new seats.new < work_left core.old seats.old) }
    ensures err { OnErr result ((r : Round) → ShowsRound dictionary.now core.old seats.old r → HasStopped core.new r.core) }
{
    for number in first..actors(core) {
        if is_over(core, seats) {
            return Ok(());
        }
        take_turn(alloc, core, seats, number, dictionary)?;
    }
    Ok(())
}
