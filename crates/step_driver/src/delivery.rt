ghost use Rattle.std.specs.Prelude.{◌≡◌, ◌++◌, map, OnOk, OnErr, IfOk};
ghost use Rattle.std.specs.List.{AllByRecursion};
ghost use Rattle.core_rules.specs.State.{CoreState};
ghost use Rattle.turn_rules.specs.Telling.{session_lines, seats_lines};
ghost use Rattle.step_driver.specs.Delivered.{CanDeliver, HasReady, IsShort, HasDelivered, HasReached};
ghost use Rattle.step_driver.specs.Seating.{seat_shown};

use crate::round::play_round;
use crate::seat::Seat;
use crate::seats::Seats;
use adg_base::answer::{Line, LineList, Lines, Reply};
use adg_base::list::List;
use adg_base::memory::Memory;
use adg_model::delivery::CheckedDelivery;
use dictionary::Dictionary;
use standby_core::Core;
use std::alloc::Global;

/// Runs a delivery: the core receives its redo, and then the turns of the rule are taken until the round
/// is over. The lines are those of the commands, session by session, and the QuerySCN as the round ends.
///
/// `Memory` comes where memory is wanting, or a count comes to the end of its type; then the core is as
/// it was, or it has received the redo and taken the events of some turns.
pub fn run_delivery(
    alloc: Global,
    core: &mut Core,
    delivery: CheckedDelivery,
    dictionary: &Dictionary,
) -> Result<Lines, Memory>
    requires ready { HasReady core.old delivery dictionary.now }
    requires short { AllByRecursion IsShort delivery.commands }
    ensures ok { IfOk result (λ lines. (c : CoreState) → CanDeliver core.old delivery dictionary.now c → HasDelivered core.new c delivery lines) }
    ensures err { OnErr result ((c : CoreState) → CanDeliver core.old delivery dictionary.now c → HasReached core.new c delivery) }
{
    let CheckedDelivery {
        entries,
        frontier,
        commands,
        schedule,
    } = delivery;
    let mut seats = Seats::open(alloc, core.sessions(), commands.as_slice())?;
    core.receive(entries, frontier)?;
    play_round(alloc, core, &mut seats, schedule.as_slice(), dictionary)?;
    Ok(Lines {
        list: lines_of(alloc, seats.list)?,
        end: core.query_scn(),
    })
}

/// The lines of all seats, session by session.
fn lines_of(alloc: Global, seats: Vec<Seat>) -> Result<LineList, Memory>
    ensures { IfOk result (λ lines. lines ≡ seats_lines 1 (map seat_shown seats.items)) }
{
    let mut lines = List::new(alloc);
    let mut session = 0u8;
    for seat in seats {
        let Some(number) = session.checked_add(1) else {
            return Err(Memory);
        };
        session = number;
        tell_session(&mut lines, session, seat.into_replies()?)?;
    }
    Ok(lines)
}

/// Adds the lines of a session, with numbers from 1 on.
fn tell_session(lines: &mut LineList, session: u8, replies: Vec<Reply>) -> Result<(), Memory>
    ensures { OnOk result (lines.new ≡ lines.old ++ session_lines session 1 replies.items) }
{
    let mut number = 0u32;
    for reply in replies {
        let Some(next) = number.checked_add(1) else {
            return Err(Memory);
        };
        number = next;
        lines.push(Line {
            session,
            number,
            reply,
        })?;
    }
    Ok(())
}
