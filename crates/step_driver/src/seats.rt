ghost use Rattle.std.specs.Prelude.{◌≡◌, false, [], length, map, count_by, option_map, slice_get, OnOk, OnErr, IfOk};
ghost use Rattle.std.specs.List.{AllByRecursion};
ghost use Rattle.adg_base.specs.declared.command.CommandText.{CommandText as Text};
ghost use Rattle.turn_rules.specs.Turns.{told_at};
ghost use Rattle.turn_rules.specs.Round.{AreSeats};
ghost use Rattle.step_driver.specs.Delivered.{IsShort};
ghost use Rattle.step_driver.specs.Seating.{request_shown, seat_shown, seats_shown, hand_of, is_waiting, IsCounted, AreRead, TakesText};

use crate::request::Request;
use crate::seat::Seat;
use adg_base::answer::Reply;
use adg_base::command::CommandText;
use adg_base::memory::Memory;
use std::alloc::Global;

/// The seats of all sessions in a round.
#[derive(Debug, Drop)]
pub struct Seats {
    pub(crate) list: Vec<Seat>,
    /// How many of them have a request without a reply.
    pub(crate) waiting: usize,
    /// Whether an ABORT was answered.
    pub(crate) aborted: bool,
}

impl Seats {
    /// The seats of so many sessions as a round begins. The commands of other sessions are left out.
    pub(crate) fn open(
        alloc: Global,
        sessions: u8,
        commands: &[CommandText],
    ) -> Result<Seats, Memory>
        requires { AllByRecursion IsShort commands.now }
        ensures seats { IfOk result (λ seats. AreSeats sessions commands.now (seats_shown seats)) }
        ensures counted { IfOk result (λ seats. IsCounted seats) }
        ensures calm { IfOk result (λ seats. seats.aborted ≡ false) }
    {
        let list = read_all(alloc, sessions, commands)?;
        let waiting = count_waiting(&list);
        Ok(Seats {
            list,
            waiting,
            aborted: false,
        })
    }

    /// The first request without a reply of the session at a place.
    pub(crate) fn at_hand(&self, place: u8) -> Option<&Request>
        ensures { option_map (λ x. request_shown x.now) result ≡ hand_of (slice_get (seats_shown self.now) place) }
    {
        match self.list.get(usize::from(place)) {
            Some(seat) => seat.at_hand(),
            None => None,
        }
    }

    /// Tells a reply to the session at a place.
    pub(crate) fn tell(&mut self, place: u8, reply: Reply) -> Result<(), Memory>
        requires { IsCounted self.old }
        ensures seats { OnOk result (seats_shown self.new ≡ told_at place reply (slice_get (seats_shown self.old) place) (seats_shown self.old)) }
        ensures counted { OnOk result (IsCounted self.new) }
        ensures aborted { self.new.aborted ≡ self.old.aborted }
    {
        let place = usize::from(place);
        if place >= self.list.len() {
            return Ok(());
        }
        let seat = &mut self.list[place];
        let waited = seat.waiting();
        seat.tell(reply)?;
        let waits = seat.waiting();
        self.waiting = self.waiting - waited + waits;
        Ok(())
    }
}

/// Seats of so many sessions, without a request.
fn empty_seats(alloc: Global, sessions: u8) -> Result<Vec<Seat>, Memory>
    ensures count { IfOk result (λ seats. length seats.items ≡ sessions) }
    ensures read { IfOk result (λ seats. AreRead [] seats.items) }
{
    let mut seats = Vec::with_capacity(alloc, usize::from(sessions))?;
    for _ in 0..sessions {
        seats.push(Seat::empty(alloc))?;
    }
    Ok(seats)
}

/// Seats of so many sessions, with what the commands ask.
fn read_all(alloc: Global, sessions: u8, commands: &[CommandText]) -> Result<Vec<Seat>, Memory>
    requires { AllByRecursion IsShort commands.now }
    ensures count { IfOk result (λ seats. length seats.items ≡ sessions) }
    ensures read { IfOk result (λ seats. AreRead commands.now seats.items) }
{
    let mut seats = empty_seats(alloc, sessions)?;
    for command in commands {
        take_text(alloc, &mut seats, command)?;
    }
    Ok(seats)
}

/// Reads a command for the seat of its session, if there is one.
fn take_text(alloc: Global, seats: &mut Vec<Seat>, command: &CommandText) -> Result<(), Memory>
    requires { IsShort command.now }
    ensures { OnOk result (TakesText seats.old.items command.now seats.new.items) }
{
    let Some(place) = usize::from(command.session).checked_sub(1) else {
        return Ok(());
    };
    if place >= seats.len() {
        return Ok(());
    }
    let request = Request::read(alloc, command.text.as_slice())?;
    let seat = &mut seats[place];
    seat.requests.push(request)?;
    Ok(())
}

/// How many seats have a request without a reply.
fn count_waiting(seats: &[Seat]) -> usize
    ensures { result ≡ count_by is_waiting (map seat_shown seats.now) }
{
    let mut waiting = 0;
    for seat in seats {
        if seat.is_waiting() {
            waiting += 1;
        }
    }
    waiting
}
