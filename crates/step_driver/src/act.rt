ghost use Rattle.std.specs.Prelude.{◌≡◌, ◌+◌, ◌<◌, ◌^◌};
ghost use Rattle.turn_rules.specs.Picks.{actor_of};
ghost use Rattle.step_driver.specs.Acts.{actor_shown, IsSmall};

use adg_base::answer::Reply;
use core_rules::event::Event;

/// What an actor does in its turn.
#[derive(Debug, Drop)]
pub enum Act {
    /// Nothing.
    Rest,
    /// An event. What the core says is told to the session whose turn it is.
    Make(Event),
    /// A reply is told to the session, and the core is left as it is.
    Tell(Reply),
    /// An event, and a reply of the driver's own.
    MakeAndTell(Event, Reply),
}

/// Who has a turn. Workers and the places of sessions count from 0.
#[derive(Clone, Copy, Debug, PartialEq, Eq)]
pub enum Actor {
    Coordinator,
    Worker(u8),
    Session(u8),
}

impl Actor {
    /// The actor of a number: 0 is the coordinator; behind it come the workers, and behind them the
    /// sessions.
    pub(crate) fn numbered(workers: u8, number: usize) -> Actor
        requires { number < 2 ^ 8 + workers }
        ensures is { actor_shown result ≡ actor_of workers number }
        ensures small { IsSmall result }
    {
        let workers = usize::from(workers);
        if number == 0 {
            Actor::Coordinator
        } else if number <= workers {
            Actor::Worker((number - 1) as u8)
        } else {
            Actor::Session((number - workers - 1) as u8)
        }
    }
}
