ghost use Rattle.std.specs.Prelude.{◌≡◌, ℕ, ◌+◌, MatchOption};
ghost use Rattle.core_rules.specs.State.{At};

use adg_base::command::Select;
use adg_base::definition::Definition;
use adg_base::number::{Obj, Scn};
use population::build::Build;
use scan_eval::accumulator::Accumulator;

/// What a session does: at most one of the two.
#[derive(Drop)]
pub enum Session {
    Free,
    Populating(Population),
    Scanning(Scan),
}

/// A population: its object with its extents, its snapshot and ticket, whether it still holds
/// publication back, of how many extents the units are registered and the columns were installed,
/// and the extent at hand as far as it is read.
#[derive(Drop)]
pub struct Population {
    pub(crate) obj: Obj,
    pub(crate) extents: u16,
    pub(crate) snapshot: Scn,
    pub(crate) ticket: u64,
    pub(crate) holds: bool,
    pub(crate) registered: u16,
    pub(crate) installed: u16,
    pub(crate) build: Build,
}

/// A scan: its query, its SCN and the definition of the object then, of how many extents the rows are
/// gathered, what they came to so far, and how many of them came from units and from blocks.
#[derive(Drop)]
pub struct Scan {
    pub(crate) select: Select,
    pub(crate) scn: Scn,
    pub(crate) definition: Definition,
    pub(crate) extents: u16,
    pub(crate) accumulator: Accumulator,
    pub(crate) col: u64,
    pub(crate) row: u64,
}

/// The place of a session, which counts from 1.
pub(crate) fn place_of(session: u8) -> Option<usize>
    ensures { MatchOption result (session ≡ 0) (λ place. session ≡ place + 1) }
{
    if session == 0 {
        None
    } else {
        Some(usize::from(session) - 1)
    }
}

/// The place of a session that does nothing.
pub(crate) fn free_place(sessions: &[Session], session: u8) -> Option<usize>
    ensures { MatchOption result ((place : ℕ) → session ≡ place + 1 → At sessions.now place Session.Free → ⊥) (λ place. (session ≡ place + 1) × At sessions.now place Session.Free) }
{
    let place = place_of(session)?;
    match sessions.get(place) {
        Some(Session::Free) => Some(place),
        _ => None,
    }
}
