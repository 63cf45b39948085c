ghost use Rattle.std.specs.Prelude.{ℕ, MatchOption, Some};
ghost use Rattle.core_rules.specs.State.{At};

use crate::link::Link;
use adg_base::number::Scn;

/// Who keeps publication back: nobody, so many populations, or a flush up to an SCN.
#[derive(Clone, Copy, Debug, PartialEq, Eq)]
pub enum Quiesce {
    Idle,
    Shared(usize),
    Flushing(Scn),
}

/// The flush that goes on, if one does: its worklinks, how many of them were claimed, how many are
/// done, and for each actor the number of the one that it holds.
#[derive(Debug, Drop)]
pub struct Flush {
    pub(crate) quiesce: Quiesce,
    pub(crate) links: Vec<Link>,
    pub(crate) claimed: usize,
    pub(crate) done: usize,
    pub(crate) held: Vec<Option<usize>>,
}

impl Flush {
    /// The number of the worklink that an actor holds.
    pub(crate) fn number_of(&self, actor: u8) -> Option<usize>
        ensures { MatchOption result ((n : ℕ) → At self.now.held.items actor (Some n) → ⊥) (λ n. At self.now.held.items actor (Some n)) }
    {
        match self.held.get(usize::from(actor)) {
            Some(Some(number)) => Some(*number),
            _ => None,
        }
    }
}
