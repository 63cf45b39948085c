ghost use Rattle.std.specs.Prelude.{◌≡◌, not, [], ◌∷◌, ◌++◌, None, OnOk, OnErr};
ghost use Rattle.std.specs.Option.{option_copied};
ghost use Rattle.std.specs.List.Sorted.{IsNonDecreasingBy};
ghost use Rattle.dictionary.specs.History.{has_steps, last_from, defined_from};

use adg_base::definition::Definition;
use adg_base::memory::Memory;
use adg_base::number::Scn;
use std::alloc::Global;
use std::marker::Model;

/// What a DDL entry of an object made of its definition: None where the object was dropped.
#[derive(Debug, Drop)]
pub struct Step {
    pub scn: Scn,
    pub definition: Option<Definition>,
}

/// The definitions of an object, one for each of its DDL entries, in the order of the log.
#[derive(Debug, Drop)]
pub struct History {
    steps: Vec<Step>,
}

impl Model for History {
    ghost use Rattle.std.specs.Prelude.{List};
    ghost use Rattle.dictionary.specs.declared.history.Step.{Step as Made};

    ghost Value = { List Made };

    ghost view = { λ h. h.steps.items };
}

impl History {
    /// The history of an object of which there was no entry.
    pub fn new(alloc: Global) -> History
        ensures { result ≡ [] }
    {
        History {
            steps: Vec::new(alloc),
        }
    }

    /// Whether there was no entry.
    pub fn is_empty(&self) -> bool
        ensures { result ≡ not (has_steps self.now) }
    {
        self.steps.is_empty()
    }

    /// The definition after all entries.
    pub fn latest(&self) -> Option<&Definition>
        ensures { option_copied result ≡ last_from None self.now }
    {
        self.steps.last()?.definition.as_ref()
    }

    /// The definition after the entries with SCNs up to one.
    pub fn at(&self, scn: Scn) -> Option<&Definition>
        ensures { IsNonDecreasingBy (λ step. step.scn) self.now → option_copied result ≡ defined_from None scn self.now }
    {
        let upto = self
            .steps
            .partition_point(|step| step.scn.get() <= scn.get());
        self.steps[..upto].last()?.definition.as_ref()
    }

    /// Adds the definition that an entry of this SCN made.
    pub fn push(&mut self, scn: Scn, definition: Option<Definition>) -> Result<(), Memory>
        ensures ok { OnOk result (self.new ≡ self.old ++ record { scn = scn; definition = definition } ∷ []) }
        ensures err { OnErr result (self.new ≡ self.old) }
    {
        self.steps.push(Step { scn, definition })?;
        Ok(())
    }
}
