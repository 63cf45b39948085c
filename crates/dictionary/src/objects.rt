ghost use Rattle.std.specs.Prelude.{◌≡◌, ℕ, ◌<◌, ◌^◌, true, List, [], vec_len, OnOk, OnErr};
ghost use Rattle.std.specs.Option.{option_copied};
ghost use Rattle.std.specs.List.Sorted.{IsNonDecreasingBy};
ghost use Rattle.dictionary.specs.History.{has_steps, last_from, defined_from};
ghost use Rattle.dictionary.specs.Objects.{steps_of, AddsStep};

use crate::history::History;
use adg_base::definition::Definition;
use adg_base::memory::Memory;
use adg_base::number::{Obj, Scn};
use std::alloc::Global;
use std::marker::Model;

/// The histories of all objects that were created, each at the number of its object. An object that was
/// not created has an empty one, or none.
#[derive(Debug, Drop)]
pub struct Objects {
    alloc: Global,
    histories: Vec<History>,
}

impl Model for Objects {
    ghost use Rattle.std.specs.Prelude.{List};
    ghost use Rattle.dictionary.specs.declared.history.Step.{Step as Made};

    ghost Value = { List (List Made) };

    ghost view = { λ o. o.histories.items };
}

impl Objects {
    /// No objects.
    pub fn new(alloc: Global) -> Objects
        ensures { result ≡ [] }
    {
        Objects {
            alloc,
            histories: Vec::new(alloc),
        }
    }

    /// Whether the object was created, also where it is dropped.
    pub fn is_created(&self, obj: Obj) -> bool
        ensures { result ≡ has_steps (steps_of self.now obj) }
    {
        match self.histories.get(place_of(obj)) {
            Some(history) => !history.is_empty(),
            None => false,
        }
    }

    /// The definition of an object that is not dropped.
    pub fn latest(&self, obj: Obj) -> Option<&Definition>
        ensures { option_copied result ≡ last_from None (steps_of self.now obj) }
    {
        self.histories.get(place_of(obj))?.latest()
    }

    /// The definition after the entries with SCNs up to one.
    pub fn at(&self, obj: Obj, scn: Scn) -> Option<&Definition>
        ensures { IsNonDecreasingBy (λ step. step.scn) (steps_of self.now obj) → option_copied result ≡ defined_from None scn (steps_of self.now obj) }
    {
        self.histories.get(place_of(obj))?.at(scn)
    }

    /// Begins the history of an object that was not created.
    pub fn create(
        &mut self,
        obj: Obj,
        scn: Scn,
        definition: Option<Definition>,
    ) -> Result<(), Memory>
        ensures ok { OnOk result (steps_of self.old obj ≡ [] → AddsStep self.old self.new obj (record { scn = scn; definition = definition })) }
        ensures err { OnErr result (self.new ≡ self.old) }
    {
        let mut history = History::new(self.alloc);
        history.push(scn, definition)?;
        reach(&mut self.histories, self.alloc, place_of(obj))?;
        self.histories[place_of(obj)] = history;
        Ok(())
    }

    /// Adds to the history of an object that was created.
    pub fn change(
        &mut self,
        obj: Obj,
        scn: Scn,
        definition: Option<Definition>,
    ) -> Result<(), Memory>
        ensures ok { OnOk result (has_steps (steps_of self.old obj) ≡ true → AddsStep self.old self.new obj (record { scn = scn; definition = definition })) }
        ensures err { OnErr result (self.new ≡ self.old) }
    {
        match self.histories.get_mut(place_of(obj)) {
            Some(history) => history.push(scn, definition),
            None => Ok(()),
        }
    }
}

/// Where the list has the history of an object.
fn place_of(obj: Obj) -> usize
    ensures value { result ≡ obj }
    ensures range { result < 2 ^ 16 }
{
    usize::from(obj.get())
}

/// Lengthens the list by empty histories up to this place.
fn reach(histories: &mut Vec<History>, alloc: Global, place: usize) -> Result<(), Memory>
    requires { place < 2 ^ 16 }
    ensures place { OnOk result (place < vec_len histories.new) }
    ensures ok { OnOk result ((q : ℕ) → steps_of histories.new.items q ≡ steps_of histories.old.items q) }
    ensures err { OnErr result (histories.new.items ≡ histories.old.items) }
{
    if place < histories.len() {
        return Ok(());
    }
    histories.reserve(place + 1 - histories.len())?;
    while histories.len() <= place {
        histories.push_reserved(History::new(alloc));
    }
    Ok(())
}
