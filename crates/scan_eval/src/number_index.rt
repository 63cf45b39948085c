//! The places of numbers.

ghost use Rattle.std.specs.Prelude.{◌≡◌, ℤ, ◌<◌, if◌then◌else◌, None, Some, OnOk, slice_get};
ghost use Rattle.std.specs.List.{slice_index_or};
ghost use Rattle.std.specs.Ordering.{int_eq};
ghost use Rattle.scan_eval.specs.Places.{number_place, number_slot, near_number, is_number_open};

use crate::slots::{SLOTS, vacant};
use adg_base::memory::Memory;
use std::alloc::Global;
use std::collections::HashMap;

/// The places of numbers. A number stands in its slot, or in a map where another has that.
#[derive(Drop)]
pub struct NumberIndex {
    near: Vec<Option<NumberPlace>>,
    far: HashMap<i64, usize>,
}

/// A number and its place.
#[derive(Clone, Copy, Debug)]
pub struct NumberPlace {
    number: i64,
    place: usize,
}

impl NumberIndex {
    /// No number has a place.
    pub fn new(alloc: Global) -> NumberIndex
        ensures { (n : ℤ) → number_place result n ≡ None }
    {
        NumberIndex {
            near: Vec::new(alloc),
            far: HashMap::new(alloc),
        }
    }

    /// The place of a number.
    #[inline]
    pub fn find(&self, number: i64) -> Option<usize>
        ensures { result ≡ number_place self.now number }
    {
        match self.find_near(number) {
            Some(place) => Some(place),
            None => self.far.get(&number).copied(),
        }
    }

    /// The place of a number that stands in its slot.
    #[inline]
    #[tactic(auto, using(crate::proofs::NearPlaces::past))]
    fn find_near(&self, number: i64) -> Option<usize>
        ensures { result ≡ near_number (slice_index_or self.now.near.items (number_slot number) None) number }
    {
        let slot = slot_of(number);
        if slot < self.near.len() {
            place_in(&self.near[slot], number)
        } else {
            None
        }
    }

    /// Gives a number a place.
    pub fn insert(&mut self, alloc: Global, number: i64, place: usize) -> Result<(), Memory>
        ensures { OnOk result ((n : ℤ) → number_place self.new n ≡ (if int_eq n number then Some place else number_place self.old n)) }
    {
        self.make_slots(alloc)?;
        let slot = slot_of(number);
        if slot < self.near.len() && is_open(&self.near[slot], number) {
            self.near[slot] = Some(NumberPlace { number, place });
        } else {
            self.far.insert(number, place)?;
        }
        Ok(())
    }

    /// Makes the slots where there are none yet.
    fn make_slots(&mut self, alloc: Global) -> Result<(), Memory>
        ensures { OnOk result ((n : ℤ) → number_place self.new n ≡ number_place self.old n) }
    {
        if self.near.is_empty() {
            self.near = vacant(alloc)?;
        }
        Ok(())
    }
}

/// The slot of a number.
#[inline]
fn slot_of(number: i64) -> usize
    ensures { result ≡ number_slot number }
{
    (number.unsigned_abs() % SLOTS as u64) as usize
}

/// The place of a number, where it is the one in a slot.
#[inline]
fn place_in(entry: &Option<NumberPlace>, number: i64) -> Option<usize>
    ensures { result ≡ near_number entry.now number }
{
    match entry {
        Some(near) if near.number == number => Some(near.place),
        _ => None,
    }
}

/// Whether a slot is empty, or holds the number.
fn is_open(entry: &Option<NumberPlace>, number: i64) -> bool
    ensures { result ≡ is_number_open entry.now number }
{
    match entry {
        Some(near) => near.number == number,
        None => true,
    }
}
