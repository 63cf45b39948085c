//! The places of texts.

ghost use Rattle.std.specs.Prelude.{◌≡◌, ℕ, List, ◌<◌, ◌≤◌, ◌-◌, length, if◌then◌else◌, None, Some, OnOk, nat_eq};
ghost use Rattle.std.specs.List.{slice_index_or};
ghost use Rattle.std.specs.Cmp.Lexicographic.{pointwise};
ghost use Rattle.scan_eval.specs.Places.{text_place, text_slot, near_text, is_text_open};

use crate::slots::{SLOTS, vacant};
use adg_base::list::Duplicate;
use adg_base::memory::Memory;
use adg_base::text::Text;
use std::alloc::Global;
use std::collections::HashMap;

/// The places of texts. A text stands in its slot, or in a map where another has that.
#[derive(Drop)]
pub struct TextIndex {
    near: Vec<Option<TextPlace>>,
    far: HashMap<Vec<u8>, usize>,
}

/// A text and its place.
#[derive(Debug, Drop)]
pub struct TextPlace {
    text: Text,
    place: usize,
}

impl TextIndex {
    /// No text has a place.
    pub fn new(alloc: Global) -> TextIndex
        ensures { (t : List ℕ) → text_place result t ≡ None }
    {
        TextIndex {
            near: Vec::new(alloc),
            far: HashMap::new(alloc),
        }
    }

    /// The place of a text.
    #[inline]
    pub fn find(&self, text: &Text) -> Option<usize>
        ensures { result ≡ text_place self.now text.now }
    {
        match self.find_near(text) {
            Some(place) => Some(place),
            None => self.far.get(text.as_bytes()).copied(),
        }
    }

    /// The place of a text that stands in its slot.
    #[inline]
    #[tactic(auto, using(crate::proofs::NearPlaces::past))]
    fn find_near(&self, text: &Text) -> Option<usize>
        ensures { result ≡ near_text (slice_index_or self.now.near.items (text_slot text.now) None) text.now }
    {
        let slot = slot_of(text.as_bytes());
        if slot < self.near.len() {
            place_in(&self.near[slot], text)
        } else {
            None
        }
    }

    /// Gives a text a place.
    pub fn insert(&mut self, alloc: Global, text: &Text, place: usize) -> Result<(), Memory>
        ensures { OnOk result ((t : List ℕ) → text_place self.new t ≡ (if pointwise nat_eq t text.now then Some place else text_place self.old t)) }
    {
        self.make_slots(alloc)?;
        let slot = slot_of(text.as_bytes());
        if slot < self.near.len() && is_open(&self.near[slot], text) {
            let text = text.copy(alloc)?;
            self.near[slot] = Some(TextPlace { text, place });
        } else {
            let bytes = Vec::from_slice(alloc, text.as_bytes())?;
            self.far.insert(bytes, place)?;
        }
        Ok(())
    }

    /// Makes the slots where there are none yet.
    fn make_slots(&mut self, alloc: Global) -> Result<(), Memory>
        ensures { OnOk result ((t : List ℕ) → text_place self.new t ≡ text_place self.old t) }
    {
        if self.near.is_empty() {
            self.near = vacant(alloc)?;
        }
        Ok(())
    }
}

/// The slot of a text: its first byte and its last two tell it.
#[inline]
fn slot_of(bytes: &[u8]) -> usize
    ensures { result ≡ text_slot bytes.now }
{
    let length = bytes.len();
    let first = byte_at(bytes, 0);
    let before = byte_at(bytes, length.saturating_sub(2));
    let last = byte_at(bytes, length.saturating_sub(1));
    (first + 16 * before + last) % SLOTS
}

/// The byte at an index, 0 behind the end.
#[inline]
fn byte_at(bytes: &[u8], index: usize) -> usize
    ensures value { result ≡ slice_index_or bytes.now index 0 }
    ensures range { result < 256 }
{
    if index < bytes.len() {
        usize::from(bytes[index])
    } else {
        0
    }
}

/// The place of a text, where it is the one in a slot.
#[inline]
fn place_in(entry: &Option<TextPlace>, text: &Text) -> Option<usize>
    ensures { result ≡ near_text entry.now text.now }
{
    match entry {
        Some(near) if text == &near.text => Some(near.place),
        _ => None,
    }
}

/// Whether a slot is empty, or holds the text.
fn is_open(entry: &Option<TextPlace>, text: &Text) -> bool
    ensures { result ≡ is_text_open entry.now text.now }
{
    match entry {
        Some(near) => text == &near.text,
        None => true,
    }
}
