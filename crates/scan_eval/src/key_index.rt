//! Where the group of each key stands.

ghost use Rattle.std.specs.Prelude.{◌≡◌, if◌then◌else◌, None, Some, OnOk};
ghost use Rattle.adg_base.specs.declared.value.Value.{Value as Datum};
ghost use Rattle.adg_base.specs.Values.{shown, same};
ghost use Rattle.scan_eval.specs.KeyIndex.{place_at};

use crate::number_index::NumberIndex;
use crate::text_index::TextIndex;
use adg_base::memory::Memory;
use adg_base::value_ref::ValueRef;
use std::alloc::Global;

/// The places of keys in a list. A key is looked up where it lies, and kept once where it is new.
#[derive(Drop)]
pub struct KeyIndex {
    null: Option<usize>,
    numbers: NumberIndex,
    texts: TextIndex,
}

impl KeyIndex {
    /// No key has a place.
    pub fn new(alloc: Global) -> KeyIndex
        ensures { (key : Datum) → place_at result key ≡ None }
    {
        KeyIndex {
            null: None,
            numbers: NumberIndex::new(alloc),
            texts: TextIndex::new(alloc),
        }
    }

    /// The place of a key.
    #[inline]
    pub fn find(&self, key: ValueRef<'_>) -> Option<usize>
        ensures { result ≡ place_at self.now (shown key.entry) }
    {
        match key {
            ValueRef::Null => self.null,
            ValueRef::Int(number) => self.numbers.find(number),
            ValueRef::Text(text) => self.texts.find(text),
        }
    }

    /// Gives a key a place.
    pub fn insert(&mut self, alloc: Global, key: ValueRef<'_>, place: usize) -> Result<(), Memory>
        ensures { OnOk result ((k : Datum) → place_at self.new k ≡ (if same k (shown key.entry) then Some place else place_at self.old k)) }
    {
        match key {
            ValueRef::Null => self.null = Some(place),
            ValueRef::Int(number) => self.numbers.insert(alloc, number, place)?,
            ValueRef::Text(text) => self.texts.insert(alloc, text, place)?,
        }
        Ok(())
    }
}
