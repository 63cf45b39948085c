ghost use Rattle.std.specs.Prelude.{◌≡◌, [], ◌∷◌, ◌++◌, ◌==◌, length, IfOk, OnOk, OnErr};

use crate::memory::Memory;
use std::alloc::Global;
use std::marker::Model;

/// What can be copied where memory allows.
pub trait Duplicate {
    /// A second value that equals this one.
    fn copy(&self, alloc: Global) -> Result<Self, Memory>
        ensures { IfOk result (λ copy. copy ≡ self.now) };
}

impl Duplicate for u8 {
    fn copy(&self, _alloc: Global) -> Result<u8, Memory> {
        Ok(*self)
    }
}

/// A list over a `Vec`. Contracts see the list of its entries and nothing of how it lies in memory.
#[derive(Debug, Drop)]
pub struct List<T> {
    entries: Vec<T>,
}

/// A list of bytes.
pub type Bytes = List<u8>;

impl<T> Model for List<T> {
    ghost use Rattle.std.specs.Prelude.{List as ListOf};

    ghost Value = { ListOf T };

    ghost view = { λ l. l.entries.items };
}

impl<T> List<T> {
    /// The empty list.
    pub fn new(alloc: Global) -> List<T>
        ensures { result ≡ [] }
    {
        List {
            entries: Vec::new(alloc),
        }
    }

    /// The entries of a `Vec`, without taking memory.
    pub fn from_vec(entries: Vec<T>) -> List<T>
        ensures { result ≡ entries.items }
    {
        List { entries }
    }

    /// The entries as a `Vec`, without taking memory.
    pub fn into_vec(self) -> Vec<T>
        ensures { result.items ≡ self }
    {
        self.entries
    }

    /// The entries, lent.
    pub fn as_slice(&self) -> &[T]
        ensures { result.now ≡ self.now }
    {
        self.entries.as_slice()
    }

    /// How many entries there are.
    pub fn len(&self) -> usize
        ensures { result ≡ length self.now }
    {
        self.entries.len()
    }

    /// Whether there is no entry.
    pub fn is_empty(&self) -> bool
        ensures { result ≡ (length self.now == 0) }
    {
        self.entries.is_empty()
    }
}

impl<T: Drop> List<T> {
    /// Adds an entry at the end.
    pub fn push(&mut self, entry: T) -> Result<(), Memory>
        ensures ok { OnOk result (self.new ≡ self.old ++ entry ∷ []) }
        ensures err { OnErr result (self.new ≡ self.old) }
    {
        match self.entries.push(entry) {
            Ok(()) => Ok(()),
            Err(_) => Err(Memory),
        }
    }
}

impl<T: Copy> List<T> {
    /// A list of the entries of a slice.
    pub fn from_slice(alloc: Global, entries: &[T]) -> Result<List<T>, Memory>
        ensures { IfOk result (λ list. list ≡ entries.now) }
    {
        let entries = Vec::from_slice(alloc, entries)?;
        Ok(List { entries })
    }
}

impl<T: Duplicate + Drop> Duplicate for List<T> {
    fn copy(&self, alloc: Global) -> Result<List<T>, Memory> {
        let entries = Vec::with_capacity(alloc, self.entries.len())?;
        let mut copied = List::from_vec(entries);
        for entry in &self.entries {
            copied.push(entry.copy(alloc)?)?;
        }
        Ok(copied)
    }
}
