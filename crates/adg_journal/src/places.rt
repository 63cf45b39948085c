ghost use Rattle.std.specs.Prelude.{◌≡◌, false, [], ◌∷◌, ◌++◌, OnOk, OnErr};
ghost use Rattle.std.specs.List.{list_any};
ghost use Rattle.adg_journal.specs.Places.{same_place, with_place, EachOnce};

use adg_base::address::{Addr, AddrList};
use adg_base::list::List;
use adg_base::memory::Memory;
use indexmap::IndexSet;
use std::alloc::Global;
use std::marker::Model;

/// How many addresses are looked at one by one. From the next one on there is an index.
const FEW: usize = 16;

/// Addresses, each once, in the order in which they were noted first. A few are a list and nothing
/// else, since most transactions have a few; more have an index beside it.
#[derive(Debug, Drop)]
pub struct Places {
    alloc: Global,
    list: Vec<Addr>,
    index: Option<Box<IndexSet<Addr>>>,
}

impl Model for Places {
    ghost use Rattle.std.specs.Prelude.{◌≡◌, List, IfSome};
    ghost use Rattle.adg_base.specs.Address.{Place};
    ghost use Rattle.adg_journal.specs.Places.{EachOnce};

    ghost Value = { List Place };

    ghost view = { λ p. p.list.items };

    ghost invariant = { λ p. EachOnce p.list.items × IfSome p.index (λ index. index.value.keys ≡ p.list.items) };
}

impl Places {
    /// No addresses.
    pub fn new(alloc: Global) -> Places
        ensures { result ≡ [] }
    {
        Places {
            alloc,
            list: Vec::new(alloc),
            index: None,
        }
    }

    /// Whether the address is among them.
    fn has(&self, addr: Addr) -> bool
        ensures { result ≡ list_any (same_place addr) self.now }
    {
        match &self.index {
            Some(index) => index.contains(&addr),
            None => self.list.iter().any(|known| addr == *known),
        }
    }

    /// Adds the address behind the others, unless it is among them.
    pub fn note(&mut self, addr: Addr) -> Result<(), Memory>
        ensures ok { OnOk result (self.new ≡ with_place addr self.old) }
        ensures err { OnErr result (self.new ≡ self.old) }
        ensures once { EachOnce self.new }
    {
        if self.has(addr) {
            return Ok(());
        }
        if self.list.len() == FEW {
            self.make_index()?;
        }
        self.add(addr)
    }

    /// Makes the index of the addresses.
    fn make_index(&mut self) -> Result<(), Memory>
        ensures { self.new ≡ self.old }
    {
        let mut index = IndexSet::with_capacity(self.alloc, 2 * FEW)?;
        for addr in &self.list {
            index.insert(*addr)?;
        }
        self.index = Some(Box::new(self.alloc, index)?);
        Ok(())
    }

    /// Adds an address that is not among them.
    fn add(&mut self, addr: Addr) -> Result<(), Memory>
        requires { list_any (same_place addr) self.old ≡ false }
        ensures ok { OnOk result (self.new ≡ self.old ++ addr ∷ []) }
        ensures err { OnErr result (self.new ≡ self.old) }
    {
        self.list.reserve(1)?;
        if let Some(index) = &mut self.index {
            index.insert(addr)?;
        }
        self.list.push_reserved(addr);
        Ok(())
    }

    /// The addresses as a list, without taking memory.
    pub fn into_list(self) -> AddrList
        ensures { result ≡ self }
    {
        List::from_vec(self.list)
    }
}
