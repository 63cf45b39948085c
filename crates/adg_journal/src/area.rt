ghost use Rattle.std.specs.Prelude.{◌≡◌, ◌↔◌, true, false, [], Some, None, IfSome, OnOk, OnErr};
ghost use Rattle.std.specs.Option.{option_map};
ghost use Rattle.adg_base.specs.Area.{Held};
ghost use Rattle.adg_journal.specs.Places.{with_place, EachOnce};
ghost use Rattle.adg_journal.specs.Area.{held_of, places_of, is_begun, Sets, HoldsSame, IsArea};

use crate::noted::Noted;
use crate::places::Places;
use adg_base::address::{Addr, AddrList};
use adg_base::memory::Memory;
use adg_base::number::Txn;
use indexmap::IndexMap;
use std::alloc::Global;
use std::marker::Model;

/// The part of the journal that one worker keeps: of each transaction whether its beginning was noted,
/// and the addresses that were, each once, in the order in which they were noted first.
#[derive(Debug, Drop)]
pub struct Area {
    alloc: Global,
    transactions: IndexMap<Txn, Noted>,
}

impl Model for Area {
    ghost use Rattle.std.specs.Prelude.{List};
    ghost use Rattle.adg_base.specs.Area.{Held};
    ghost use Rattle.adg_journal.specs.Area.{IsArea};
    ghost use Rattle.adg_journal.specs.Shown.{shown};

    ghost Value = { List Held };

    ghost view = { λ a. shown a.transactions.entries };

    ghost invariant = { λ a. IsArea (shown a.transactions.entries) };
}

impl Area {
    /// The area that holds nothing.
    pub fn new(alloc: Global) -> Area
        ensures { result ≡ [] }
    {
        Area {
            alloc,
            transactions: IndexMap::new(alloc),
        }
    }

    /// Notes an address for a transaction.
    pub fn note(&mut self, txn: Txn, addr: Addr) -> Result<(), Memory>
        ensures ok { OnOk result (Sets self.old self.new txn (Some (record { txn = txn; begun = is_begun self.old txn; places = with_place addr (places_of self.old txn) }))) }
        ensures err { OnErr result (HoldsSame self.old self.new) }
        ensures area { IsArea self.new }
    {
        if let Some(noted) = self.transactions.get_mut(&txn) {
            return noted.places.note(addr);
        }
        let mut places = Places::new(self.alloc);
        places.note(addr)?;
        let begun = false;
        self.transactions.insert(txn, Noted { begun, places })?;
        Ok(())
    }

    /// Notes that a transaction began.
    pub fn begin(&mut self, txn: Txn) -> Result<(), Memory>
        ensures ok { OnOk result (Sets self.old self.new txn (Some (record { txn = txn; begun = true; places = places_of self.old txn }))) }
        ensures err { OnErr result (HoldsSame self.old self.new) }
        ensures area { IsArea self.new }
    {
        if let Some(noted) = self.transactions.get_mut(&txn) {
            noted.begun = true;
            return Ok(());
        }
        let places = Places::new(self.alloc);
        let begun = true;
        self.transactions.insert(txn, Noted { begun, places })?;
        Ok(())
    }

    /// Whether it was noted that the transaction began.
    pub fn end(&self, txn: Txn) -> bool
        ensures { result ≡ is_begun self.now txn }
    {
        match self.transactions.get(&txn) {
            Some(noted) => noted.begun,
            None => false,
        }
    }

    /// Takes out what is held of a transaction, and gives its addresses. None where nothing is held.
    pub fn collect(&mut self, txn: Txn) -> Option<AddrList>
        ensures places { result ≡ option_map (λ (held : Held). held.places) (held_of self.old txn) }
        ensures none { (result ≡ None) ↔ ((places_of self.old txn ≡ []) × (is_begun self.old txn ≡ false)) }
        ensures once { IfSome result EachOnce }
        ensures gone { Sets self.old self.new txn None }
        ensures area { IsArea self.new }
    {
        let noted = self.transactions.swap_remove(&txn)?;
        Some(noted.places.into_list())
    }
}
