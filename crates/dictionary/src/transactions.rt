ghost use Rattle.std.specs.Prelude.{◌≡◌, true, false, List, Option, Ok, IfOk, OnOk, OnErr};
ghost use Rattle.adg_base.specs.declared.value.Value.{Value as Cell};
ghost use Rattle.adg_model.specs.Database.{Database, has_change, with_change, with_end};
ghost use Rattle.adg_model.specs.Database as model;
ghost use Rattle.adg_model.specs.Sound as sound;
ghost use Rattle.adg_base.specs.declared.vector.Vector.TheVariants.{Begin, Undo};
ghost use Rattle.dictionary.specs.Transactions.{TracksIn};

use crate::change::{Change, Running};
use crate::pending::PendingChanges;
use adg_base::address::Addr;
use adg_base::memory::Memory;
use adg_base::number::Txn;
use std::alloc::Global;
use std::collections::{HashMap, HashSet};
use std::marker::Model;

/// All transactions that were begun: the running ones with their pending changes, and of those that
/// have ended the name alone.
#[derive(Debug, Drop)]
pub struct Transactions {
    ended: HashSet<Txn>,
    running: HashMap<Txn, Running>,
    pending: PendingChanges,
}

impl Model for Transactions {
    ghost use Rattle.dictionary.specs.Transactions.{Held};

    ghost Value = { Held };

    ghost view = { λ t. record { ended = t.ended.keys; running = t.running.entries; pending = t.pending } };
}

impl Transactions {
    /// No transactions.
    pub fn new(alloc: Global) -> Transactions
        ensures { TracksIn result model.no_database }
    {
        Transactions {
            ended: HashSet::new(alloc),
            running: HashMap::new(alloc),
            pending: PendingChanges::new(alloc),
        }
    }

    /// Whether the transaction was begun, also where it has ended.
    pub fn is_begun(&self, txn: Txn) -> bool
        ensures { (db : Database) → TracksIn self.now db → result ≡ db.begun txn }
    {
        self.running.contains_key(&txn) || self.ended.contains(&txn)
    }

    /// Whether the transaction was begun and has not ended.
    pub fn is_running(&self, txn: Txn) -> bool
        ensures { (db : Database) → TracksIn self.now db → result ≡ sound.is_running db txn }
    {
        self.running.contains_key(&txn)
    }

    /// Whether a running transaction changed a row of an object that was in-memory then.
    pub fn is_noted(&self, txn: Txn) -> bool
        ensures { (db : Database) → TracksIn self.now db → sound.is_running db txn ≡ true → result ≡ db.noted txn }
    {
        match self.running.get(&txn) {
            Some(running) => running.noted,
            None => false,
        }
    }

    /// Whether the transaction has a pending change at the address.
    pub fn has_pending(&self, txn: Txn, addr: Addr) -> bool
        ensures { (db : Database) → TracksIn self.now db → result ≡ has_change addr (db.pending txn) }
    {
        self.pending.has(Change { txn, addr })
    }

    /// Begins a transaction that was not begun.
    pub fn begin(&mut self, txn: Txn) -> Result<(), Memory>
        ensures ok { OnOk result ((db : Database) → TracksIn self.old db → db.begun txn ≡ false → TracksIn self.new (model.after db (Begin txn))) }
        ensures err { OnErr result (self.new ≡ self.old) }
    {
        let running = Running {
            noted: false,
            latest: None,
        };
        self.running.insert(txn, running)?;
        Ok(())
    }

    /// Adds a pending change of a transaction, where it is running, and tells whether it is; the flag says
    /// whether the object is in-memory.
    pub fn change(&mut self, txn: Txn, addr: Addr, in_memory: bool) -> Result<bool, Memory>
        ensures running { IfOk result (λ ran. (db : Database) → TracksIn self.old db → ran ≡ sound.is_running db txn) }
        ensures ok { OnOk result ((db : Database) (row : Option (List Cell)) → TracksIn self.old db → sound.is_running db txn ≡ true
            → in_memory ≡ model.is_in_memory (db.tables addr.obj) → TracksIn self.new (with_change db txn (record { at = addr; row = row }))) }
        ensures idle { result ≡ Ok false → self.new ≡ self.old }
        ensures err { OnErr result (self.new ≡ self.old) }
    {
        let Some(running) = self.running.get_mut(&txn) else {
            return Ok(false);
        };
        let is_new = self.pending.add(Change { txn, addr }, running.latest)?;
        running.noted = running.noted || in_memory;
        if is_new {
            running.latest = Some(addr);
        }
        Ok(true)
    }

    /// Strikes the latest pending change of a running transaction at an address.
    pub fn undo(&mut self, txn: Txn, addr: Addr)
        ensures { (db : Database) → TracksIn self.old db → has_change addr (db.pending txn) ≡ true →
            TracksIn self.new (model.after db (Undo txn addr.obj addr.block addr.slot)) }
    {
        self.pending.strike(Change { txn, addr });
    }

    /// Ends a running transaction and forgets its changes.
    pub fn end(&mut self, txn: Txn) -> Result<(), Memory>
        ensures ok { OnOk result ((db : Database) → TracksIn self.old db → sound.is_running db txn ≡ true → TracksIn self.new (with_end db txn)) }
        ensures err { OnErr result (self.new ≡ self.old) }
    {
        self.ended.insert(txn)?;
        if let Some(running) = self.running.remove(&txn) {
            self.pending.forget(txn, running.latest);
        }
        Ok(())
    }
}
