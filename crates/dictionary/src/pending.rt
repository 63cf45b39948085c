ghost use Rattle.std.specs.Prelude.{◌≡◌, ℕ, List, [], cond, nat_eq, nat_lt, Some, None, is_some, not, IfOk, OnOk, OnErr};
ghost use Rattle.adg_base.specs.Address.{Place};
ghost use Rattle.dictionary.specs.declared.change.Change.{Change as Key};
ghost use Rattle.dictionary.specs.Pending.{kept_at, count_of, earlier_at, one_more, one_less, SetsAt, HasChain};

use crate::change::{Change, Pending};
use adg_base::address::Addr;
use adg_base::memory::Memory;
use adg_base::number::Txn;
use std::alloc::Global;
use std::collections::HashMap;
use std::collections::hash_map::Entry;
use std::marker::Model;

/// The pending changes of all transactions, counted at each address.
#[derive(Debug, Drop)]
pub struct PendingChanges {
    kept: HashMap<Change, Pending>,
}

impl Model for PendingChanges {
    ghost use Rattle.std.specs.Prelude.{List};
    ghost use Rattle.dictionary.specs.declared.change.Change.{Change as Key};
    ghost use Rattle.dictionary.specs.declared.change.Pending.{Pending as Kept};

    ghost Value = { List (Key × Kept) };

    ghost view = { λ p. p.kept.entries };
}

impl PendingChanges {
    /// No changes.
    pub fn new(alloc: Global) -> PendingChanges
        ensures { result ≡ [] }
    {
        PendingChanges {
            kept: HashMap::new(alloc),
        }
    }

    /// Whether a change is pending there.
    pub fn has(&self, change: Change) -> bool
        ensures { result ≡ nat_lt 0 (count_of (kept_at self.now change)) }
    {
        match self.kept.get(&change) {
            Some(pending) => pending.count > 0,
            None => false,
        }
    }

    /// Counts one more. Where nothing is kept of it, the address that its transaction changed before is
    /// kept with it, and the answer is true. A count of `2^64` would be want of memory too; the positions
    /// of a log end before it.
    pub fn add(&mut self, change: Change, earlier: Option<Addr>) -> Result<bool, Memory>
        ensures is_new { IfOk result (λ new. new ≡ not (is_some (kept_at self.old change))) }
        ensures ok { OnOk result (SetsAt self.old self.new change (Some (one_more earlier (kept_at self.old change)))) }
        ensures err { OnErr result (self.new ≡ self.old) }
    {
        match self.kept.entry(change)? {
            Entry::Occupied(mut held) => {
                let was = *held.get();
                let count = was.count.checked_add(1).ok_or(Memory)?;
                held.insert(Pending {
                    count,
                    earlier: was.earlier,
                });
                Ok(false)
            }
            Entry::Vacant(free) => {
                free.insert_entry(Pending { count: 1, earlier });
                Ok(true)
            }
        }
    }

    /// Counts one less, where something is kept of it.
    pub fn strike(&mut self, change: Change)
        ensures { SetsAt self.old self.new change (one_less (kept_at self.old change)) }
    {
        if let Some(pending) = self.kept.get_mut(&change) {
            pending.count = pending.count.saturating_sub(1);
        }
    }

    /// Takes out the changes of a transaction, from the last address of its chain back.
    pub fn forget(&mut self, txn: Txn, latest: Option<Addr>)
        ensures { HasChain (earlier_at self.old txn) latest →
            (q : Key) → kept_at self.new q ≡ cond (nat_eq txn q.txn) None (kept_at self.old q) }
    {
        let mut next = latest;
        while let Some(addr) = next {
            match self.kept.remove(&Change { txn, addr }) {
                Some(pending) => next = pending.earlier,
                None => break,
            }
        }
    }
}
