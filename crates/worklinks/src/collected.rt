ghost use Rattle.std.specs.Prelude.{◌≡◌, ◌<◌, [], ◌∷◌, ◌++◌, length, IfOk};

use adg_base::address::AddrList;
use adg_base::list::Duplicate;
use adg_base::memory::Memory;
use adg_base::number::Txn;
use std::alloc::Global;
use std::marker::Model;

/// The addresses that one area gave out for a transaction.
#[derive(Debug, Drop)]
pub struct Collected {
    pub txn: Txn,
    pub addrs: AddrList,
}

impl Duplicate for Collected {
    fn copy(&self, alloc: Global) -> Result<Collected, Memory> {
        let addrs = self.addrs.copy(alloc)?;
        Ok(Collected {
            txn: self.txn,
            addrs,
        })
    }
}

/// The lists that were collected for the transactions of a worklink. The memory for all of them is
/// taken before the first.
#[derive(Debug, Drop)]
pub struct CollectedList {
    lists: Vec<Collected>,
    room: usize,
}

impl Model for CollectedList {
    ghost use Rattle.std.specs.Prelude.{◌≤◌, vec_len, vec_capacity};
    ghost use Rattle.worklinks.specs.Gathered.{Gathered};

    ghost Value = { Gathered };

    ghost view = { λ c. record { lists = c.lists.items; room = c.room } };

    ghost invariant = { λ c. (c.room ≤ vec_capacity c.lists) × (vec_len c.lists ≤ c.room) };
}

impl CollectedList {
    /// An empty list with the memory for `room` lists.
    pub fn with_room(alloc: Global, room: usize) -> Result<CollectedList, Memory>
        ensures { IfOk result (λ collected. collected ≡ record { lists = []; room = room }) }
    {
        let lists = Vec::with_capacity(alloc, room)?;
        Ok(CollectedList { lists, room })
    }

    /// How many lists there is room for in all.
    pub fn room(&self) -> usize
        ensures { result ≡ self.now.room }
    {
        self.room
    }

    /// The lists in the order in which they were added.
    pub fn as_slice(&self) -> &[Collected]
        ensures { result.now ≡ self.now.lists }
    {
        self.lists.as_slice()
    }

    /// Adds a list, where there is room. It takes no memory.
    pub fn push(&mut self, txn: Txn, addrs: AddrList)
        requires { length self.old.lists < self.old.room }
        ensures { self.new ≡ record self.old { lists = self.old.lists ++ (record { txn = txn; addrs = addrs }) ∷ [] } }
    {
        self.lists.push(Collected { txn, addrs }).unwrap();
    }
}

impl Duplicate for CollectedList {
    fn copy(&self, alloc: Global) -> Result<CollectedList, Memory> {
        let mut copied = CollectedList::with_room(alloc, self.room)?;
        for list in &self.lists {
            copied.push(list.txn, list.addrs.copy(alloc)?);
        }
        Ok(copied)
    }
}
