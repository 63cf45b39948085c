ghost use Rattle.std.specs.Prelude.{◌≡◌, ℕ, ◌+◌, ◌<◌, ◌^◌, Ok, Some, false, nat_lt, if◌then◌else◌, IfOk, OnOk, OnErr, option_copied};
ghost use Rattle.adg_base.specs.Shard.{shard_of_vector};
ghost use Rattle.adg_base.specs.Address.{Place, place};
ghost use Rattle.row_blocks.specs.Versions.{Makes, Strikes};
ghost use Rattle.row_blocks.specs.Stands.{SameKept, StandsFromStart, StandsForMore, with_entry, after_entry, none_kept};
ghost use Rattle.row_blocks.specs.Pick.{counted};
ghost use Rattle.row_blocks.specs.Shard.{shown, DoesAt, EndsAt, at_slot};
ghost use Rattle.row_blocks.specs.Settled.{unsettled, settled_at, SetsSettled};

use crate::block::{Block, SLOTS};
use crate::ends::Ends;
use crate::settled::Settled;
use crate::version::{End, Version};
use adg_base::address::Addr;
use adg_base::list::Duplicate;
use adg_base::log::LogEntry;
use adg_base::memory::Memory;
use adg_base::number::{Obj, Pos, Scn, Txn};
use adg_base::vector::Vector;
use std::alloc::Global;
use std::collections::HashMap;

/// What an entry did to a shard.
#[derive(Clone, Copy, Debug, PartialEq, Eq)]
pub enum Applied {
    /// It is applied now.
    Done,
    /// It was applied before.
    Already,
}

/// How many more versions an address gets before it is looked at again how many of them are settled.
pub(crate) const STRIDE: usize = 16;

/// One of the 64 shards: the versions of its blocks' rows and the ends of its transactions, as far
/// as it has come in the log. Of an address with many versions it keeps how many are settled, and of
/// one address that it is time to look at that.
#[derive(Drop)]
pub struct Shard {
    alloc: Global,
    number: u8,
    applied: Pos,
    blocks: HashMap<(u16, u16), Block>,
    ends: Ends,
    settled: HashMap<Addr, Settled>,
    due: Option<Addr>,
}

impl Shard {
    /// The shard of this number with nothing applied.
    pub fn new(alloc: Global, number: u8) -> Shard
        ensures empty { SameKept (shown result) (none_kept number) }
        ensures stands { StandsFromStart (shown result) }
        ensures settled { (a : Place) → settled_at result a ≡ unsettled }
    {
        Shard {
            alloc,
            number,
            applied: Pos::new(0),
            blocks: HashMap::new(alloc),
            ends: Ends::new(alloc),
            settled: HashMap::new(alloc),
            due: None,
        }
    }

    /// The number of the shard.
    pub fn number(&self) -> u8
        ensures { result ≡ self.now.number }
    {
        self.number
    }

    /// The position below which its entries are applied.
    pub fn applied(&self) -> Pos
        ensures { result ≡ self.now.applied }
    {
        self.applied
    }

    /// The block, where it has a version.
    pub fn block(&self, obj: Obj, block: u16) -> Option<&Block>
        ensures { (slot : ℕ) → at_slot (option_copied result) slot ≡ (shown self.now).versions (place obj block slot) }
    {
        self.blocks.get(&(obj.get(), block))
    }

    /// The versions at an address, the earliest first.
    pub fn versions(&self, addr: Addr) -> &[Version]
        ensures { result.now ≡ (shown self.now).versions addr }
    {
        match self.block(addr.obj(), addr.block()) {
            Some(block) => block.versions(addr.slot()),
            None => &[],
        }
    }

    /// The end of a transaction, where it is applied here.
    pub fn ends(&self, txn: Txn) -> Option<End>
        ensures { result ≡ (shown self.now).ends txn }
    {
        self.ends.get(txn)
    }

    /// Where a transaction committed that counts at `q`.
    pub(crate) fn commit_upto(&self, txn: Txn, q: Scn) -> Option<u64>
        ensures { result ≡ counted q ((shown self.now).ends txn) }
    {
        self.ends.commit_upto(txn, q)
    }

    /// How many versions at an address are settled, as far as that is known.
    pub fn settled(&self, addr: Addr) -> Settled
        ensures { result ≡ settled_at self.now addr }
    {
        match self.settled.get(&addr) {
            Some(known) => *known,
            None => Settled::none(),
        }
    }

    /// The address of which it is time to look how many versions are settled.
    pub(crate) fn due(&self) -> Option<Addr> {
        self.due
    }

    /// Keeps how many versions at an address are settled, and that no address is due. Without memory
    /// for it what was known stays.
    pub(crate) fn settle(&mut self, addr: Addr, settled: Settled)
        ensures same { SameKept (shown self.new) (shown self.old) }
        ensures settled { SetsSettled self.old self.new addr settled }
    {
        self.due = None;
        let _ = self.settled.insert(addr, settled);
    }

    /// Applies an entry of this shard, at a position below the last of its type: there the
    /// position applied stands still.
    pub fn apply(&mut self, entry: &LogEntry) -> Result<Applied, Memory>
        requires { shard_of_vector entry.now.vector ≡ Some self.old.number }
        ensures answer { IfOk result (λ applied. applied ≡ (if nat_lt entry.now.pos self.old.applied then Applied.Already else Applied.Done)) }
        ensures already { result ≡ Ok Applied.Already → self.new ≡ self.old }
        ensures done { result ≡ Ok Applied.Done → entry.now.pos + 1 < 2 ^ 64 → SameKept (shown self.new) (after_entry (shown self.old) entry.now) }
        ensures stands { result ≡ Ok Applied.Done → entry.now.pos + 1 < 2 ^ 64 → StandsForMore (shown self.old) entry.now (shown self.new) }
        ensures number { self.new.number ≡ self.old.number }
        ensures settled { self.new.settled ≡ self.old.settled }
        ensures err { OnErr result (SameKept (shown self.new) (shown self.old)) }
    {
        if entry.pos < self.applied {
            return Ok(Applied::Already);
        }
        self.play(entry)?;
        self.applied = Pos::new(entry.pos.get().saturating_add(1));
        Ok(Applied::Done)
    }

    /// What an entry makes of the versions and the ends.
    fn play(&mut self, entry: &LogEntry) -> Result<(), Memory>
        ensures ok { OnOk result (SameKept (shown self.new) (with_entry (shown self.old) entry.now)) }
        ensures settled { self.new.settled ≡ self.old.settled }
        ensures err { OnErr result (SameKept (shown self.new) (shown self.old)) }
    {
        match &entry.vector {
            Vector::Put {
                txn,
                obj,
                block,
                slot,
                row,
            } => {
                let version = Version {
                    pos: entry.pos,
                    txn: *txn,
                    row: Some(row.copy(self.alloc)?),
                    struck: false,
                };
                self.make(*obj, *block, *slot, version)
            }
            Vector::Delete {
                txn,
                obj,
                block,
                slot,
            } => {
                let version = Version {
                    pos: entry.pos,
                    txn: *txn,
                    row: None,
                    struck: false,
                };
                self.make(*obj, *block, *slot, version)
            }
            Vector::Undo {
                txn,
                obj,
                block,
                slot,
            } => {
                self.strike(*obj, *block, *slot, *txn);
                Ok(())
            }
            Vector::Commit { txn, .. } => self.end(*txn, entry.pos, entry.scn, true),
            Vector::Abort { txn } => self.end(*txn, entry.pos, entry.scn, false),
            Vector::Begin { .. }
            | Vector::Create { .. }
            | Vector::DropObject { .. }
            | Vector::AddColumn { .. }
            | Vector::NoInMemory { .. }
            | Vector::EndThread => Ok(()),
        }
    }

    /// Keeps the end of a transaction, unless there is one.
    fn end(&mut self, txn: Txn, pos: Pos, scn: Scn, committed: bool) -> Result<(), Memory>
        ensures ok { OnOk result (EndsAt (shown self.old) (shown self.new) txn (record { pos = pos; scn = scn; committed = committed })) }
        ensures settled { self.new.settled ≡ self.old.settled }
        ensures err { OnErr result (SameKept (shown self.new) (shown self.old)) }
    {
        self.ends.enter(
            txn,
            End {
                pos,
                scn,
                committed,
            },
        )
    }

    /// Adds a version at a slot of a block. A slot of 64 or more is no address, and has none.
    fn make(&mut self, obj: Obj, block: u16, slot: u8, version: Version) -> Result<(), Memory>
        requires { version.struck ≡ false }
        ensures ok { OnOk result (DoesAt (shown self.old) (shown self.new) (place obj block slot) version.pos (Makes version.txn version.row)) }
        ensures settled { self.new.settled ≡ self.old.settled }
        ensures err { OnErr result (SameKept (shown self.new) (shown self.old)) }
    {
        if slot >= SLOTS {
            return Ok(());
        }
        let key = (obj.get(), block);
        if let Some(known) = self.blocks.get_mut(&key) {
            known.push(slot, version)?;
            self.due = due_at(obj, block, slot, known.versions(slot).len());
            return Ok(());
        }
        let mut fresh = Block::new(self.alloc);
        fresh.push(slot, version)?;
        self.blocks.insert(key, fresh)?;
        Ok(())
    }

    /// Strikes the latest version of a transaction at a slot of a block.
    fn strike(&mut self, obj: Obj, block: u16, slot: u8, txn: Txn)
        ensures strikes { (pos : ℕ) → DoesAt (shown self.old) (shown self.new) (place obj block slot) pos (Strikes txn) }
        ensures settled { self.new.settled ≡ self.old.settled }
    {
        if slot < SLOTS {
            if let Some(known) = self.blocks.get_mut(&(obj.get(), block)) {
                known.strike(slot, txn);
            }
        }
    }
}

/// The address of a slot, where it is time to look how many of its versions are settled.
fn due_at(obj: Obj, block: u16, slot: u8, count: usize) -> Option<Addr> {
    if count % STRIDE == 0 {
        Addr::new(obj, block, slot)
    } else {
        None
    }
}
