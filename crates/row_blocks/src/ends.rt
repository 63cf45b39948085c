ghost use Rattle.std.specs.Prelude.{◌≡◌, ℕ, ◌<◌, ◌/◌, ◌==◌, ◌^◌, if◌then◌else◌, true, length, slice_index_or, nat_eq, Some, None, OnOk, OnErr};
ghost use Rattle.std.specs.HashMap.{get};
ghost use Rattle.row_blocks.specs.Versions.{earlier};
ghost use Rattle.row_blocks.specs.Pick.{counted};
ghost use Rattle.row_blocks.specs.Ends.{near_end, end_at};

use crate::pick::commit_upto;
use crate::version::End;
use adg_base::memory::Memory;
use adg_base::number::{Pos, Scn, Txn};
use adg_base::shard::SHARDS;
use std::alloc::Global;
use std::collections::HashMap;

/// How many places the list may have beside two for each end in it.
const ROOM: usize = 64;

/// A place of the list: free, or with the end of a transaction. The two kinds of end are variants, since
/// so a place takes 32 bytes.
#[derive(Clone, Copy)]
pub(crate) enum Near {
    Free,
    Committed { txn: Txn, pos: Pos, scn: Scn },
    Aborted { txn: Txn, pos: Pos, scn: Scn },
}

const _: () = prove!(size_of::<Near>() == 32);

impl Near {
    fn of(txn: Txn, end: End) -> Near
        ensures { (t : ℕ) → near_end result t ≡ (if txn == t then Some end else None) }
    {
        let End {
            pos,
            scn,
            committed,
        } = end;
        if committed {
            Near::Committed { txn, pos, scn }
        } else {
            Near::Aborted { txn, pos, scn }
        }
    }

    /// The end, if it is of this transaction.
    fn end(&self, wanted: Txn) -> Option<End>
        ensures { result ≡ near_end self.now wanted }
    {
        match self {
            Near::Committed { txn, pos, scn } if *txn == wanted => Some(End {
                pos: *pos,
                scn: *scn,
                committed: true,
            }),
            Near::Aborted { txn, pos, scn } if *txn == wanted => Some(End {
                pos: *pos,
                scn: *scn,
                committed: false,
            }),
            _ => None,
        }
    }
}

/// The ends of transactions. Transactions are mostly numbered one after another, and a shard has every
/// 64th. So the ends lie in a plain list, each beside the number of its transaction, at the place
/// `txn / 64`. An end whose place is taken, or too far off, lies in a map. So the list has at most 64
/// places beside two for each end in it, whatever the numbers are.
#[derive(Drop)]
pub(crate) struct Ends {
    near: Vec<Near>,
    used: usize,
    far: HashMap<u64, End>,
}

impl Ends {
    pub(crate) fn new(alloc: Global) -> Ends
        ensures { (t : ℕ) → end_at result t ≡ None }
    {
        Ends {
            near: Vec::new(alloc),
            used: 0,
            far: HashMap::new(alloc),
        }
    }

    pub(crate) fn get(&self, txn: Txn) -> Option<End>
        ensures { result ≡ end_at self.now txn }
    {
        match end_near(&self.near, txn) {
            Some(end) => Some(end),
            None => end_far(&self.far, txn),
        }
    }

    /// Where a transaction committed that counts at `q`. It hands no end out, since copying one costs
    /// more than the look-up.
    pub(crate) fn commit_upto(&self, txn: Txn, q: Scn) -> Option<u64>
        ensures { result ≡ counted q (end_at self.now txn) }
    {
        match end_near(&self.near, txn) {
            Some(end) => commit_upto(Some(end), q),
            None => commit_upto(end_far(&self.far, txn), q),
        }
    }

    /// Keeps the end of a transaction, unless there is one.
    pub(crate) fn enter(&mut self, txn: Txn, end: End) -> Result<(), Memory>
        ensures ok { OnOk result ((t : ℕ) → end_at self.new t ≡ earlier (end_at self.old t) (if txn == t then Some end else None)) }
        ensures err { OnErr result ((t : ℕ) → end_at self.new t ≡ end_at self.old t) }
    {
        if self.get(txn).is_some() {
            return Ok(());
        }
        let place = place_of(txn);
        reach(&mut self.near, self.used, place)?;
        if is_free(&self.near, place) {
            self.near[place] = Near::of(txn, end);
            self.used = self.used.saturating_add(1);
        } else {
            self.far.insert(txn.get(), end)?;
        }
        Ok(())
    }
}

/// Where the list has the end of a transaction, if it does.
fn place_of(txn: Txn) -> usize
    ensures value { result ≡ txn / 64 }
    ensures range { result < 2 ^ 58 }
{
    (txn.get() / u64::from(SHARDS)) as usize
}

/// The end that the list has for a transaction.
fn end_near(near: &[Near], txn: Txn) -> Option<End>
    ensures { result ≡ near_end (slice_index_or near.now (txn / 64) Near.Free) txn }
{
    match near.get(place_of(txn)) {
        Some(place) => place.end(txn),
        None => None,
    }
}

/// The end that the map has for a transaction.
fn end_far(far: &HashMap<u64, End>, txn: Txn) -> Option<End>
    ensures { result ≡ get nat_eq far.now txn }
{
    match far.get(&txn.get()) {
        Some(end) => Some(End {
            pos: end.pos,
            scn: end.scn,
            committed: end.committed,
        }),
        None => None,
    }
}

/// Lengthens a list with so many ends in it by free places up to this one, unless that is too far off.
fn reach(near: &mut Vec<Near>, used: usize, place: usize) -> Result<(), Memory>
    requires { place < 2 ^ 58 }
    ensures { (k : ℕ) → slice_index_or near.new.items k Near.Free ≡ slice_index_or near.old.items k Near.Free }
{
    if near.len() <= place && place < used.saturating_mul(2).saturating_add(ROOM) {
        near.resize(place + 1, Near::Free)?;
    }
    Ok(())
}

/// Whether the list has this place and it is free.
fn is_free(near: &[Near], place: usize) -> bool
    ensures { result ≡ true → (place < length near.now) × (slice_index_or near.now place Near.Free ≡ Near.Free) }
{
    match near.get(place) {
        Some(Near::Free) => true,
        _ => false,
    }
}
