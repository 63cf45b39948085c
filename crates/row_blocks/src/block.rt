ghost use Rattle.std.specs.Prelude.{◌≡◌, ℕ, ◌<◌, ◌≤◌, [], ◌∷◌, ◌++◌, length, set, OnOk, OnErr, slice_index_or};
ghost use Rattle.row_blocks.specs.declared.block.Slot.TheVariants.{One};
ghost use Rattle.row_blocks.specs.Versions.{strike};
ghost use Rattle.row_blocks.specs.Block.{SetsSlot};
ghost use Rattle.row_blocks.specs.Held.{list_of, number_of, AreKept, IsPlaceOf};

use crate::several::Several;
use crate::version::Version;
use adg_base::memory::Memory;
use adg_base::number::Txn;
use std::alloc::Global;
use std::marker::Model;
use std::mem::replace;
use std::slice::from_ref;

/// How many slots a block has.
pub const SLOTS: u8 = 64;

/// How many versions a list has room for when an address gets its second.
const ROOM: usize = 4;

/// A slot that has versions: its number, and the versions, the earliest first. Most addresses get no
/// more than one, which needs no list of its own.
#[derive(Drop)]
enum Slot {
    One { number: u8, version: Version },
    Many { number: u8, versions: Several },
}

const _: () = prove!(size_of::<Slot>() == 48);

impl Slot {
    fn number(&self) -> u8
        ensures { result ≡ number_of self.now }
    {
        match self {
            Slot::One { number, .. } | Slot::Many { number, .. } => *number,
        }
    }

    fn as_slice(&self) -> &[Version]
        ensures { result.now ≡ list_of self.now }
    {
        match self {
            Slot::One { version, .. } => from_ref(version),
            Slot::Many { versions, .. } => versions.as_slice(),
        }
    }

    /// Adds a version. The second takes room for some more.
    fn push(&mut self, alloc: Global, version: Version) -> Result<(), Memory>
        ensures number { number_of self.new ≡ number_of self.old }
        ensures ok { OnOk result (list_of self.new ≡ list_of self.old ++ version ∷ []) }
        ensures err { OnErr result (self.new ≡ self.old) }
    {
        match self {
            Slot::One { number, .. } => {
                let number = *number;
                let mut list = Vec::with_capacity(alloc, ROOM)?;
                let versions = Several::of(Vec::new(alloc));
                if let Slot::One { version: first, .. } = replace(
                    self,
                    Slot::Many { number, versions },
                ) {
                    list.push_reserved(first);
                }
                list.push_reserved(version);
                let versions = Several::of(list);
                *self = Slot::Many { number, versions };
                Ok(())
            }
            Slot::Many { versions, .. } => versions.push(version),
        }
    }

    /// Strikes the latest version of a transaction that is not struck.
    fn strike(&mut self, txn: Txn)
        ensures number { number_of self.new ≡ number_of self.old }
        ensures versions { list_of self.new ≡ strike txn (list_of self.old) }
    {
        match self {
            Slot::One { version, .. } => strike_one(version, txn),
            Slot::Many { versions, .. } => versions.strike(txn),
        }
    }
}

/// Strikes a version, if it is of the transaction.
fn strike_one(version: &mut Version, txn: Txn)
    ensures { version.new ∷ [] ≡ strike txn (version.old ∷ []) }
{
    if version.txn == txn && !version.struck {
        version.struck = true;
    }
}

/// The versions at each of the 64 slots of a block. The slots that have some lie together, in the order
/// in which they got their first, so that a block takes memory for those alone. For each slot a place
/// among them is kept. It tells nothing where another slot lies there or none does: a slot without
/// versions has the place 64, so that nothing is looked at for it.
#[derive(Drop)]
pub struct Block {
    alloc: Global,
    places: [u8; 64],
    used: Vec<Slot>,
}

impl Model for Block {
    ghost use Rattle.std.specs.Prelude.{◌≡◌, List, length};
    ghost use Rattle.row_blocks.specs.declared.version.Version.{Version};
    ghost use Rattle.row_blocks.specs.Held.{slots_from, AreKept};

    ghost Value = { List (List Version) };

    ghost view = { λ b. slots_from 0 b.used.items b.places };

    ghost invariant = { λ b. (length b.places ≡ 64) × AreKept b.places b.used.items };
}

impl Block {
    /// A block without versions.
    #[tactic(auto, using(crate::proofs::Held::empty_block))]
    pub(crate) fn new(alloc: Global) -> Block
        ensures { (slot : ℕ) → slice_index_or result slot [] ≡ [] }
    {
        Block {
            alloc,
            places: [SLOTS; 64],
            used: Vec::new(alloc),
        }
    }

    /// The versions at a slot, the earliest first.
    pub fn versions(&self, slot: u8) -> &[Version]
        requires { slot < 64 }
        ensures { result.now ≡ slice_index_or self.now slot [] }
    {
        match place_of(&self.places, &self.used, slot) {
            Some(place) => self.used[place].as_slice(),
            None => &[],
        }
    }

    /// Adds a version at a slot.
    pub(crate) fn push(&mut self, slot: u8, version: Version) -> Result<(), Memory>
        requires { slot < 64 }
        ensures ok { OnOk result (SetsSlot self.old self.new slot (slice_index_or self.old slot [] ++ version ∷ [])) }
        ensures err { OnErr result (self.new ≡ self.old) }
    {
        match place_of(&self.places, &self.used, slot) {
            Some(place) => self.used[place].push(self.alloc, version),
            None => open(&mut self.places, &mut self.used, slot, version),
        }
    }

    /// Strikes the latest version of a transaction at a slot that is not struck.
    pub(crate) fn strike(&mut self, slot: u8, txn: Txn)
        requires { slot < 64 }
        ensures { SetsSlot self.old self.new slot (strike txn (slice_index_or self.old slot [])) }
    {
        if let Some(place) = place_of(&self.places, &self.used, slot) {
            self.used[place].strike(txn);
        }
    }
}

/// The place of a slot among those in use, where it is one of them.
fn place_of(places: &[u8; 64], used: &[Slot], slot: u8) -> Option<usize>
    requires within { slot < 64 }
    requires kept { AreKept places.now used.now }
    ensures { IsPlaceOf slot places.now used.now result }
{
    let place = usize::from(places[usize::from(slot)]);
    match used.get(place) {
        Some(found) if found.number() == slot => Some(place),
        _ => None,
    }
}

/// A slot that is not in use gets its first version.
fn open(
    places: &mut [u8; 64],
    used: &mut Vec<Slot>,
    number: u8,
    version: Version,
) -> Result<(), Memory>
    requires within { number < 64 }
    requires few { length used.old.items ≤ 64 }
    ensures places { OnOk result (places.new ≡ set places.old number (length used.old.items)) }
    ensures used { OnOk result (used.new.items ≡ used.old.items ++ One number version ∷ []) }
    ensures err { OnErr result ((places.new ≡ places.old) × (used.new.items ≡ used.old.items)) }
{
    let place = used.len() as u8;
    used.push(Slot::One { number, version })?;
    places[usize::from(number)] = place;
    Ok(())
}
