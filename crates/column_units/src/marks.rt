//! The map of an extent: a word for each of its 16 blocks, with a bit for each of the 64 slots.

ghost use Rattle.std.specs.Prelude.{◌≡◌, ◌/◌, true, ◌||◌};
ghost use Rattle.adg_base.specs.Address.{Place, same_place};
ghost use Rattle.column_codec.specs.Extent.{is_in_extent};
ghost use Rattle.column_units.specs.Unit.{marks};

use adg_base::address::Addr;

/// How many blocks an extent has.
pub const BLOCKS: usize = 16;

/// Whether an address is marked in the map of its extent.
pub fn is_marked(map: &[u64; BLOCKS], addr: Addr) -> bool
    ensures { result ≡ marks map.now addr }
{
    let word = map[usize::from(addr.block()) % BLOCKS];
    (word >> addr.slot()) & 1 == 1
}

/// Marks an address of the extent in its map.
pub fn mark(map: &mut [u64; BLOCKS], addr: Addr)
    ensures { (b : Place) → is_in_extent addr.obj (addr.block / 16) b ≡ true → marks map.new b ≡ (marks map.old b || same_place b addr) }
{
    let block = usize::from(addr.block()) % BLOCKS;
    map[block] |= 1 << addr.slot();
}
