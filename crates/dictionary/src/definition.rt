ghost use Rattle.std.specs.Prelude.{◌≡◌, ℕ, ◌+◌, ◌<◌, ◌≤◌, List, ◌∷◌, [], ◌++◌, false, true, nat_lt, length, take, MatchOption};
ghost use Rattle.adg_model.specs.Database.{Table};
ghost use Rattle.adg_base.specs.Address.{place};
ghost use Rattle.adg_model.specs.Defined.{IsDefinition};
ghost use Rattle.adg_model.specs.Sound.{has_address};

use adg_base::address::Addr;
use adg_base::definition::{Definition, MOST_COLUMNS};
use adg_base::number::Obj;
use adg_base::value::ColKind;

/// How many blocks an extent has.
const EXTENT_BLOCKS: u32 = 16;

/// The definition of a new object.
pub fn definition_of(obj: Obj, extents: u16, flag: bool, columns: &[ColKind]) -> Definition
    ensures { length columns.now ≤ 16 → IsDefinition obj (record { extents = extents; flag = flag; kinds = columns.now }) result }
{
    let width = columns.len().min(MOST_COLUMNS);
    let mut kinds = [ColKind::Int; MOST_COLUMNS];
    kinds[..width].copy_from_slice(&columns[..width]);
    Definition {
        obj,
        extents,
        flag,
        width: width as u8,
        kinds,
    }
}

/// The kinds of an object's columns.
pub fn kinds_of(definition: &Definition) -> &[ColKind]
    ensures { (obj : ℕ) (table : Table) → IsDefinition obj table definition.now → result.now ≡ table.kinds }
{
    match definition.kinds.get(..usize::from(definition.width)) {
        Some(kinds) => kinds,
        None => &definition.kinds,
    }
}

/// The address of a slot of a block of the object, where it has one.
pub fn address_in(definition: &Definition, block: u16, slot: u8) -> Option<Addr>
    ensures { (obj : ℕ) (table : Table) → IsDefinition obj table definition.now →
        MatchOption result (has_address table block slot ≡ false) (λ addr. (has_address table block slot ≡ true) × (addr ≡ place obj block slot)) }
{
    if u32::from(block) < EXTENT_BLOCKS * u32::from(definition.extents) {
        Addr::new(definition.obj, block, slot)
    } else {
        None
    }
}

/// The kinds with this one behind the first `width`.
fn with_kind(
    kinds: &[ColKind; MOST_COLUMNS],
    width: usize,
    kind: ColKind,
) -> [ColKind; MOST_COLUMNS]
    requires { width < 16 }
    ensures { take (width + 1) result ≡ take width kinds.now ++ kind ∷ [] }
{
    let mut wider = *kinds;
    wider[width] = kind;
    wider
}

/// The definition with one column more; None where it has as many as an object may have.
pub fn with_column(definition: &Definition, kind: ColKind) -> Option<Definition>
    ensures { (obj : ℕ) (table : Table) → IsDefinition obj table definition.now →
        MatchOption result (nat_lt (length table.kinds) 16 ≡ false)
        (λ wider. (nat_lt (length table.kinds) 16 ≡ true) × IsDefinition obj (record table { kinds = table.kinds ++ kind ∷ [] }) wider) }
{
    let width = usize::from(definition.width);
    if width >= MOST_COLUMNS {
        return None;
    }
    Some(Definition {
        kinds: with_kind(&definition.kinds, width, kind),
        width: definition.width + 1,
        ..*definition
    })
}

/// The definition of the object when it is no longer in-memory.
pub fn without_flag(definition: &Definition) -> Definition
    ensures { (obj : ℕ) (table : Table) → IsDefinition obj table definition.now → IsDefinition obj (record table { flag = false }) result }
{
    let mut plain = *definition;
    plain.flag = false;
    plain
}
