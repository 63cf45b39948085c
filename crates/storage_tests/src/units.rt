ghost use Rattle.std.specs.Prelude.{◌≡◌, IfOk};
ghost use Rattle.column_codec.specs.Extent.{AreColumns};

use adg_base::address::Addr;
use adg_base::list::List;
use adg_base::number::{Obj, Scn};
use adg_base::shard::unit_shard;
use adg_base::value::Value;
use column_codec::column::Column;
use column_codec::columns::Columns;
use column_units::shard::UnitShard;
use column_units::unit::{Unit, UnitState};
use std::alloc::Global;
use std::process::Abort;
use std::test::Fail;

/// The rows of an extent of t1: 1 at t1.0.0 and 2 at t1.0.1.
fn two_rows(alloc: Global, obj: Obj) -> Result<Columns, Fail>
    requires { obj ≡ 1 }
    ensures { IfOk result (AreColumns obj 0) }
{
    let first = Addr::new(obj, 0, 0).ok_or("addr")?;
    let second = Addr::new(obj, 0, 1).ok_or("addr")?;
    let addresses = vec![in alloc; first, second]?;
    let values = vec![in alloc; Value::Int(1), Value::Int(2)]?;
    let columns = vec![in alloc; Column::from_vec(alloc, values)?]?;
    Ok(Columns::new(alloc, List::from_vec(addresses), List::from_vec(columns))?)
}

fn addr(obj: Obj, block: u16, slot: u8) -> Result<Addr, Fail> {
    Ok(Addr::new(obj, block, slot).ok_or("addr")?)
}

/// A shard with a unit of extents 0 and 32 of an object, as of SCN 11, with tickets 1 and 2.
fn registered(alloc: Global, obj: Obj) -> Result<UnitShard, Fail> {
    let snapshot = Scn::new(11).ok_or("scn")?;
    let mut shard = UnitShard::new(alloc, unit_shard(obj, 0));
    for (extent, ticket) in [(0, 1), (32, 2)] {
        if unit_shard(obj, extent) != shard.number() {
            Err("another shard")?
        }
        shard.register(obj, extent, snapshot, ticket)?;
    }
    Ok(shard)
}

fn unit_of(shard: &UnitShard, obj: Obj, extent: u16) -> Result<&Unit, Fail> {
    Ok(shard.find(obj, extent).ok_or("no unit")?)
}

/// The rows of a unit that can be taken at an SCN: how many, and those marked in its first block; none
/// where none can be taken.
fn looks_at(unit: &Unit, q: u64) -> Result<Option<(usize, u64)>, Fail> {
    let look = unit.clean_rows(Scn::new(q).ok_or("scn")?)?;
    match look {
        Some(look) => {
            let [first, ..] = look.marked();
            Ok(Some((look.columns().addresses().len(), *first)))
        }
        None => Ok(None),
    }
}

/// An extent that was built at 11, and a commit at 12 that touched t1.0.1.
#[test]
fn serves_what_is_not_marked(rt: HostRuntime) -> Result<(), Fail> {
    let alloc = rt.alloc();
    let obj = Obj::new(1).ok_or("obj")?;
    let mut shard = registered(alloc, obj)?;
    assert!(rt; looks_at(unit_of(&shard, obj, 0)?, 12)? == None);
    assert!(rt; !shard.install(obj, 0, 2, two_rows(alloc, obj)?));
    assert!(rt; shard.install(obj, 0, 1, two_rows(alloc, obj)?));
    assert!(rt; !shard.install(obj, 0, 1, two_rows(alloc, obj)?));
    shard.mark(addr(obj, 0, 1)?);
    let looks = [(10, None), (11, Some((2, 2))), (12, Some((2, 2)))];
    for (q, look) in looks {
        assert!(rt; looks_at(unit_of(&shard, obj, 0)?, q)? == look, "at {q}");
    }
    assert!(rt; looks_at(unit_of(&shard, obj, 32)?, 12)? == None);
    shard.mark_all();
    assert!(rt; looks_at(unit_of(&shard, obj, 0)?, 12)? == None);
    Ok(())
}

/// Addresses of t1, with the block of their extent and the word that they make of its map.
static MARKS: [(u16, u8, u16, usize, u64); 5] = [
    (0, 0, 0, 0, 1),
    (0, 63, 0, 0, 0x8000_0000_0000_0001),
    (15, 63, 0, 15, 1 << 63),
    (512, 0, 32, 0, 1),
    (527, 63, 32, 15, 1 << 63),
];

fn assert_marks(rt: &impl Abort, alloc: Global, obj: Obj) -> Result<(), Fail> {
    let mut shard = registered(alloc, obj)?;
    for (block, slot, extent, word, map) in &MARKS {
        shard.mark(addr(obj, *block, *slot)?);
        let unit = unit_of(&shard, obj, *extent)?;
        assert!(rt;
            unit.map.get(*word).copied() == Some(*map) && !unit.all,
            "{block}.{slot}"
        );
    }
    shard.mark(addr(obj, 16, 0)?);
    assert!(rt; shard.find(obj, 1).is_none());
    Ok(())
}

#[test]
fn marks_first_and_last(rt: HostRuntime) -> Result<(), Fail> {
    assert_marks(&rt, rt.alloc(), Obj::new(1).ok_or("obj")?)
}

#[test]
fn drops_and_replaces(rt: HostRuntime) -> Result<(), Fail> {
    let alloc = rt.alloc();
    let obj = Obj::new(1).ok_or("obj")?;
    let other = Obj::new(33).ok_or("obj")?;
    let mut shard = registered(alloc, obj)?;
    if unit_shard(other, 0) != shard.number() {
        Err("another shard")?
    }
    shard.register(other, 0, Scn::ZERO, 7)?;
    shard.mark(addr(obj, 0, 0)?);
    shard.mark_all();
    shard.register(obj, 0, Scn::ZERO, 8)?;
    let unit = unit_of(&shard, obj, 0)?;
    assert!(rt; unit.ticket == 8 && !unit.all && unit.map == [0; 16]);
    assert!(rt; matches!(unit.state, UnitState::Loading));
    shard.drop_object(obj);
    for extent in [0, 32] {
        assert!(rt; shard.find(obj, extent).is_none());
    }
    assert!(rt; unit_of(&shard, other, 0)?.ticket == 7);
    assert!(rt; !shard.is_empty());
    shard.drop_object(other);
    assert!(rt; shard.is_empty());
    Ok(())
}
