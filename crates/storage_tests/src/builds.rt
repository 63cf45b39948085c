ghost use Rattle.std.specs.Prelude.{◌≡◌, ◌≤◌, length, IfOk};
ghost use Rattle.adg_base.specs.Address.{block_places};
ghost use Rattle.population.specs.Building.{AreRowsOf, Fit};

use adg_base::address::Addr;
use adg_base::definition::Definition;
use adg_base::list::List;
use adg_base::memory::Memory;
use adg_base::number::{Obj, Scn};
use adg_base::placed::{BlockRows, PlacedRow};
use adg_base::row::Row;
use adg_base::text::Text;
use adg_base::value::{ColKind, Value};
use adg_base::value_ref::ValueRef;
use column_codec::columns::Columns;
use population::build::Build;
use std::alloc::Global;
use std::process::Abort;
use std::test::Fail;

/// A number, a name, and a number that was added later.
fn definition(obj: Obj) -> Definition
    ensures width { result.width ≡ 3 }
    ensures obj { result.obj ≡ obj }
{
    let mut kinds = [ColKind::Int; 16];
    kinds[1] = ColKind::Text;
    Definition {
        obj,
        extents: 2,
        flag: true,
        width: 3,
        kinds,
    }
}

/// The block and the slot, and the name `a`. At slot 0 the name is not there, and neither is the slot.
fn row_of(alloc: Global, block: u16, slot: u8) -> Result<Row, Fail>
    ensures { IfOk result (λ row. length row ≤ 3) }
{
    let number = Value::Int(i64::from(block));
    if slot == 0 {
        return Ok(Row::from_vec(alloc, vec![in alloc; number]?)?);
    }
    let name = Text::new(alloc, b"a").map_err(|_| Memory)?;
    let values = vec![in alloc; number, Value::Text(name), Value::Int(i64::from(slot))]?;
    Ok(Row::from_vec(alloc, values)?)
}

/// A row at each slot of a block, or none.
fn rows_of(alloc: Global, obj: Obj, block: u16, full: bool) -> Result<BlockRows, Fail>
    ensures places { IfOk result (AreRowsOf (block_places obj block)) }
    ensures fit { IfOk result (Fit 3) }
{
    if full {
        full_block(alloc, obj, block)
    } else {
        Ok(List::new(alloc))
    }
}

fn full_block(alloc: Global, obj: Obj, block: u16) -> Result<BlockRows, Fail>
    ensures places { IfOk result (AreRowsOf (block_places obj block)) }
    ensures fit { IfOk result (Fit 3) }
{
    let mut rows = Vec::new(alloc);
    for slot in 0..64 {
        let addr = Addr::new(obj, block, slot).unwrap();
        let row = row_of(alloc, block, slot)?;
        rows.push(PlacedRow { addr, row })?;
    }
    Ok(List::from_vec(rows))
}

/// The second extent of an object, of which the first and the last block have rows: the columns while
/// the build stays, and those that end it.
fn built(alloc: Global, obj: Obj) -> Result<(Columns, Columns), Fail> {
    let snapshot = Scn::new(11).ok_or("scn")?;
    let mut build = Build::new(alloc, obj, 1, snapshot, &definition(obj))?;
    for index in 0..16u16 {
        let rows = rows_of(alloc, obj, 16 + index, index == 0 || index == 15)?;
        build.block(&rows)?;
    }
    let columns = build.columns()?;
    Ok((columns, build.finish()?))
}

/// Places of the columns, with the block and the slot of their rows.
static PLACES: [(usize, u16, u8); 5] = [
    (0, 16, 0),
    (1, 16, 1),
    (63, 16, 63),
    (64, 31, 0),
    (127, 31, 63),
];

fn shows(lent: ValueRef<'_>, value: &Value) -> bool {
    lent.compare(ValueRef::of(value)).is_eq()
}

fn assert_places(rt: &impl Abort, alloc: Global, columns: &Columns, obj: Obj) -> Result<(), Fail> {
    for (place, block, slot) in &PLACES {
        let addr = columns.addresses().get(*place).copied();
        assert!(rt; addr == Addr::new(obj, *block, *slot), "{place}");
        let row = row_of(alloc, *block, *slot)?;
        for (index, column) in columns.columns().iter().enumerate() {
            let value = row.as_slice().get(index).unwrap_or(&Value::Null);
            assert!(rt; shows(column.value(*place), value), "{place}");
        }
    }
    Ok(())
}

#[test]
fn columns_are_the_rows_read(rt: HostRuntime) -> Result<(), Fail> {
    let alloc = rt.alloc();
    let obj = Obj::new(1).ok_or("obj")?;
    let (columns, last) = built(alloc, obj)?;
    for made in [&columns, &last] {
        assert!(rt; made.addresses().len() == 128 && made.columns().len() == 3);
        assert_places(&rt, alloc, made, obj)?;
    }
    Ok(())
}
