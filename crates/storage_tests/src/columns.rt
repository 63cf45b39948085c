use adg_base::address::Addr;
use adg_base::list::{Duplicate, List};
use adg_base::memory::Memory;
use adg_base::number::Obj;
use adg_base::text::Text;
use adg_base::value::Value;
use adg_base::value_ref::{RowView, ValueRef};
use column_codec::bounds::Bounds;
use column_codec::column::Column;
use column_codec::columns::Columns;
use std::alloc::Global;
use std::process::Abort;
use std::test::Fail;

/// A value of a table: a text is one letter.
#[derive(Clone, Copy)]
enum Cell {
    Null,
    Int(i64),
    Text(u8),
}

use Cell::{Int, Null, Text as Letter};

/// The values of a column, and the places of its bounds.
struct Case {
    name: &'static str,
    cells: &'static [Cell],
    bounds: Option<(usize, usize)>,
}

static CASES: [Case; 7] = [
    Case {
        name: "none",
        cells: &[],
        bounds: None,
    },
    Case {
        name: "all null",
        cells: &[Null, Null],
        bounds: None,
    },
    Case {
        name: "numbers",
        cells: &[Int(3), Int(-2), Int(5), Int(0)],
        bounds: Some((1, 2)),
    },
    Case {
        name: "numbers and nulls",
        cells: &[Null, Int(7), Null, Int(i64::MIN), Int(i64::MAX)],
        bounds: Some((3, 4)),
    },
    Case {
        name: "the first of equal ones",
        cells: &[Null, Int(1), Int(9), Int(1), Int(9)],
        bounds: Some((1, 2)),
    },
    Case {
        name: "texts",
        cells: &[Letter(b'b'), Letter(b'a'), Null, Letter(b'c'), Letter(b'a')],
        bounds: Some((1, 3)),
    },
    Case {
        name: "an integer below every text",
        cells: &[Letter(b'a'), Int(9), Null, Letter(b'a')],
        bounds: Some((1, 0)),
    },
];

fn value_of(alloc: Global, cell: Cell) -> Result<Value, Fail> {
    Ok(match cell {
        Null => Value::Null,
        Int(number) => Value::Int(number),
        Letter(letter) => Value::Text(Text::new(alloc, &[letter]).map_err(|_| Memory)?),
    })
}

fn values_of(alloc: Global, cells: &[Cell]) -> Result<Vec<Value>, Fail> {
    let mut values = Vec::new(alloc);
    for cell in cells {
        values.push(value_of(alloc, *cell)?)?;
    }
    Ok(values)
}

/// Whether a value where it lies is this one.
fn shows(lent: ValueRef<'_>, value: &Value) -> bool {
    lent.compare(ValueRef::of(value)).is_eq()
}

fn assert_column(
    rt: &impl Abort,
    case: &Case,
    column: &Column,
    values: &[Value],
) -> Result<(), Fail> {
    let bounds = match case.bounds {
        Some((least, greatest)) => Some(Bounds { least, greatest }),
        None => None,
    };
    assert!(rt; column.len() == values.len(), "{}", case.name);
    assert!(rt; column.bounds() == bounds, "{}", case.name);
    for (index, value) in values.iter().enumerate() {
        assert!(rt; shows(column.value(index), value));
        if index < column.len() {
            assert!(rt; column.get(index)? == *value);
        }
    }
    assert!(rt; shows(column.value(values.len()), &Value::Null));
    Ok(())
}

fn assert_case(rt: &impl Abort, alloc: Global, case: &Case) -> Result<(), Fail> {
    let values = values_of(alloc, case.cells)?;
    let built = Column::build(alloc, values.as_slice())?;
    assert_column(rt, case, &built, values.as_slice())?;
    assert_column(rt, case, &built.copy(alloc)?, values.as_slice())?;
    let moved = Column::from_vec(alloc, values_of(alloc, case.cells)?)?;
    assert_column(rt, case, &moved, values.as_slice())
}

#[test]
fn columns_give_what_was_built(rt: HostRuntime) -> Result<(), Fail> {
    for case in &CASES {
        assert_case(&rt, rt.alloc(), case)?;
    }
    Ok(())
}

/// The addresses and the columns of an extent: a slot of each block, a number and a text.
static ROWS: [(u16, u8, Cell, Cell); 3] = [
    (0, 0, Int(1), Letter(b'a')),
    (0, 63, Null, Letter(b'b')),
    (15, 63, Int(3), Null),
];

fn columns_of(alloc: Global, obj: Obj) -> Result<Columns, Fail> {
    let mut addresses = List::new(alloc);
    let (mut numbers, mut names) = (Vec::new(alloc), Vec::new(alloc));
    for (block, slot, number, name) in &ROWS {
        addresses.push(Addr::new(obj, *block, *slot).ok_or("addr")?)?;
        numbers.push(value_of(alloc, *number)?)?;
        names.push(value_of(alloc, *name)?)?;
    }
    let mut columns = List::new(alloc);
    columns.push(Column::from_vec(alloc, numbers)?)?;
    columns.push(Column::from_vec(alloc, names)?)?;
    Ok(Columns::new(alloc, addresses, columns)?)
}

#[test]
fn rows_lie_across_columns(rt: HostRuntime) -> Result<(), Fail> {
    let alloc = rt.alloc();
    let obj = Obj::new(1).ok_or("obj")?;
    let columns = columns_of(alloc, obj)?.copy(alloc)?;
    assert!(rt; columns.columns().len() == 2 && columns.addresses().len() == ROWS.len());
    for (place, (block, slot, number, name)) in ROWS.iter().enumerate() {
        let row = columns.row(place);
        assert!(rt; columns.addresses().get(place).copied() == Addr::new(obj, *block, *slot));
        assert!(rt; row.width() == 2 && shows(row.value(0), &value_of(alloc, *number)?));
        assert!(rt; shows(row.value(1), &value_of(alloc, *name)?));
        assert!(rt; shows(row.value(2), &Value::Null));
    }
    Ok(())
}
