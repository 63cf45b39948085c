ghost use Rattle.std.specs.Prelude.{◌≡◌, IfOk};
ghost use Rattle.adg_base.specs.Values.{shown};
ghost use Rattle.column_codec.specs.Values.{row_at, value_at};
ghost use Rattle.column_codec.specs.Extent.{PlacedColumns};

use crate::column::{Column, ColumnList};
use adg_base::address::{Addr, AddrList};
use adg_base::list::Duplicate;
use adg_base::memory::Memory;
use adg_base::value_ref::{RowView, ValueRef};
use std::alloc::Global;
use std::marker::Model;
use std::sync::Arc;

/// The rows of an extent column by column, with their addresses in order. Contracts see the addresses and
/// the values of each column. A copy costs a count, whatever they hold.
#[derive(Debug, Drop)]
pub struct Columns {
    parts: Arc<Parts>,
}

/// What copies share.
#[derive(Debug, Drop)]
pub struct Parts {
    addresses: AddrList,
    columns: ColumnList,
}

impl Model for Columns {
    ghost use Rattle.column_codec.specs.Extent.{PlacedColumns};

    ghost Value = { PlacedColumns };

    ghost view = { λ c. record { addresses = c.parts.value.addresses; columns = c.parts.value.columns } };
}

/// A row where it lies in columns.
#[derive(Clone, Copy, Debug)]
pub struct ColumnRow<'a> {
    columns: &'a [Column],
    place: usize,
}

impl Columns {
    /// The columns of rows at these addresses.
    pub fn new(alloc: Global, addresses: AddrList, columns: ColumnList) -> Result<Columns, Memory>
        ensures { IfOk result (λ made. made ≡ record { addresses = addresses; columns = columns }) }
    {
        let parts = Arc::new(alloc, Parts { addresses, columns })?;
        Ok(Columns { parts })
    }

    /// The addresses of the rows, in order.
    pub fn addresses(&self) -> &[Addr]
        ensures { result.now ≡ self.now.addresses }
    {
        self.parts.addresses.as_slice()
    }

    /// The columns.
    pub fn columns(&self) -> &[Column]
        ensures { result.now ≡ self.now.columns }
    {
        self.parts.columns.as_slice()
    }

    /// The same columns, held once.
    pub fn share(&self) -> Result<Columns, Memory>
        ensures { IfOk result (λ columns. columns ≡ self.now) }
    {
        let parts = self.parts.clone()?;
        Ok(Columns { parts })
    }

    /// The row at a place where it lies.
    pub fn row(&self, place: usize) -> ColumnRow<'_>
        ensures { row_at result.columns.now result.place ≡ row_at self.now.columns place }
    {
        ColumnRow {
            columns: self.columns(),
            place,
        }
    }
}

impl Duplicate for Columns {
    fn copy(&self, _alloc: Global) -> Result<Columns, Memory> {
        self.share()
    }
}

impl RowView for ColumnRow<'_> {
    ghost values = { λ row. row_at row.columns.now row.place };

    fn width(&self) -> usize {
        self.columns.len()
    }

    fn value(&self, index: usize) -> ValueRef<'_> {
        match self.columns.get(index) {
            Some(column) => column.value(self.place),
            None => ValueRef::Null,
        }
    }
}
