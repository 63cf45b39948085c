ghost use Rattle.adg_model.specs.Query.{padded};

use adg_base::row::Row;
use adg_base::value_ref::{RowView, ValueRef};

/// A row as wide as its object: `Null` in the columns that it lacks.
#[derive(Clone, Copy, Debug)]
pub struct WideRow<'a> {
    pub row: &'a Row,
    pub width: usize,
}

impl RowView for WideRow<'_> {
    ghost values = { λ r. padded r.width r.row.now };

    fn width(&self) -> usize {
        self.width.max(self.row.len())
    }

    fn value(&self, index: usize) -> ValueRef<'_> {
        self.row.value(index)
    }
}
