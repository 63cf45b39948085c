ghost use Rattle.std.specs.Prelude.{◌≡◌, ◌≤◌, IfOk, length};

use crate::list::{Duplicate, List};
use crate::memory::Memory;
use crate::value::Value;
use smallvec::SmallVec;
use std::alloc::Global;
use std::marker::Model;
use std::sync::Arc;

/// The most values of a row that lie beside its count.
const FEW: usize = 4;

/// The values of a row that is put together: up to four lie in the list itself.
pub type Values = SmallVec<Value, FEW>;

/// A row: one value for each of its columns. Contracts see the list of its values. The values are
/// held once, however many copies there are: a copy costs a count, whatever the row holds, and can
/// go to another thread. Most rows have few values, which lie in one piece of memory with the count.
#[derive(Debug, Drop)]
pub struct Row {
    values: Arc<Values>,
}

/// A list of rows.
pub type RowList = List<Row>;

impl Model for Row {
    ghost use Rattle.std.specs.Prelude.{List};
    ghost use Rattle.adg_base.specs.declared.value.Value.{Value as Cell};

    ghost Value = { List Cell };

    ghost view = { λ r. r.values.value.items };
}

/// The same values, four and fewer moved out of the memory of the `Vec`.
fn few_inline(values: Vec<Value>) -> Values
    ensures items { result.items ≡ values.items }
    ensures few { length values.items ≤ 4 → result.capacity ≡ 4 }
{
    let few = values.len() <= FEW;
    let mut values = SmallVec::from_vec(values);
    if few {
        values.shrink_to_fit();
    }
    values
}

impl Row {
    /// The row of these values.
    pub fn from_vec(alloc: Global, values: Vec<Value>) -> Result<Row, Memory>
        ensures { IfOk result (λ row. row ≡ values.items) }
    {
        Row::from_values(alloc, few_inline(values))
    }

    /// The row of these values, which move into it with no memory of their own where they are few.
    pub fn from_values(alloc: Global, values: Values) -> Result<Row, Memory>
        ensures { IfOk result (λ row. row ≡ values.items) }
    {
        let values = Arc::new(alloc, values)?;
        Ok(Row { values })
    }

    /// The values, lent.
    pub fn as_slice(&self) -> &[Value]
        ensures { result.now ≡ self.now }
    {
        self.values.as_slice()
    }

    /// How many values there are.
    pub fn len(&self) -> usize
        ensures { result ≡ length self.now }
    {
        self.values.len()
    }
}

impl Duplicate for Row {
    fn copy(&self, _alloc: Global) -> Result<Row, Memory> {
        let values = self.values.clone()?;
        Ok(Row { values })
    }
}
