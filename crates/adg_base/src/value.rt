use crate::list::{Duplicate, List};
use crate::memory::Memory;
use crate::text::Text;
use std::alloc::Global;

/// The kind of a column.
#[derive(Clone, Copy, Debug, PartialEq, Eq)]
pub enum ColKind {
    Int,
    Text,
}

/// A list of kinds, one for each column.
pub type KindList = List<ColKind>;

/// A value of a column.
#[derive(Debug, PartialEq, Drop)]
pub enum Value {
    /// No value.
    Null,
    Int(i64),
    Text(Text),
}

const _: () = prove!(size_of::<Value>() == 24);

/// What stands in the places of a row that are free.
impl Default for Value {
    ghost use Rattle.adg_base.specs.declared.value.Value.TheVariants.{Null};
    ghost use Rattle.std.specs.Prelude.{◌≡◌};

    ghost is_default = { λ v. v ≡ Null };

    fn default() -> Value {
        Value::Null
    }
}

impl Duplicate for ColKind {
    fn copy(&self, _alloc: Global) -> Result<ColKind, Memory> {
        Ok(*self)
    }
}

impl Duplicate for Value {
    fn copy(&self, alloc: Global) -> Result<Value, Memory> {
        match self {
            Value::Null => Ok(Value::Null),
            Value::Int(number) => Ok(Value::Int(*number)),
            Value::Text(text) => Ok(Value::Text(text.copy(alloc)?)),
        }
    }
}
