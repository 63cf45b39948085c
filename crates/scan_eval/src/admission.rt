ghost use Rattle.std.specs.Prelude.{◌≡◌};
ghost use Rattle.adg_model.specs.Defined.{table_of};
ghost use Rattle.scan_eval.specs.Admission.{admission};

use adg_base::command::Select;
use adg_base::definition::Definition;
use adg_base::memory::Memory;
use adg_model::admission::{has_columns, has_types};

/// Why a query gets no answer.
#[derive(Clone, Copy, Debug, PartialEq, Eq)]
pub enum QueryRefused {
    /// It names a column that its object doesn't have.
    NoColumn,
    /// A literal is not of its column's kind, or a sum is of a column of texts.
    WrongType,
    /// Want of memory.
    Memory,
}

impl From<Memory> for QueryRefused {
    ghost use Rattle.std.specs.Prelude.{◌≡◌};
    ghost use Rattle.scan_eval.specs.declared.admission.QueryRefused.TheVariants.{Memory};

    ghost from_gives = { λ _ refused. refused ≡ Memory };

    fn from(_memory: Memory) -> QueryRefused {
        QueryRefused::Memory
    }
}

/// Whether the definition of its object lets a query have an answer. It takes no memory, and says
/// `NoColumn` where there is cause for both refusals.
pub fn admit(select: &Select, def: &Definition) -> Result<(), QueryRefused>
    ensures { result ≡ admission select.now (table_of def.now) }
{
    if !has_columns(select, def) {
        return Err(QueryRefused::NoColumn);
    }
    if !has_types(select, def) {
        return Err(QueryRefused::WrongType);
    }
    Ok(())
}
