ghost use Rattle.std.specs.Prelude.{◌≡◌, IfOk};
ghost use Rattle.adg_model.specs.Defined.{table_of};
ghost use Rattle.adg_model.specs.Query.{select_lines};
ghost use Rattle.scan_eval.specs.Admission.{admission, Follows};

use crate::accumulator::Accumulator;
use crate::admission::QueryRefused;
use adg_base::answer::Answer;
use adg_base::command::Select;
use adg_base::definition::Definition;
use adg_base::row::RowList;
use std::alloc::Global;

/// The answer of a query over rows of its object, in their order. Its refusals are those of `admit`.
pub fn select(
    alloc: Global,
    rows: &RowList,
    select: &Select,
    def: &Definition,
) -> Result<Answer, QueryRefused>
    ensures answer { IfOk result (λ answer. answer ≡ select_lines select.now rows.now) }
    ensures refused { Follows (admission select.now (table_of def.now)) result }
{
    let mut accumulator = Accumulator::new(alloc, select, def)?;
    for row in rows.as_slice() {
        accumulator.add(alloc, row)?;
    }
    Ok(accumulator.finish(alloc)?)
}
