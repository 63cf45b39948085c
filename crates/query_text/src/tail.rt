//! What stands behind the table of a query: its tests, and the column that it groups by.

ghost use Rattle.std.specs.Prelude.{codes};
ghost use Rattle.std.specs.Fmt.{decimal};
ghost use Rattle.adg_model.specs.Command.{IsColumn};
ghost use Rattle.query_text.specs.Stopping.{Reads, ReadsAll, Anything};
ghost use Rattle.query_text.specs.Parts.{IsNext, next_bytes, IsTail, tail_bytes};

use crate::condition::condition_of;
use crate::fault::Fault;
use crate::number::column_of;
use crate::word::word_of;
use adg_base::command::Condition;
use std::alloc::Global;

/// What comes next.
#[derive(Clone, Copy, Debug, PartialEq, Eq)]
pub enum Next {
    Test,
    Group,
}

/// What comes next, where a test begins with a word, and the bytes behind it.
fn next_of<'a>(bytes: &'a [u8], test: &[u8], grouped: bool) -> Result<(Next, &'a [u8]), Fault>
    ensures { Reads (λ x. x.0) (λ x. x.1.now) Anything (IsNext grouped) (next_bytes test.now) bytes.now result }
{
    if grouped {
        word_of(
            &[(test, Next::Test), (b" GROUP BY c".as_slice(), Next::Group)],
            bytes,
        )
    } else {
        word_of(&[(test, Next::Test)], bytes)
    }
}

/// The column that the bytes spell, all of them.
fn group_of(bytes: &[u8]) -> Result<u8, Fault>
    ensures { ReadsAll (λ x. x) IsColumn decimal bytes.now result }
{
    match column_of(bytes) {
        Ok((column, [])) => Ok(column),
        Ok((_, rest)) => Err(Fault::Stopped { left: rest.len() }),
        Err(fault) => Err(fault),
    }
}

/// The tests and the group that the bytes spell, all of them. Only a query of aggregates is grouped.
pub fn tail_of(
    alloc: Global,
    bytes: &[u8],
    grouped: bool,
) -> Result<(Vec<Condition>, Option<u8>), Fault>
    ensures { ReadsAll (λ x. (x.0.items, x.1)) (IsTail grouped) (tail_bytes (codes " WHERE c")) bytes.now result }
{
    let mut conditions = Vec::new(alloc);
    let mut test = b" WHERE c".as_slice();
    let mut rest = bytes;
    while !rest.is_empty() {
        match next_of(rest, test, grouped)? {
            (Next::Test, behind) => {
                let (condition, behind) = condition_of(alloc, behind)?;
                conditions.push(condition)?;
                test = b" AND c".as_slice();
                rest = behind;
            }
            (Next::Group, behind) => {
                let column = group_of(behind)?;
                return Ok((conditions, Some(column)));
            }
        }
    }
    Ok((conditions, None))
}
