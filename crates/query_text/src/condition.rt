//! Tests of a column.

ghost use Rattle.adg_model.specs.Command.{IsCondition};
ghost use Rattle.query_text.specs.Stopping.{Reads, Anything};
ghost use Rattle.query_text.specs.Parts.{IsOp, EndsTest, spaced_op, test_bytes};

use crate::fault::Fault;
use crate::literal::literal_of;
use crate::number::column_of;
use crate::word::word_of;
use adg_base::command::{Condition, Op};
use std::alloc::Global;

/// The comparison at the front, between two blanks, and the bytes behind it.
fn op_of(bytes: &[u8]) -> Result<(Op, &[u8]), Fault>
    ensures { Reads (λ x. x.0) (λ x. x.1.now) Anything IsOp spaced_op bytes.now result }
{
    let words = [
        (b" = ".as_slice(), Op::Eq),
        (b" <> ".as_slice(), Op::Ne),
        (b" < ".as_slice(), Op::Lt),
        (b" <= ".as_slice(), Op::Le),
        (b" > ".as_slice(), Op::Gt),
        (b" >= ".as_slice(), Op::Ge),
    ];
    word_of(&words, bytes)
}

/// The test at the front, from the number of its column on, and the bytes behind it.
pub fn condition_of(alloc: Global, bytes: &[u8]) -> Result<(Condition, &[u8]), Fault>
    ensures { Reads (λ x. x.0) (λ x. x.1.now) EndsTest IsCondition test_bytes bytes.now result }
{
    let (column, rest) = column_of(bytes)?;
    let (op, rest) = op_of(rest)?;
    let (literal, rest) = literal_of(alloc, rest)?;
    let condition = Condition {
        column,
        op,
        literal,
    };
    Ok((condition, rest))
}
