//! What a query of aggregates asks for.

ghost use Rattle.adg_model.specs.Command.{IsColumn, IsAggregate, aggregate_bytes};
ghost use Rattle.query_text.specs.Stopping.{Reads, Anything};
ghost use Rattle.query_text.specs.Parts.{IsFunction, function_bytes, argument_bytes, IsBehind, behind_bytes, AreAsked, asked_bytes};

use crate::fault::Fault;
use crate::number::column_of;
use crate::word::{behind_word, word_of};
use adg_base::command::Aggregate;
use std::alloc::Global;

/// What is made of the rows.
#[derive(Clone, Copy, Debug, PartialEq, Eq)]
pub enum Function {
    Count,
    Sum,
    Min,
    Max,
}

/// What stands behind an aggregate.
#[derive(Clone, Copy, Debug, PartialEq, Eq)]
pub enum Behind {
    Aggregate,
    Table,
}

/// How the aggregate at the front begins, and the bytes behind it.
fn function_of(bytes: &[u8]) -> Result<(Function, &[u8]), Fault>
    ensures { Reads (λ x. x.0) (λ x. x.1.now) Anything IsFunction function_bytes bytes.now result }
{
    let words = [
        (b"COUNT".as_slice(), Function::Count),
        (b"SUM(c".as_slice(), Function::Sum),
        (b"MIN(c".as_slice(), Function::Min),
        (b"MAX(c".as_slice(), Function::Max),
    ];
    word_of(&words, bytes)
}

/// The column up to a bracket, and the bytes behind it.
fn argument_of(bytes: &[u8]) -> Result<(u8, &[u8]), Fault>
    ensures { Reads (λ x. x.0) (λ x. x.1.now) Anything IsColumn argument_bytes bytes.now result }
{
    let (column, rest) = column_of(bytes)?;
    let rest = behind_word(b")", rest)?;
    Ok((column, rest))
}

/// The aggregate at the front, and the bytes behind it.
fn aggregate_of(bytes: &[u8]) -> Result<(Aggregate, &[u8]), Fault>
    ensures { Reads (λ x. x.0) (λ x. x.1.now) Anything IsAggregate aggregate_bytes bytes.now result }
{
    let (function, rest) = function_of(bytes)?;
    match function {
        Function::Count => Ok((Aggregate::Count, rest)),
        Function::Sum => {
            let (column, rest) = argument_of(rest)?;
            Ok((Aggregate::Sum(column), rest))
        }
        Function::Min => {
            let (column, rest) = argument_of(rest)?;
            Ok((Aggregate::Min(column), rest))
        }
        Function::Max => {
            let (column, rest) = argument_of(rest)?;
            Ok((Aggregate::Max(column), rest))
        }
    }
}

/// What stands behind an aggregate, and the bytes behind that.
fn behind_of(bytes: &[u8]) -> Result<(Behind, &[u8]), Fault>
    ensures { Reads (λ x. x.0) (λ x. x.1.now) Anything IsBehind behind_bytes bytes.now result }
{
    let words = [
        (b", ".as_slice(), Behind::Aggregate),
        (b" FROM t".as_slice(), Behind::Table),
    ];
    word_of(&words, bytes)
}

/// The aggregates at the front, up to the number of a table, and the bytes from there on.
pub fn aggregates_of(alloc: Global, bytes: &[u8]) -> Result<(Vec<Aggregate>, &[u8]), Fault>
    ensures { Reads (λ x. x.0.items) (λ x. x.1.now) Anything AreAsked asked_bytes bytes.now result }
{
    let mut aggregates = Vec::new(alloc);
    let mut rest = bytes;
    loop {
        let (aggregate, behind) = aggregate_of(rest)?;
        aggregates.push(aggregate)?;
        match behind_of(behind)? {
            (Behind::Aggregate, behind) => rest = behind,
            (Behind::Table, behind) => return Ok((aggregates, behind)),
        }
    }
}
