//! The one spelling of a command.

ghost use Rattle.std.specs.Prelude.{◌≡◌, ◌++◌, ◌∷◌, [], IfOk, OnOk, codes};
ghost use Rattle.std.specs.List.{AllByRecursion};
ghost use Rattle.std.specs.Fmt.{decimal, signed_decimal};
ghost use Rattle.adg_model.specs.Spelling.{IsObj};
ghost use Rattle.adg_model.specs.Command.{literal_bytes, aggregate_bytes, aggregates_bytes, group_bytes, what_bytes, command_bytes, IsColumn, IsAggregate, IsCondition, IsGroup, IsWhat, IsSelect, IsCommand};
ghost use Rattle.query_text.specs.Parts.{IsLiteral, spaced_op, test_bytes, tests_bytes, AreAsked, query_bytes};
ghost use Rattle.query_text.specs.Listed.{listed_bytes};

use crate::refused::PrintRefused;
use adg_base::command::{Aggregate, Command, Condition, Op, Select, What};
use adg_base::list::{Bytes, List};
use adg_base::number::Obj;
use adg_base::value::Value;
use std::alloc::{AllocError, Global};

fn put_number(out: &mut Vec<u8>, alloc: Global, number: u64) -> Result<(), AllocError>
    ensures written { OnOk result (out.new.items ≡ out.old.items ++ decimal number) }
{
    let digits = format!(in alloc; "{number}")?;
    out.extend_from_slice(digits.as_bytes())?;
    Ok(())
}

fn put_integer(out: &mut Vec<u8>, alloc: Global, number: i64) -> Result<(), AllocError>
    ensures written { OnOk result (out.new.items ≡ out.old.items ++ signed_decimal number) }
{
    let digits = format!(in alloc; "{number}")?;
    out.extend_from_slice(digits.as_bytes())?;
    Ok(())
}

fn put_column(out: &mut Vec<u8>, alloc: Global, column: u8) -> Result<(), PrintRefused>
    ensures written { OnOk result (out.new.items ≡ out.old.items ++ decimal column) }
    ensures good { OnOk result (IsColumn column) }
    ensures bad { result ≡ Err PrintRefused.NoSpelling → IsColumn column → ⊥ }
{
    if column == 0 || column > 16 {
        return Err(PrintRefused::NoSpelling);
    }
    put_number(out, alloc, column as u64)?;
    Ok(())
}

fn put_literal(out: &mut Vec<u8>, alloc: Global, literal: &Value) -> Result<(), PrintRefused>
    ensures written { OnOk result (out.new.items ≡ out.old.items ++ literal_bytes literal.now) }
    ensures good { OnOk result (IsLiteral literal.now) }
    ensures bad { result ≡ Err PrintRefused.NoSpelling → IsLiteral literal.now → ⊥ }
{
    match literal {
        Value::Null => return Err(PrintRefused::NoSpelling),
        Value::Int(number) => put_integer(out, alloc, *number)?,
        Value::Text(text) => {
            out.extend_from_slice(b"'")?;
            out.extend_from_slice(text.as_bytes())?;
            out.extend_from_slice(b"'")?;
        }
    }
    Ok(())
}

/// The comparison between two blanks.
fn op_word(op: Op) -> &'static [u8]
    ensures { result.now ≡ spaced_op op }
{
    match op {
        Op::Eq => b" = ",
        Op::Ne => b" <> ",
        Op::Lt => b" < ",
        Op::Le => b" <= ",
        Op::Gt => b" > ",
        Op::Ge => b" >= ",
    }
}

fn put_test(out: &mut Vec<u8>, alloc: Global, test: &Condition) -> Result<(), PrintRefused>
    ensures written { OnOk result (out.new.items ≡ out.old.items ++ test_bytes test.now) }
    ensures good { OnOk result (IsCondition test.now) }
    ensures bad { result ≡ Err PrintRefused.NoSpelling → IsCondition test.now → ⊥ }
{
    put_column(out, alloc, test.column)?;
    out.extend_from_slice(op_word(test.op))?;
    put_literal(out, alloc, &test.literal)?;
    Ok(())
}

fn put_tests(out: &mut Vec<u8>, alloc: Global, tests: &[Condition]) -> Result<(), PrintRefused>
    ensures written { OnOk result (out.new.items ≡ out.old.items ++ tests_bytes (codes " WHERE c") tests.now) }
    ensures good { OnOk result (AllByRecursion IsCondition tests.now) }
    ensures bad { result ≡ Err PrintRefused.NoSpelling → AllByRecursion IsCondition tests.now → ⊥ }
{
    let mut word = b" WHERE c".as_slice();
    for test in tests {
        out.extend_from_slice(word)?;
        put_test(out, alloc, test)?;
        word = b" AND c".as_slice();
    }
    Ok(())
}

fn put_group(out: &mut Vec<u8>, alloc: Global, group: Option<u8>) -> Result<(), PrintRefused>
    ensures written { OnOk result (out.new.items ≡ out.old.items ++ group_bytes group) }
    ensures good { OnOk result (IsGroup group) }
    ensures bad { result ≡ Err PrintRefused.NoSpelling → IsGroup group → ⊥ }
{
    let Some(column) = group else {
        return Ok(());
    };
    out.extend_from_slice(b" GROUP BY c")?;
    put_column(out, alloc, column)?;
    Ok(())
}

/// A word up to a column, the column and a bracket.
fn put_call(out: &mut Vec<u8>, alloc: Global, word: &[u8], column: u8) -> Result<(), PrintRefused>
    ensures written { OnOk result (out.new.items ≡ out.old.items ++ (word.now ++ (decimal column ++ codes ")"))) }
    ensures good { OnOk result (IsColumn column) }
    ensures bad { result ≡ Err PrintRefused.NoSpelling → IsColumn column → ⊥ }
{
    out.extend_from_slice(word)?;
    put_column(out, alloc, column)?;
    out.extend_from_slice(b")")?;
    Ok(())
}

fn put_aggregate(out: &mut Vec<u8>, alloc: Global, aggregate: Aggregate) -> Result<(), PrintRefused>
    ensures written { OnOk result (out.new.items ≡ out.old.items ++ aggregate_bytes aggregate) }
    ensures good { OnOk result (IsAggregate aggregate) }
    ensures bad { result ≡ Err PrintRefused.NoSpelling → IsAggregate aggregate → ⊥ }
{
    match aggregate {
        Aggregate::Count => {
            out.extend_from_slice(b"COUNT")?;
            Ok(())
        }
        Aggregate::Sum(column) => put_call(out, alloc, b"SUM(c", column),
        Aggregate::Min(column) => put_call(out, alloc, b"MIN(c", column),
        Aggregate::Max(column) => put_call(out, alloc, b"MAX(c", column),
    }
}

fn put_aggregates(
    out: &mut Vec<u8>,
    alloc: Global,
    aggregates: &[Aggregate],
) -> Result<(), PrintRefused>
    ensures written { OnOk result (out.new.items ≡ out.old.items ++ listed_bytes [] aggregates.now) }
    ensures good { OnOk result (AllByRecursion IsAggregate aggregates.now) }
    ensures bad { result ≡ Err PrintRefused.NoSpelling → AllByRecursion IsAggregate aggregates.now → ⊥ }
{
    let mut word = b"".as_slice();
    for aggregate in aggregates {
        out.extend_from_slice(word)?;
        put_aggregate(out, alloc, *aggregate)?;
        word = b", ".as_slice();
    }
    Ok(())
}

/// What a query asks for, where a group goes with it.
fn put_what(
    out: &mut Vec<u8>,
    alloc: Global,
    what: &What,
    group: Option<u8>,
) -> Result<(), PrintRefused>
    ensures written { OnOk result (out.new.items ≡ out.old.items ++ what_bytes what.now) }
    ensures good { OnOk result (IsGroup group → IsWhat what.now group) }
    ensures bad { result ≡ Err PrintRefused.NoSpelling → IsWhat what.now group → ⊥ }
{
    match what {
        What::All => {
            if group.is_some() {
                return Err(PrintRefused::NoSpelling);
            }
            out.extend_from_slice(b"*")?;
        }
        What::Aggregates(aggregates) => {
            if aggregates.is_empty() {
                return Err(PrintRefused::NoSpelling);
            }
            put_aggregates(out, alloc, aggregates.as_slice())?;
        }
    }
    Ok(())
}

fn put_object(out: &mut Vec<u8>, alloc: Global, obj: Obj) -> Result<(), AllocError>
    ensures written { OnOk result (out.new.items ≡ out.old.items ++ decimal obj) }
    ensures good { IsObj obj }
{
    put_number(out, alloc, obj.get() as u64)?;
    Ok(())
}

fn put_query(out: &mut Vec<u8>, alloc: Global, select: &Select) -> Result<(), PrintRefused>
    ensures written { OnOk result (out.new.items ≡ out.old.items ++ query_bytes select.now) }
    ensures good { OnOk result (IsSelect select.now) }
    ensures bad { result ≡ Err PrintRefused.NoSpelling → IsSelect select.now → ⊥ }
{
    put_what(out, alloc, &select.what, select.group)?;
    out.extend_from_slice(b" FROM t")?;
    put_object(out, alloc, select.obj)?;
    put_tests(out, alloc, select.conditions.as_slice())?;
    put_group(out, alloc, select.group)?;
    Ok(())
}

fn put_command(out: &mut Vec<u8>, alloc: Global, command: &Command) -> Result<(), PrintRefused>
    ensures written { OnOk result (out.new.items ≡ out.old.items ++ command_bytes command.now) }
    ensures good { OnOk result (IsCommand command.now) }
    ensures bad { result ≡ Err PrintRefused.NoSpelling → IsCommand command.now → ⊥ }
{
    match command {
        Command::Select(select) => {
            out.extend_from_slice(b"SELECT ")?;
            put_query(out, alloc, select)?;
        }
        Command::Populate { obj } => {
            out.extend_from_slice(b"POPULATE t")?;
            put_object(out, alloc, *obj)?;
        }
        Command::Sync => out.extend_from_slice(b"SYNC")?,
        Command::ShowScn => out.extend_from_slice(b"SHOW SCN")?,
        Command::Abort => out.extend_from_slice(b"ABORT")?,
    }
    Ok(())
}

/// The one spelling of the command.
pub fn print_command(alloc: Global, c: &Command) -> Result<Bytes, PrintRefused>
    ensures written { IfOk result (λ bytes. bytes ≡ command_bytes c.now) }
    // What is printed has a spelling, and what is said to have none has none.
    ensures good { OnOk result (IsCommand c.now) }
    ensures bad { result ≡ Err PrintRefused.NoSpelling → IsCommand c.now → ⊥ }
{
    let mut out = Vec::new(alloc);
    put_command(&mut out, alloc, c)?;
    Ok(List::from_vec(out))
}
