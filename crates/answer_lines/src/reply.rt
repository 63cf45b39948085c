//! What a reply says, behind its delivery, session and number.

ghost use Rattle.std.specs.Prelude.{◌≡◌, ◌++◌, OnOk, string_bytes, length, codes, decimal};
ghost use Rattle.std.specs.List.{flat_map};
ghost use Rattle.adg_model.specs.Reply.{at_scn, newline, reply_bytes, result_line_bytes};

use crate::cell::push_cells;
use adg_base::answer::{Answer, CellList, Reply};
use adg_base::memory::Memory;
use adg_base::number::Scn;

/// Adds a reply and a newline, and behind a reply of rows its result lines.
pub fn push_reply(text: &mut String, reply: &Reply) -> Result<(), Memory>
    ensures { OnOk result (string_bytes text.new ≡ string_bytes text.old ++ reply_bytes reply.now) }
{
    match reply {
        Reply::Rows {
            scn,
            answer,
            col,
            row,
        } => push_rows(text, *scn, answer, *col, *row),
        Reply::Populated { scn, units } => {
            push_number(text, *scn, " populated units=", u64::from(*units))
        }
        Reply::Synced { scn } => push_told(text, *scn, " synced"),
        Reply::Shown { scn } => push_told(text, *scn, " shown"),
        Reply::Aborted { scn } => push_told(text, *scn, " aborted"),
        Reply::BadQuery { scn, byte } => {
            push_number(text, *scn, " refused BadQuery byte=", u64::from(*byte))
        }
        Reply::NoTable { scn } => push_told(text, *scn, " refused NoTable"),
        Reply::NotInMemory { scn } => push_told(text, *scn, " refused NotInMemory"),
        Reply::NoColumn { scn } => push_told(text, *scn, " refused NoColumn"),
        Reply::WrongType { scn } => push_told(text, *scn, " refused WrongType"),
        Reply::Down => {
            text.push_str(" down\n")?;
            Ok(())
        }
    }
}

/// Adds an SCN and the words that follow it.
fn push_told(text: &mut String, scn: Scn, words: &str) -> Result<(), Memory>
    ensures { OnOk result (string_bytes text.new ≡ string_bytes text.old ++ (at_scn scn ++ words.now ++ newline)) }
{
    let scn = scn.get();
    write!(text, " scn={scn}{words}\n")?;
    Ok(())
}

/// Adds an SCN, the words that follow it, and a number.
fn push_number(text: &mut String, scn: Scn, words: &str, number: u64) -> Result<(), Memory>
    ensures { OnOk result (string_bytes text.new ≡ string_bytes text.old ++ (at_scn scn ++ words.now ++ decimal number ++ newline)) }
{
    let scn = scn.get();
    write!(text, " scn={scn}{words}{number}\n")?;
    Ok(())
}

/// Adds a reply of rows: how many lines there are, how many rows came from columns and from
/// blocks, and the lines.
fn push_rows(text: &mut String, scn: Scn, answer: &Answer, col: u64, row: u64) -> Result<(), Memory>
    ensures { OnOk result (string_bytes text.new ≡ string_bytes text.old ++ (at_scn scn ++ codes " rows=" ++ decimal (length answer.now) ++ codes " col=" ++ decimal col ++ codes " row=" ++ decimal row ++ newline ++ flat_map result_line_bytes answer.now)) }
{
    push_counts(text, scn, answer.len() as u64, col, row)?;
    push_answer(text, answer.as_slice())
}

fn push_counts(text: &mut String, scn: Scn, rows: u64, col: u64, row: u64) -> Result<(), Memory>
    ensures { OnOk result (string_bytes text.new ≡ string_bytes text.old ++ (at_scn scn ++ codes " rows=" ++ decimal rows ++ codes " col=" ++ decimal col ++ codes " row=" ++ decimal row ++ newline)) }
{
    let scn = scn.get();
    write!(text, " scn={scn} rows={rows} col={col} row={row}\n")?;
    Ok(())
}

fn push_answer(text: &mut String, answer: &[CellList]) -> Result<(), Memory>
    ensures { OnOk result (string_bytes text.new ≡ string_bytes text.old ++ flat_map result_line_bytes answer.now) }
{
    for cells in answer {
        push_result_line(text, cells)?;
    }
    Ok(())
}

fn push_result_line(text: &mut String, cells: &CellList) -> Result<(), Memory>
    ensures { OnOk result (string_bytes text.new ≡ string_bytes text.old ++ result_line_bytes cells.now) }
{
    text.push_str("= ")?;
    push_cells(text, cells.as_slice())?;
    text.push_str("\n")?;
    Ok(())
}
