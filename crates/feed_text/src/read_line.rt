//! Lines of the text, each by its first word.

ghost use Rattle.std.specs.Prelude.{◌≡◌, Option};
ghost use Rattle.feed_text.specs.declared.line.Line.{Line};
ghost use Rattle.change_vectors.specs.Reading.{Gives};
ghost use Rattle.feed_text.specs.LineReading.{opening_of, command_of, redo_of, schedule_of, raw_of, records_of, alone, or_reason, other_line, worded_line, line_of};
ghost use Rattle.feed_text.specs.Outcome.{Says};

use crate::hex::bytes_in;
use crate::line::Line;
use crate::number::byte_of;
use crate::reason::Reason;
use crate::record::some_records;
use crate::refused::LineRefused;
use crate::word::behind;
use adg_base::list::{Bytes, List};
use change_vectors::unread::Unread;
use std::alloc::Global;

#[tactic(auto, unfolding(crate::specs::LineReading::opening_of))]
fn read_opening(text: &[u8]) -> Result<Line, Unread>
    ensures { Gives (λ x. x) result (opening_of text.now) }
{
    let (threads, rest) = byte_of(text)?;
    match byte_of(behind(b" sessions ", rest)?)? {
        (sessions, []) => Ok(Line::Opening { threads, sessions }),
        _ => Err(Unread::Bad),
    }
}

#[tactic(auto, unfolding(crate::specs::LineReading::command_of))]
fn read_command(alloc: Global, text: &[u8]) -> Result<Line, Unread>
    ensures { Gives (λ x. x) result (command_of text.now) }
{
    let (session, rest) = byte_of(text)?;
    let command = Vec::from_slice(alloc, behind(b": ", rest)?)?;
    Ok(Line::Command {
        session,
        text: Bytes::from_vec(command),
    })
}

#[tactic(auto, unfolding(crate::specs::LineReading::redo_of))]
fn read_redo(alloc: Global, text: &[u8]) -> Result<Line, Unread>
    ensures { Gives (λ x. x) result (redo_of text.now) }
{
    let (thread, rest) = byte_of(text)?;
    let bytes = bytes_in(alloc, behind(b":", rest)?)?;
    Ok(Line::Redo {
        thread,
        bytes: Bytes::from_vec(bytes),
    })
}

#[tactic(auto, unfolding(crate::specs::LineReading::schedule_of))]
fn read_schedule(alloc: Global, text: &[u8]) -> Result<Line, Unread>
    ensures { Gives (λ x. x) result (schedule_of text.now) }
{
    let bytes = bytes_in(alloc, text)?;
    Ok(Line::Schedule {
        bytes: Bytes::from_vec(bytes),
    })
}

#[tactic(auto, unfolding(crate::specs::LineReading::raw_of))]
fn read_raw(alloc: Global, text: &[u8]) -> Result<Line, Unread>
    ensures { Gives (λ x. x) result (raw_of text.now) }
{
    let bytes = bytes_in(alloc, text)?;
    Ok(Line::Raw {
        bytes: Bytes::from_vec(bytes),
    })
}

#[tactic(auto, unfolding(crate::specs::LineReading::records_of))]
fn read_records(alloc: Global, text: &[u8]) -> Result<Line, Unread>
    ensures { Gives (λ x. x) result (records_of text.now) }
{
    let (thread, rest) = byte_of(text)?;
    match some_records(alloc, behind(b"@", rest)?)? {
        (records, []) => Ok(Line::Records {
            thread,
            records: List::from_vec(records),
        }),
        _ => Err(Unread::Bad),
    }
}

/// A word behind which nothing is left.
fn read_alone(rest: &[u8], line: Line) -> Result<Line, LineRefused>
    ensures { Says result (alone rest.now line) }
{
    if rest.is_empty() {
        Ok(line)
    } else {
        Err(LineRefused::Broken(Reason::NoLine))
    }
}

/// What is read, or the reason why it is not.
fn or_reason(read: Result<Line, Unread>, reason: Reason) -> Result<Line, LineRefused>
    ensures { (found : Option Line) → Gives (λ x. x) read found → Says result (or_reason found reason) }
{
    match read {
        Ok(line) => Ok(line),
        Err(Unread::Bad) => Err(LineRefused::Broken(reason)),
        Err(Unread::Memory) => Err(LineRefused::Memory),
    }
}

/// A line that begins with no word: its records, where a digit is in front.
fn read_other(alloc: Global, text: &[u8]) -> Result<Line, LineRefused>
    ensures { Says result (other_line text.now) }
{
    match text {
        [b'0'..=b'9', ..] => or_reason(read_records(alloc, text), Reason::NoRecords),
        _ => Err(LineRefused::Broken(Reason::NoLine)),
    }
}

/// A line by its first word.
#[tactic(auto, unfolding(crate::specs::LineReading::worded_line))]
fn read_worded(alloc: Global, text: &[u8]) -> Result<Line, LineRefused>
    ensures { Says result (worded_line text.now) }
{
    if let Ok(rest) = behind(b"threads ", text) {
        return or_reason(read_opening(rest), Reason::NoOpening);
    }
    if let Ok(rest) = behind(b"session ", text) {
        return or_reason(read_command(alloc, rest), Reason::NoCommand);
    }
    if let Ok(rest) = behind(b"redo ", text) {
        return or_reason(read_redo(alloc, rest), Reason::NoBytes);
    }
    if let Ok(rest) = behind(b"schedule", text) {
        return or_reason(read_schedule(alloc, rest), Reason::NoBytes);
    }
    if let Ok(rest) = behind(b"bytes", text) {
        return or_reason(read_raw(alloc, rest), Reason::NoBytes);
    }
    if let Ok(rest) = behind(b"end", text) {
        return read_alone(rest, Line::End);
    }
    if let Ok(rest) = behind(b"stop", text) {
        return read_alone(rest, Line::Stop);
    }
    read_other(alloc, text)
}

/// What a line says.
#[tactic(auto, unfolding(crate::specs::LineReading::line_of))]
pub fn read_line(alloc: Global, text: &[u8]) -> Result<Line, LineRefused>
    ensures { Says result (line_of text.now) }
{
    match text {
        [] | [b'#', ..] => Ok(Line::Nothing),
        _ => read_worded(alloc, text),
    }
}
