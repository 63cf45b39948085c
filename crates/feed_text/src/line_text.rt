//! The text of lines.

ghost use Rattle.std.specs.Prelude.{◌≡◌, ◌++◌, OnOk};
ghost use Rattle.feed_text.specs.Hex.{hex_text};
ghost use Rattle.feed_text.specs.LineText.{line_text};

use crate::line::Line;
use crate::put_hex::put_hex;
use crate::text::{put_named, put_number, put_records};
use std::alloc::{AllocError, Global};

/// Adds bytes in hexadecimal behind a word.
pub fn put_raw(
    out: &mut Vec<u8>,
    alloc: Global,
    word: &[u8],
    bytes: &[u8],
) -> Result<(), AllocError>
    ensures { OnOk result (out.new.items ≡ out.old.items ++ (word.now ++ hex_text bytes.now)) }
{
    out.extend_from_slice(word)?;
    put_hex(out, alloc, bytes)
}

/// Adds the text of a line.
pub fn put_line_text(out: &mut Vec<u8>, alloc: Global, line: &Line) -> Result<(), AllocError>
    ensures { OnOk result (out.new.items ≡ out.old.items ++ line_text line.now) }
{
    match line {
        Line::Nothing => Ok(()),
        Line::Opening { threads, sessions } => {
            put_named(out, alloc, b"threads ", *threads as u64)?;
            put_named(out, alloc, b" sessions ", *sessions as u64)
        }
        Line::Records { thread, records } => {
            put_number(out, alloc, *thread as u64)?;
            out.push(b'@')?;
            put_records(out, alloc, records.as_slice())
        }
        Line::Redo { thread, bytes } => {
            put_named(out, alloc, b"redo ", *thread as u64)?;
            put_raw(out, alloc, b":", bytes.as_slice())
        }
        Line::Command { session, text } => {
            put_named(out, alloc, b"session ", *session as u64)?;
            out.extend_from_slice(b": ")?;
            out.extend_from_slice(text.as_slice())
        }
        Line::Schedule { bytes } => put_raw(out, alloc, b"schedule", bytes.as_slice()),
        Line::End => out.extend_from_slice(b"end"),
        Line::Stop => out.extend_from_slice(b"stop"),
        Line::Raw { bytes } => put_raw(out, alloc, b"bytes", bytes.as_slice()),
    }
}
