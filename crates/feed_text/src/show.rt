//! A feed as text.

ghost use Rattle.std.specs.Prelude.{◌≡◌, ◌≤◌, ◌++◌, ◌<◌, ◌↔◌, List, [], ℕ, length, IsTrue, IfOk, IfSome, OnOk};
ghost use Rattle.feed_text.specs.Meaning.{Adds, Assembles};
ghost use Rattle.feed_text.specs.Shown.{IsLine, Grows, ShowsFront};

use crate::bytes::put_line;
use crate::fault::extent_of;
use crate::frame::line_in;
use crate::line_text::{put_line_text, put_raw};
use crate::read_line::read_line;
use crate::refused::LineRefused;
use adg_base::memory::Memory;
use change_vectors::unread::Unread;
use feed_frames::fault::FeedFault;
use std::alloc::{AllocError, Global};

/// How long the magic and the header are.
const OPENING_LEN: usize = 15;

/// How long the tag and the length of a frame are.
const HEAD_LEN: usize = 5;

/// The most bytes for which a line of bytes has room at first.
const FIRST_ROOM: usize = 65_536;

/// Whether a text is one line.
fn is_line(text: &[u8]) -> bool
    ensures { IsTrue result → IsLine text.now }
{
    for byte in text {
        if *byte <= b'\n' {
            return false;
        }
    }
    true
}

/// Adds a line, and a newline behind it.
fn put_ended(out: &mut Vec<u8>, line: &[u8]) -> Result<(), AllocError>
    requires { IsLine line.now }
    ensures { OnOk result ((bytes : List ℕ) → Adds line.now bytes → Grows out.old.items out.new.items bytes) }
{
    out.extend_from_slice(line)?;
    out.push(b'\n')?;
    Ok(())
}

/// Whether a line adds just these bytes.
fn stands_for(alloc: Global, text: &[u8], bytes: &[u8]) -> Result<bool, Memory>
    ensures { IfOk result (λ found. IsTrue found → Adds text.now bytes.now) }
{
    let line = match read_line(alloc, text) {
        Ok(line) => line,
        Err(LineRefused::Broken(_)) => return Ok(false),
        Err(LineRefused::Memory) => return Err(Memory),
    };
    let mut added = Vec::new(alloc);
    match put_line(alloc, &mut added, &line) {
        Ok(()) => Ok(added.as_slice() == bytes),
        Err(Unread::Bad) => Ok(false),
        Err(Unread::Memory) => Err(Memory),
    }
}

/// Adds a line of bytes in hexadecimal.
fn put_raw_line(alloc: Global, out: &mut Vec<u8>, bytes: &[u8]) -> Result<(), Memory>
    ensures { OnOk result (Grows out.old.items out.new.items bytes.now) }
{
    let mut text = Vec::with_capacity(alloc, bytes.len().min(FIRST_ROOM))?;
    put_raw(&mut text, alloc, b"bytes", bytes)?;
    put_ended(out, text.as_slice())?;
    Ok(())
}

/// Adds the line of a piece of a feed: what it says, where that is read again as just these bytes;
/// else the bytes.
fn put_piece(alloc: Global, out: &mut Vec<u8>, piece: &[u8]) -> Result<(), Memory>
    ensures { OnOk result (Grows out.old.items out.new.items piece.now) }
{
    let line = line_in(alloc, piece)?;
    let mut text = Vec::new(alloc);
    put_line_text(&mut text, alloc, &line)?;
    if is_line(text.as_slice()) && stands_for(alloc, text.as_slice(), piece)? {
        put_ended(out, text.as_slice())?;
        return Ok(());
    }
    put_raw_line(alloc, out, piece)
}

/// The whole frame in front, and the bytes behind it.
fn frame_in(bytes: &[u8]) -> Option<(&[u8], &[u8])>
    ensures { IfSome result (λ x. (bytes.now ≡ x.0.now ++ x.1.now) × (length x.1.now < length bytes.now)) }
{
    let [_, a, b, c, d, payload @ ..] = bytes else {
        return None;
    };
    let len = u32::from_be_bytes([*a, *b, *c, *d]) as usize;
    if payload.len() < len {
        return None;
    }
    Some(bytes.split_at(HEAD_LEN + len))
}

/// Adds the lines of the whole frames in front, and gives the bytes behind them.
fn put_frames<'a>(alloc: Global, out: &mut Vec<u8>, bytes: &'a [u8]) -> Result<&'a [u8], Memory>
    ensures { IfOk result (λ rest. ShowsFront out.old.items out.new.items bytes.now rest.now) }
{
    let mut rest = bytes;
    while let Some((frame, behind)) = frame_in(rest) {
        put_piece(alloc, out, frame)?;
        rest = behind;
    }
    Ok(rest)
}

/// Adds the lines of the opening and the whole frames in front, and gives the bytes behind them.
fn put_front<'a>(alloc: Global, out: &mut Vec<u8>, bytes: &'a [u8]) -> Result<&'a [u8], Memory>
    ensures { IfOk result (λ rest. ShowsFront out.old.items out.new.items bytes.now rest.now) }
{
    if bytes.len() < OPENING_LEN {
        return Ok(bytes);
    }
    let (opening, frames) = bytes.split_at(OPENING_LEN);
    put_piece(alloc, out, opening)?;
    let rest = put_frames(alloc, out, frames)?;
    Ok(rest)
}

/// Adds a line of bytes, where there are some.
fn put_rest(alloc: Global, out: &mut Vec<u8>, bytes: &[u8]) -> Result<(), Memory>
    ensures { OnOk result (Grows out.old.items out.new.items bytes.now) }
{
    if bytes.is_empty() {
        return Ok(());
    }
    put_raw_line(alloc, out, bytes)
}

/// Adds a comment that names a fault and its byte, where there is one.
fn put_note(alloc: Global, out: &mut Vec<u8>, fault: Option<FeedFault>) -> Result<(), Memory>
    ensures { OnOk result (Grows out.old.items out.new.items []) }
{
    let Some(FeedFault { kind, byte }) = fault else {
        return Ok(());
    };
    let text = format!(in alloc; "feed refused: {kind:?} at byte {byte}")?;
    if is_line(text.as_bytes()) {
        put_comment(alloc, out, text.as_bytes())
    } else {
        Ok(())
    }
}

/// Adds a comment of one line.
fn put_comment(alloc: Global, out: &mut Vec<u8>, comment: &[u8]) -> Result<(), Memory>
    requires { IsLine comment.now }
    ensures { OnOk result (Grows out.old.items out.new.items []) }
{
    let mut text = Vec::from_slice(alloc, b"# ")?;
    text.extend_from_slice(comment)?;
    put_ended(out, text.as_slice())?;
    Ok(())
}

/// A text that stands for the bytes of a feed, or for other bytes: each whole frame is a line. The
/// rest of what is no whole feed is hexadecimal, behind a comment that names the fault and its byte.
pub fn show(alloc: Global, feed: &[u8]) -> Result<Vec<u8>, Memory>
    ensures { IfOk result (λ text. Assembles text.items feed.now) }
{
    let extent = extent_of(alloc, feed)?;
    let (front, behind) = feed.split_at(extent.len);
    let mut out = Vec::new(alloc);
    let rest = put_front(alloc, &mut out, front)?;
    put_note(alloc, &mut out, extent.fault)?;
    put_rest(alloc, &mut out, rest)?;
    put_rest(alloc, &mut out, behind)?;
    Ok(out)
}
