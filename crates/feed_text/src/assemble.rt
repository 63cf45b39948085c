//! A text as the feed that it stands for.

ghost use Rattle.std.specs.Prelude.{◌≡◌, ◌⊎◌, ◌++◌, ℕ, List, IfOk};
ghost use Rattle.feed_text.specs.declared.reason.Reason.{Reason as ReasonOf};
ghost use Rattle.feed_text.specs.LineReading.{split};
ghost use Rattle.feed_text.specs.Meaning.{Assembles, BreaksAt, AddsLine};

use crate::bytes::put_line;
use crate::read_line::read_line;
use crate::reason::Reason;
use crate::refused::{LineRefused, TextRefused};
use crate::word::cut;
use change_vectors::unread::Unread;
use std::alloc::Global;

/// Adds the bytes of a line of text.
fn add_line(alloc: Global, out: &mut Vec<u8>, text: &[u8]) -> Result<(), LineRefused>
    ensures { AddsLine result text.now out.old.items out.new.items }
{
    let line = read_line(alloc, text)?;
    match put_line(alloc, out, &line) {
        Ok(()) => Ok(()),
        Err(Unread::Bad) => Err(LineRefused::Broken(Reason::NoSpelling)),
        Err(Unread::Memory) => Err(LineRefused::Memory),
    }
}

/// The bytes that a text stands for.
pub fn assemble(alloc: Global, text: &[u8]) -> Result<Vec<u8>, TextRefused>
    ensures assembled { IfOk result (λ feed. Assembles text.now feed.items) }
    ensures refused { (number : ℕ) (reason : ReasonOf) → result ≡ Err (TextRefused.Line number reason) → BreaksAt 1 (split 10 text.now) number reason }
    // What stands for bytes is taken for just these, unless memory runs out.
    ensures only { (bytes : List ℕ) → Assembles text.now bytes → IfOk result (λ feed. feed.items ≡ bytes) × ((number : ℕ) (reason : ReasonOf) → result ≡ Err (TextRefused.Line number reason) → ⊥) }
{
    let mut feed = Vec::new(alloc);
    let mut rest = text;
    let mut before: u64 = 0;
    loop {
        let (line, behind) = cut(b'\n', rest);
        match add_line(alloc, &mut feed, line) {
            Ok(()) => {}
            Err(LineRefused::Broken(reason)) => {
                let number = before + 1;
                return Err(TextRefused::Line { number, reason });
            }
            Err(LineRefused::Memory) => return Err(TextRefused::Memory),
        }
        match behind {
            Some(more) => {
                rest = more;
                before += 1;
            }
            None => return Ok(feed),
        }
    }
}
