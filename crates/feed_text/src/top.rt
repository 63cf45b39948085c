//! The run of the program: what a source has is turned into text or into a feed, and written to a
//! sink.

ghost use Rattle.std.specs.Prelude.{◌≡◌, ◌⊎◌, ◌++◌, List, ℕ, Ok, Err, map, string_bytes, IfOk, OnOk};
ghost use Rattle.std.specs.Io.KnownBytes.{Consumes, IsAtEnd};
ghost use Rattle.adg_io.specs.Faults.{Rose};
ghost use Rattle.feed_text.specs.Run.{RunEnds, SinkView, TurnEnds, WriteEnds, code_of, reason_text, refusal_text, sink_view, sinks_view, turn_of, usage_text};

use crate::assemble::assemble;
use crate::reason::Reason;
use crate::refused::TextRefused;
use crate::show::show;
use adg_base::memory::Memory;
use adg_io::outside::{Sink, Source};
use adg_io::transfer::{FillEnd, fill, write_whole};
use std::alloc::{AllocError, Global};

/// How many bytes are read at once.
const PIECE_LEN: usize = 65_536;

/// Which way the input is turned.
#[derive(Clone, Copy, Debug, PartialEq, Eq)]
pub enum Turn {
    /// A text into the feed that it stands for.
    Assemble,
    /// A feed into text.
    Show,
}

/// How a run ended.
#[derive(Clone, Copy, Debug, PartialEq, Eq)]
pub enum Ended {
    /// All was read, turned and written.
    Done,
    /// The words or the text were refused, and nothing was written but the line that says so.
    Refused,
    /// A read failed.
    SourceFailed,
    /// A write failed.
    SinkFailed,
    /// Want of memory.
    NoMemory,
}

impl Ended {
    /// The number that the program ends with.
    pub fn code(self) -> u8
        ensures { result ≡ code_of self }
    {
        match self {
            Ended::Done => 0,
            Ended::Refused => 1,
            Ended::SourceFailed => 4,
            Ended::SinkFailed => 5,
            Ended::NoMemory => 6,
        }
    }
}

/// Why a source was not read whole.
#[derive(Clone, Copy, Debug, PartialEq, Eq)]
enum NotRead {
    Failed,
    Memory,
}

impl From<AllocError> for NotRead {
    ghost use Rattle.feed_text.specs.declared.top.NotRead.TheVariants.{Memory};
    ghost use Rattle.std.specs.Prelude.{◌≡◌};

    ghost from_gives = { λ _ e. e ≡ Memory };

    fn from(_error: AllocError) -> NotRead {
        NotRead::Memory
    }
}

/// Reads a piece of a source, and adds it.
fn read_piece<R: Source>(
    source: &mut R,
    bytes: &mut Vec<u8>,
    piece: &mut [u8],
) -> Result<FillEnd, AllocError>
    ensures read { OnOk result ((part : List ℕ) × Consumes (R.left source.old) (R.left source.new) part × (bytes.new.items ≡ bytes.old.items ++ part)) }
    ensures at_end { result ≡ Ok FillEnd.AtEnd → IsAtEnd (R.left source.new) }
    ensures failed { result ≡ Ok FillEnd.Failed → Rose (R.faults source.old) (R.faults source.new) }
    ensures honest { result ≡ Ok FillEnd.Whole → R.faults source.new ≡ R.faults source.old }
{
    let filled = fill(source, piece);
    bytes.extend_from_slice(&piece[..filled.count])?;
    Ok(filled.ending)
}

/// Room for a piece.
fn new_piece(alloc: Global) -> Result<Vec<u8>, AllocError> {
    vec![in alloc; 0; PIECE_LEN]
}

/// All that a source has.
fn read_whole<R: Source>(alloc: Global, source: &mut R) -> Result<Vec<u8>, NotRead>
    ensures read { IfOk result (λ bytes. Consumes (R.left source.old) (R.left source.new) bytes.items × IsAtEnd (R.left source.new)) }
    ensures failed { result ≡ Err NotRead.Failed → Rose (R.faults source.old) (R.faults source.new) }
{
    let mut bytes = Vec::new(alloc);
    let mut piece = new_piece(alloc)?;
    for _ in 0..u64::MAX {
        let ended = read_piece(source, &mut bytes, piece.as_mut_slice())?;
        match ended {
            FillEnd::Whole => {}
            FillEnd::AtEnd => return Ok(bytes),
            FillEnd::Failed => return Err(NotRead::Failed),
        }
    }
    Err(NotRead::Memory)
}

/// What the words ask for; `None` where they are no accepted line.
fn turn_in(words: &[String]) -> Option<Turn>
    ensures { result ≡ turn_of (map (λ w. string_bytes w) words.now) }
{
    let [word] = words else {
        return None;
    };
    if word.as_bytes() == b"assemble".as_slice() {
        Some(Turn::Assemble)
    } else if word.as_bytes() == b"show".as_slice() {
        Some(Turn::Show)
    } else {
        None
    }
}

/// The words for a reason.
fn words_of(reason: Reason) -> &'static str
    ensures { result.now ≡ reason_text reason }
{
    match reason {
        Reason::NoLine => "no line of the notation",
        Reason::NoOpening => "no numbers of threads and sessions",
        Reason::NoCommand => "no session and command",
        Reason::NoBytes => "no bytes in hexadecimal",
        Reason::NoRecords => "no records",
        Reason::NoSpelling => "no bytes for a record or a frame",
    }
}

/// The line of a text that is refused.
fn refusal(alloc: Global, number: u64, reason: Reason) -> Result<String, Memory>
    ensures { IfOk result (λ line. string_bytes line ≡ refusal_text number reason) }
{
    let words = words_of(reason);
    Ok(format!(in alloc; "line {number}: {words}\n")?)
}

/// The line of words that are refused.
fn usage() -> &'static str
    ensures { result.now ≡ usage_text }
{
    "usage: imadg_feed assemble|show\n"
}

/// Writes a piece, and ends so where all of it was written.
fn write_and_end<K: Sink>(sink: &mut K, piece: &[u8], ended: Ended) -> Ended
    ensures { WriteEnds (sink_view (K.held sink.old) (K.faults sink.old)) (sink_view (K.held sink.new) (K.faults sink.new)) piece.now ended result }
{
    let wrote = write_whole(sink, piece);
    if wrote.whole {
        ended
    } else {
        Ended::SinkFailed
    }
}

/// Writes the feed that a text stands for, or the line and the reason why it stands for none.
fn assemble_to<K: Sink, E: Sink>(alloc: Global, text: &[u8], sink: &mut K, errors: &mut E) -> Ended
    ensures { TurnEnds Turn.Assemble text.now (sinks_view (sink_view (K.held sink.old) (K.faults sink.old)) (sink_view (E.held errors.old) (E.faults errors.old))) (sinks_view (sink_view (K.held sink.new) (K.faults sink.new)) (sink_view (E.held errors.new) (E.faults errors.new))) result }
{
    match assemble(alloc, text) {
        Ok(feed) => write_and_end(sink, feed.as_slice(), Ended::Done),
        Err(TextRefused::Line { number, reason }) => refuse_line(alloc, errors, number, reason),
        Err(TextRefused::Memory) => Ended::NoMemory,
    }
}

/// Writes why a line of a text is refused.
fn refuse_line<E: Sink>(alloc: Global, errors: &mut E, number: u64, reason: Reason) -> Ended
    ensures { WriteEnds (sink_view (E.held errors.old) (E.faults errors.old)) (sink_view (E.held errors.new) (E.faults errors.new)) (refusal_text number reason) Ended.Refused result ⊎ ((result ≡ Ended.NoMemory) × (errors.new ≡ errors.old)) }
{
    match refusal(alloc, number, reason) {
        Ok(line) => write_and_end(errors, line.as_bytes(), Ended::Refused),
        Err(_) => Ended::NoMemory,
    }
}

/// Writes the text of a feed.
fn show_to<K: Sink>(alloc: Global, feed: &[u8], sink: &mut K) -> Ended
    ensures { (errors : SinkView) → TurnEnds Turn.Show feed.now (sinks_view (sink_view (K.held sink.old) (K.faults sink.old)) errors) (sinks_view (sink_view (K.held sink.new) (K.faults sink.new)) errors) result }
{
    match show(alloc, feed) {
        Ok(text) => write_and_end(sink, text.as_slice(), Ended::Done),
        Err(Memory) => Ended::NoMemory,
    }
}

/// Reads a source whole, turns what it has as the words say that follow the program's name, and writes
/// that to a sink. A line that tells why the words or a text are refused goes to `errors`.
pub fn run<R: Source, K: Sink, E: Sink>(
    alloc: Global,
    words: &[String],
    source: &mut R,
    sink: &mut K,
    errors: &mut E,
) -> Ended
    ensures ends { RunEnds (turn_of (map (λ w. string_bytes w) words.now)) (R.left source.old) (R.left source.new) (sinks_view (sink_view (K.held sink.old) (K.faults sink.old)) (sink_view (E.held errors.old) (E.faults errors.old))) (sinks_view (sink_view (K.held sink.new) (K.faults sink.new)) (sink_view (E.held errors.new) (E.faults errors.new))) result }
    ensures source_failed { result ≡ Ended.SourceFailed → Rose (R.faults source.old) (R.faults source.new) }
    ensures sink_failed { result ≡ Ended.SinkFailed → Rose (K.faults sink.old) (K.faults sink.new) ⊎ Rose (E.faults errors.old) (E.faults errors.new) }
{
    let Some(turn) = turn_in(words) else {
        return write_and_end(errors, usage().as_bytes(), Ended::Refused);
    };
    let input = match read_whole(alloc, source) {
        Ok(input) => input,
        Err(NotRead::Failed) => return Ended::SourceFailed,
        Err(NotRead::Memory) => return Ended::NoMemory,
    };
    match turn {
        Turn::Assemble => assemble_to(alloc, input.as_slice(), sink, errors),
        Turn::Show => show_to(alloc, input.as_slice(), sink),
    }
}
