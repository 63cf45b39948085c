ghost use Rattle.std.specs.Prelude.{◌≡◌, ◌++◌, IfOk, OnOk, string_bytes};
ghost use Rattle.feed_run.specs.Report.{feed_name, frame_name, check_name, feed_line, redo_line, redo_tail, usage_line};

use adg_base::memory::Memory;
use adg_model::fault::{CheckKind, FeedKind, FrameKind, RedoFault, RedoKind};
use std::alloc::Global;

fn feed_kind(kind: FeedKind) -> &'static str
    ensures { result.now ≡ feed_name kind }
{
    match kind {
        FeedKind::BadMagic => "BadMagic",
        FeedKind::BadTag => "BadTag",
        FeedKind::BadOrder => "BadOrder",
        FeedKind::BadLength => "BadLength",
        FeedKind::TooLarge => "TooLarge",
        FeedKind::TooManyDeliveries => "TooManyDeliveries",
        FeedKind::BadThread => "BadThread",
        FeedKind::BadSession => "BadSession",
        FeedKind::TooManyCommands => "TooManyCommands",
        FeedKind::Truncated => "Truncated",
        FeedKind::Read => "Read",
        FeedKind::Memory => "Memory",
    }
}

fn frame_kind(kind: FrameKind) -> &'static str
    ensures { result.now ≡ frame_name kind }
{
    match kind {
        FrameKind::BadLength => "BadLength",
        FrameKind::BadTrailer => "BadTrailer",
        FrameKind::ScnRange => "ScnRange",
        FrameKind::ScnOrder => "ScnOrder",
        FrameKind::AfterEnd => "AfterEnd",
    }
}

fn check_kind(kind: CheckKind) -> &'static str
    ensures { result.now ≡ check_name kind }
{
    match kind {
        CheckKind::TxnTwice => "TxnTwice",
        CheckKind::TxnUnknown => "TxnUnknown",
        CheckKind::ObjectTwice => "ObjectTwice",
        CheckKind::NoObject => "NoObject",
        CheckKind::BadAddress => "BadAddress",
        CheckKind::BadRow => "BadRow",
        CheckKind::NothingToUndo => "NothingToUndo",
        CheckKind::BadFlag => "BadFlag",
    }
}

/// The line of a refused feed.
pub fn feed_refused(alloc: Global, kind: FeedKind, byte: u64) -> Result<String, Memory>
    ensures { IfOk result (λ line. string_bytes line ≡ feed_line kind byte) }
{
    let name = feed_kind(kind);
    Ok(format!(in alloc; "feed refused: {name} at byte {byte}\n")?)
}

fn push_redo_kind(line: &mut String, kind: RedoKind) -> Result<(), Memory>
    ensures { OnOk result (string_bytes line.new ≡ string_bytes line.old ++ redo_tail kind) }
{
    match kind {
        RedoKind::Frame(kind) => {
            let name = frame_kind(kind);
            write!(line, " {name}\n")?;
        }
        RedoKind::BadVector { index } => write!(line, " vector {index} BadVector\n")?,
        RedoKind::Unsound { index, check } => {
            let name = check_kind(check);
            write!(line, " vector {index} {name}\n")?;
        }
    }
    Ok(())
}

/// The line of refused redo.
pub fn redo_refused(alloc: Global, fault: RedoFault) -> Result<String, Memory>
    ensures { IfOk result (λ line. string_bytes line ≡ redo_line fault) }
{
    let thread = fault.thread;
    let number = fault.number;
    let mut line = format!(in alloc; "redo refused: thread {thread} record {number}")?;
    push_redo_kind(&mut line, fault.kind)?;
    Ok(line)
}

/// The line of words that are not accepted.
pub fn usage() -> &'static str
    ensures { result.now ≡ usage_line }
{
    "usage: imadg step|run|soak|audit [--workers N] [--seed N] [--txns N]\n"
}
