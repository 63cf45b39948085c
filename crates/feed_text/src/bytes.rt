//! The bytes that a line adds to the feed.

ghost use Rattle.std.specs.Prelude.{◌≡◌, ◌++◌, ◌∷◌, [], Err, OnOk, IfOk};
ghost use Rattle.std.specs.List.{flat_map, AllByRecursion};
ghost use Rattle.adg_model.specs.Feed.{frame};
ghost use Rattle.adg_model.specs.Records.{record_bytes, IsRecord};
ghost use Rattle.feed_text.specs.Lines.{line_bytes, IsGood, Fits};

use crate::line::Line;
use adg_base::vector::RedoRecord;
use change_vectors::refused::WriteRefused;
use change_vectors::unread::Unread;
use change_vectors::write::write_record;
use std::alloc::{AllocError, Global};

/// Adds a frame whose payload is two pieces.
#[tactic(auto, unfolding(adg_model::specs::Feed::frame))]
fn put_frame(out: &mut Vec<u8>, tag: u8, front: &[u8], payload: &[u8]) -> Result<(), Unread>
    ensures written { OnOk result (out.new.items ≡ out.old.items ++ frame tag (front.now ++ payload.now)) }
    ensures good { OnOk result (Fits (front.now ++ payload.now)) }
    ensures bad { result ≡ Err Unread.Bad → Fits (front.now ++ payload.now) → ⊥ }
{
    let Ok(len) = u32::try_from(front.len() + payload.len()) else {
        return Err(Unread::Bad);
    };
    out.push(tag)?;
    out.extend_from_slice(&len.to_be_bytes())?;
    out.extend_from_slice(front)?;
    out.extend_from_slice(payload)?;
    Ok(())
}

/// Adds the bytes of a record.
fn put_record(alloc: Global, out: &mut Vec<u8>, redo: &RedoRecord) -> Result<(), Unread>
    ensures written { OnOk result (out.new.items ≡ out.old.items ++ record_bytes redo.now) }
    ensures good { OnOk result (IsRecord redo.now) }
    ensures bad { result ≡ Err Unread.Bad → IsRecord redo.now → ⊥ }
{
    match write_record(alloc, redo) {
        Ok(written) => {
            out.extend_from_slice(written.as_slice())?;
            Ok(())
        }
        Err(WriteRefused::Memory) => Err(Unread::Memory),
        Err(WriteRefused::TooLong | WriteRefused::BadForm) => Err(Unread::Bad),
    }
}

/// The bytes of records.
fn records_bytes(alloc: Global, records: &[RedoRecord]) -> Result<Vec<u8>, Unread>
    ensures written { IfOk result (λ bytes. bytes.items ≡ flat_map record_bytes records.now) }
    ensures good { OnOk result (AllByRecursion IsRecord records.now) }
    ensures bad { result ≡ Err Unread.Bad → AllByRecursion IsRecord records.now → ⊥ }
{
    let mut bytes = Vec::new(alloc);
    for redo in records {
        put_record(alloc, &mut bytes, redo)?;
    }
    Ok(bytes)
}

/// Adds the magic and the header.
#[tactic(auto, unfolding(adg_model::specs::Feed::frame))]
fn put_opening(out: &mut Vec<u8>, threads: u8, sessions: u8) -> Result<(), AllocError>
    ensures { OnOk result (out.new.items ≡ out.old.items ++ line_bytes (Line.Opening threads sessions)) }
{
    out.extend_from_slice(b"IMADG01\nH\0\0\0\x02")?;
    out.push(threads)?;
    out.push(sessions)?;
    Ok(())
}

/// Adds the bytes of a line.
pub fn put_line(alloc: Global, out: &mut Vec<u8>, line: &Line) -> Result<(), Unread>
    ensures written { OnOk result (out.new.items ≡ out.old.items ++ line_bytes line.now) }
    ensures good { OnOk result (IsGood line.now) }
    ensures bad { result ≡ Err Unread.Bad → IsGood line.now → ⊥ }
{
    match line {
        Line::Nothing => Ok(()),
        Line::Opening { threads, sessions } => Ok(put_opening(out, *threads, *sessions)?),
        Line::Records { thread, records } => {
            let bytes = records_bytes(alloc, records.as_slice())?;
            put_frame(out, b'R', &[*thread], bytes.as_slice())
        }
        Line::Redo { thread, bytes } => put_frame(out, b'R', &[*thread], bytes.as_slice()),
        Line::Command { session, text } => put_frame(out, b'Q', &[*session], text.as_slice()),
        Line::Schedule { bytes } => put_frame(out, b'S', &[], bytes.as_slice()),
        Line::End => put_frame(out, b'E', &[], &[]),
        Line::Stop => put_frame(out, b'X', &[], &[]),
        Line::Raw { bytes } => Ok(out.extend_from_slice(bytes.as_slice())?),
    }
}
