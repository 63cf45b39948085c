//! What a frame of a feed says, as far as it is more than bytes.

ghost use Rattle.std.specs.Prelude.{◌≡◌, IfOk};

use crate::line::{Line, RecordList};
use adg_base::list::{Bytes, List};
use adg_base::memory::Memory;
use adg_base::vector::RedoRecord;
use change_vectors::read::read_vectors;
use change_vectors::refused::VectorsRefused;
use redo_frames::{Assembler, FrameRefused, RawRecord};
use std::alloc::Global;

/// The magic, the header's tag and its length.
const HEADER_FRONT: &[u8; 13] = b"IMADG01\nH\0\0\0\x02";

/// A record with its vectors; `None` where one of them cannot be read.
fn with_vectors(alloc: Global, raw: &RawRecord) -> Result<Option<RedoRecord>, Memory> {
    match read_vectors(alloc, raw.body.as_slice(), raw.count) {
        Ok(vectors) => Ok(Some(RedoRecord {
            scn: raw.scn,
            vectors,
        })),
        Err(VectorsRefused::BadVector { .. }) => Ok(None),
        Err(VectorsRefused::Memory) => Err(Memory),
    }
}

/// An assembler that holds the records that redo bytes are; `None` where they are no whole ones.
fn assembled(alloc: Global, redo: &[u8]) -> Result<Option<Assembler>, Memory> {
    let mut assembler = Assembler::new(alloc);
    match assembler.feed(redo) {
        Ok(()) => {
            if assembler.is_between_records() {
                Ok(Some(assembler))
            } else {
                Ok(None)
            }
        }
        Err(FrameRefused::Memory) => Err(Memory),
        Err(FrameRefused::Refused { .. }) => Ok(None),
    }
}

/// The records that redo bytes are; `None` where they are no whole ones that can be read.
fn records_in(alloc: Global, redo: &[u8]) -> Result<Option<RecordList>, Memory> {
    let Some(mut assembler) = assembled(alloc, redo)? else {
        return Ok(None);
    };
    let mut records = List::new(alloc);
    for _ in 0..redo.len() {
        let Some(raw) = assembler.take() else {
            break;
        };
        match with_vectors(alloc, &raw)? {
            Some(record) => records.push(record)?,
            None => return Ok(None),
        }
    }
    Ok(Some(records))
}

/// What a frame of redo says: records, or bytes.
fn redo_in(alloc: Global, thread: u8, redo: &[u8]) -> Result<Line, Memory> {
    if let Some(records) = records_in(alloc, redo)? {
        if !records.is_empty() {
            return Ok(Line::Records { thread, records });
        }
    }
    let bytes = Bytes::from_slice(alloc, redo)?;
    Ok(Line::Redo { thread, bytes })
}

/// What a frame of a command says: the command, where all its bytes can be printed.
fn command_in(alloc: Global, session: u8, command: &[u8], frame: &[u8]) -> Result<Line, Memory> {
    if command.iter().all(|byte| *byte >= b' ' && *byte <= b'~') {
        let text = Bytes::from_slice(alloc, command)?;
        return Ok(Line::Command { session, text });
    }
    let bytes = Bytes::from_slice(alloc, frame)?;
    Ok(Line::Raw { bytes })
}

/// What a frame says, or the magic and the header; bytes, where it says nothing else.
pub fn line_in(alloc: Global, frame: &[u8]) -> Result<Line, Memory> {
    match frame {
        [b'R', _, _, _, _, thread, redo @ ..] => redo_in(alloc, *thread, redo),
        [b'Q', _, _, _, _, session, command @ ..] => command_in(alloc, *session, command, frame),
        [b'S', _, _, _, _, schedule @ ..] => Ok(Line::Schedule {
            bytes: Bytes::from_slice(alloc, schedule)?,
        }),
        [b'E', ..] => Ok(Line::End),
        [b'X', ..] => Ok(Line::Stop),
        [front @ .., threads, sessions] if front == HEADER_FRONT.as_slice() => Ok(Line::Opening {
            threads: *threads,
            sessions: *sessions,
        }),
        _ => Ok(Line::Raw {
            bytes: Bytes::from_slice(alloc, frame)?,
        }),
    }
}
