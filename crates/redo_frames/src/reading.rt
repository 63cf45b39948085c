ghost use Rattle.std.specs.Prelude.{◌≡◌, ◌+◌, ◌-◌, ◌≤◌, ◌++◌, length, take, drop, min, max, IfOk, OnErr};
ghost use Rattle.adg_model.specs.Records.{IsPart, stated_len};
ghost use Rattle.redo_frames.specs.NextRecord.{Stops};
ghost use Rattle.redo_frames.specs.Reading.{Reads, Gains, IsPrefix};

use crate::next_record::{Mark, NextRecord, look_at};
use crate::number::first_u16;
use crate::record::HeldRecord;
use adg_base::memory::Memory;
use adg_model::fault::FrameKind;
use std::alloc::Global;
use std::collections::VecDeque;

/// Where a thread stands after the bytes read so far, and the fault of the record that comes next.
#[derive(Debug, Drop)]
pub struct Stop {
    pub mark: Mark,
    pub fault: Option<FrameKind>,
}

/// How many bytes are whole records, and where the thread stands behind them.
#[derive(Debug, Drop)]
struct WholeRecords {
    used: usize,
    stop: Stop,
}

/// Adds the whole records that the bytes begin with to those held.
fn read_records(
    alloc: Global,
    held: &mut VecDeque<HeldRecord>,
    mark: Mark,
    bytes: &[u8],
) -> Result<WholeRecords, Memory>
    ensures used { IfOk result (λ p. p.used ≤ length bytes.now) }
    ensures reads { IfOk result (λ p. Reads held.old.items held.new.items mark p.stop.mark (take p.used bytes.now)) }
    ensures stops { IfOk result (λ p. Stops p.stop.fault p.stop.mark (drop p.used bytes.now)) }
    ensures memory { OnErr result (IsPrefix held.old.items held.new.items) }
{
    let mut mark = mark;
    let mut used = 0;
    loop {
        let rest = &bytes[used..];
        let (len, scn) = match look_at(mark, rest) {
            NextRecord::Part => {
                let stop = Stop { mark, fault: None };
                return Ok(WholeRecords { used, stop });
            }
            NextRecord::Fault(kind) => {
                let fault = Some(kind);
                let stop = Stop { mark, fault };
                return Ok(WholeRecords { used, stop });
            }
            NextRecord::Whole { len, scn } => (len, scn),
        };
        let next = HeldRecord::read(alloc, len, scn, rest)?;
        mark = Mark::after(&next);
        held.push_back(next)?;
        used += len;
    }
}

/// Adds bytes of a piece to those of a record until there are so many. Gives how many it added.
fn add_up_to(rest: &mut Vec<u8>, len: usize, piece: &[u8]) -> Result<usize, Memory>
    ensures used { IfOk result (λ used. used ≡ min (len - length rest.old.items) (length piece.now)) }
    ensures added { IfOk result (λ used. rest.new.items ≡ rest.old.items ++ take used piece.now) }
    ensures memory { OnErr result (rest.new.items ≡ rest.old.items) }
{
    let used = len.saturating_sub(rest.len()).min(piece.len());
    rest.extend_from_slice(&piece[..used])?;
    Ok(used)
}

/// Adds bytes of a piece to those of a record, up to its end. Gives how many it added.
fn complete(rest: &mut Vec<u8>, piece: &[u8]) -> Result<usize, Memory>
    ensures used { IfOk result (λ used. used ≤ length piece.now) }
    ensures added { IfOk result (λ used. rest.new.items ≡ rest.old.items ++ take used piece.now) }
    ensures part { IfOk result (λ used. IsPart rest.new.items → used ≡ length piece.now) }
    ensures bound { IfOk result (λ used. IsPart rest.old.items → length rest.new.items ≤ max 2 (stated_len rest.new.items)) }
    ensures memory { OnErr result (IsPrefix rest.old.items rest.new.items) }
{
    let used = add_up_to(rest, 2, piece)?;
    if rest.len() < 2 {
        return Ok(used);
    }
    let len = usize::from(first_u16(rest.as_slice()));
    Ok(used + add_up_to(rest, len, &piece[used..])?)
}

/// Reads bytes that begin with a record, and keeps those of an unfinished one.
fn read_rest(
    alloc: Global,
    held: &mut VecDeque<HeldRecord>,
    rest: &mut Vec<u8>,
    mark: Mark,
    bytes: &[u8],
) -> Result<Stop, Memory>
    ensures gains { IfOk result (λ stop. Gains held.old.items held.new.items mark stop.mark stop.fault bytes.now rest.new.items) }
    ensures count { IfOk result (λ stop. length held.new.items ≤ length held.old.items + length bytes.now) }
    ensures held { OnErr result (IsPrefix held.old.items held.new.items) }
    ensures rest { OnErr result (rest.new.items ≡ rest.old.items) }
{
    let whole = read_records(alloc, held, mark, bytes)?;
    // Copied before it is stored: on want of memory the unfinished record is as it was.
    let unread = Vec::from_slice(alloc, &bytes[whole.used..])?;
    *rest = unread;
    Ok(whole.stop)
}

/// Reads a piece that goes on where the unfinished record ends.
pub fn read_piece(
    alloc: Global,
    held: &mut VecDeque<HeldRecord>,
    rest: &mut Vec<u8>,
    mark: Mark,
    piece: &[u8],
) -> Result<Stop, Memory>
    requires { IsPart rest.old.items }
    ensures gains { IfOk result (λ stop. Gains held.old.items held.new.items mark stop.mark stop.fault (rest.old.items ++ piece.now) rest.new.items) }
    ensures count { IfOk result (λ stop. length held.new.items ≤ length held.old.items + length piece.now) }
    ensures held { OnErr result (IsPrefix held.old.items held.new.items) }
    ensures rest { OnErr result (IsPrefix rest.old.items rest.new.items) }
{
    if rest.is_empty() {
        return read_rest(alloc, held, rest, mark, piece);
    }
    let used = complete(rest, piece)?;
    let (len, scn) = match look_at(mark, rest.as_slice()) {
        NextRecord::Part => {
            return Ok(Stop { mark, fault: None });
        }
        NextRecord::Fault(kind) => {
            return Ok(Stop {
                mark,
                fault: Some(kind),
            });
        }
        NextRecord::Whole { len, scn } => (len, scn),
    };
    let next = HeldRecord::read(alloc, len, scn, rest.as_slice())?;
    let mark = Mark::after(&next);
    held.push_back(next)?;
    read_rest(alloc, held, rest, mark, &piece[used..])
}
