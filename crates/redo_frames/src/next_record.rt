ghost use Rattle.std.specs.Prelude.{◌≡◌, ◌≤◌, ◌<◌, ◌-◌, false, length, take, drop};
ghost use Rattle.std.specs.Int.{w16, from_be_bytes};
ghost use Rattle.adg_model.specs.Records.{mark_of, stated_len, stated_scn, first_mark};
ghost use Rattle.redo_frames.specs.NextRecord.{IsNextRecord};

use crate::number::{first_u16, first_u64};
use crate::record::HeldRecord;
use adg_base::number::Scn;
use adg_model::fault::FrameKind;
use adg_model::record::RECORD_OVERHEAD;
use std::marker::Model;

/// Where a thread stands: the SCN of its last record, 0 before the first, and whether it has ended.
#[derive(Clone, Copy, Debug)]
pub struct Mark {
    scn: u64,
    ended: bool,
}

impl Model for Mark {
    ghost use Rattle.adg_model.specs.Records.{Mark as Shown};

    ghost Value = { Shown };

    ghost view = { λ s. record { scn = s.scn; ended = s.ended } };

    ghost inverse = { λ m. record { scn = m.scn; ended = m.ended } };
}

impl Mark {
    /// Before the first record.
    pub fn at_start() -> Mark
        ensures { result ≡ first_mark }
    {
        Mark {
            scn: 0,
            ended: false,
        }
    }

    /// After this record.
    pub fn after(last: &HeldRecord) -> Mark
        ensures { result ≡ mark_of last.now }
    {
        Mark {
            scn: last.scn().get(),
            ended: last.is_end(),
        }
    }
}

/// What the first bytes of a text are.
#[derive(Debug, Drop)]
pub enum NextRecord {
    /// Less than a whole record, with nothing wrong so far.
    Part,
    /// A whole record with nothing wrong, of this length.
    Whole { len: usize, scn: Scn },
    /// A record with this fault.
    Fault(FrameKind),
}

/// What the first bytes are, where the thread stands so. Each check needs what the one before it
/// shows: a whole record is looked at only once its length is good.
#[tactic(auto, using(adg_model::proofs::RecordsFault::fault_after_end, adg_model::proofs::RecordsFault::fault_nothing, adg_model::proofs::RecordsFault::fault_begun, adg_model::proofs::RecordsFault::fault_length, adg_model::proofs::RecordsFault::fault_part))]
pub fn look_at(mark: Mark, bytes: &[u8]) -> NextRecord
    ensures { IsNextRecord result mark bytes.now }
{
    if mark.ended {
        return if bytes.is_empty() {
            NextRecord::Part
        } else {
            NextRecord::Fault(FrameKind::AfterEnd)
        };
    }
    if bytes.len() < 2 {
        return NextRecord::Part;
    }
    let len = usize::from(first_u16(bytes));
    if len < RECORD_OVERHEAD {
        return NextRecord::Fault(FrameKind::BadLength);
    }
    if bytes.len() < len {
        return NextRecord::Part;
    }
    whole(mark, bytes, len)
}

/// The number in the place of a record's SCN.
fn scn_number(bytes: &[u8]) -> u64
    requires { 10 ≤ length bytes.now }
    ensures { result ≡ stated_scn bytes.now }
{
    first_u64(&bytes[2..])
}

/// The number that ends a record of this length.
fn trailer(bytes: &[u8], len: usize) -> u16
    requires long { 2 ≤ len }
    requires whole { len ≤ length bytes.now }
    ensures { result ≡ from_be_bytes w16 (take 2 (drop (len - 2) bytes.now)) }
{
    first_u16(&bytes[len - 2..])
}

/// What a whole record of this length is.
#[tactic(auto, using(adg_model::proofs::RecordsFault::fault_whole, adg_model::proofs::RecordsFault::whole_trailer, adg_model::proofs::RecordsFault::whole_range, adg_model::proofs::RecordsFault::whole_order))]
fn whole(mark: Mark, bytes: &[u8], len: usize) -> NextRecord
    requires open_thread { mark.ended ≡ false }
    requires stated { len ≡ stated_len bytes.now }
    requires long { 13 ≤ len }
    requires whole { len ≤ length bytes.now }
    ensures { IsNextRecord result mark bytes.now }
{
    if usize::from(trailer(bytes, len)) != len {
        return NextRecord::Fault(FrameKind::BadTrailer);
    }
    let number = scn_number(bytes);
    let Some(scn) = Scn::new(number) else {
        return NextRecord::Fault(FrameKind::ScnRange);
    };
    if number == 0 {
        return NextRecord::Fault(FrameKind::ScnRange);
    }
    if number <= mark.scn {
        return NextRecord::Fault(FrameKind::ScnOrder);
    }
    NextRecord::Whole { len, scn }
}
