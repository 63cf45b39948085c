ghost use Rattle.std.specs.Prelude.{◌≡◌, ◌≤◌, ◌-◌, length, IfOk};
ghost use Rattle.adg_model.specs.Records.{is_end, stated_len, stated_scn};
ghost use Rattle.redo_frames.specs.NextRecord.{raw_at};

use adg_base::list::{Bytes, List};
use adg_base::memory::Memory;
use adg_base::number::Scn;
use adg_model::fault::FrameKind;
use adg_model::record::tag;
use std::alloc::Global;
use std::marker::Model;
use thiserror::Error;

/// A whole record of a thread, its vectors still as bytes. The records of a thread count from 1.
#[derive(Debug, Drop)]
pub struct RawRecord {
    pub number: u64,
    pub scn: Scn,
    pub count: u8,
    pub body: Bytes,
}

/// Why redo bytes were refused.
#[derive(Clone, Copy, Debug, PartialEq, Eq, Error)]
pub enum FrameRefused {
    /// The record of this number is no record of its thread.
    #[error("record {number} is refused")]
    Refused { number: u64, kind: FrameKind },
    /// Memory was wanting.
    #[error("want of memory")]
    Memory,
}

/// A whole record that waits to be taken.
#[derive(Debug, Drop)]
pub struct HeldRecord {
    scn: Scn,
    count: u8,
    body: Bytes,
}

impl Model for HeldRecord {
    ghost use Rattle.adg_model.specs.Records.{Raw};

    ghost Value = { Raw };

    ghost view = { λ f. record { scn = f.scn; count = f.count; body = f.body } };
}

impl HeldRecord {
    /// The record of this length and SCN that the bytes begin with.
    pub fn read(alloc: Global, len: usize, scn: Scn, bytes: &[u8]) -> Result<HeldRecord, Memory>
        requires long { 13 ≤ len }
        requires len_stated { len ≡ stated_len bytes.now }
        requires whole { len ≤ length bytes.now }
        requires scn_stated { scn ≡ stated_scn bytes.now }
        ensures { IfOk result (λ next. next ≡ raw_at bytes.now) }
    {
        let count = bytes[10];
        let body = List::from_slice(alloc, &bytes[11..len - 2])?;
        Ok(HeldRecord { scn, count, body })
    }

    /// The SCN.
    pub fn scn(&self) -> Scn
        ensures { result ≡ self.now.scn }
    {
        self.scn
    }

    /// Whether it ends its thread.
    pub fn is_end(&self) -> bool
        ensures { result ≡ is_end self.now }
    {
        self.count == 1 && matches!(self.body.as_slice(), [tag::END_THREAD, ..])
    }

    /// The record with its number in the thread.
    pub fn numbered(self, number: u64) -> RawRecord
        ensures number { result.number ≡ number }
        ensures scn { result.scn ≡ self.scn }
        ensures count { result.count ≡ self.count }
        ensures body { result.body ≡ self.body }
    {
        RawRecord {
            number,
            scn: self.scn,
            count: self.count,
            body: self.body,
        }
    }
}
