ghost use Rattle.std.specs.Prelude.{◌≡◌};
ghost use Rattle.adg_model.specs.Records.{mark_of, first_mark};
ghost use Rattle.redo_frames.specs.Assembly.{raw_of_record};

use adg_base::number::Scn;
use adg_model::record::tag;
use redo_frames::RawRecord;
use std::marker::Model;

/// Where a thread stands: the SCN of its last whole record, 0 before the first, and whether it has
/// ended.
#[derive(Clone, Copy, Debug)]
pub struct Mark {
    scn: Scn,
    ended: bool,
}

impl Model for Mark {
    ghost use Rattle.adg_model.specs.Records.{Mark as Shown};

    ghost Value = { Shown };

    ghost view = { λ m. record { scn = m.scn; ended = m.ended } };

    ghost inverse = { λ m. record { scn = m.scn; ended = m.ended } };
}

impl Mark {
    /// Before the first record.
    pub fn at_start() -> Mark
        ensures { result ≡ first_mark }
    {
        Mark {
            scn: Scn::ZERO,
            ended: false,
        }
    }

    /// After this record. It ends its thread where its one vector says so.
    pub fn after(last: &RawRecord) -> Mark
        ensures { result ≡ mark_of (raw_of_record last.now) }
    {
        Mark {
            scn: last.scn,
            ended: last.count == 1 && matches!(last.body.as_slice(), [tag::END_THREAD, ..]),
        }
    }

    /// The SCN of the last record.
    pub fn scn(self) -> Scn
        ensures { result ≡ self.scn }
    {
        self.scn
    }

    /// Whether the thread has ended.
    pub fn has_ended(self) -> bool
        ensures { result ≡ self.ended }
    {
        self.ended
    }
}
