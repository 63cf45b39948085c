use crate::counts::Standing;
use crate::delivery::{EndOf, Incoming};
use crate::fault::FeedFault;
use crate::opening::read_opening;
use crate::phase::Phase;
use adg_io::outside::Source;
use adg_model::delivery::RawDelivery;
use std::alloc::Global;
use std::marker::Model;

/// Reads a feed from a source, which is handed in at each call.
#[derive(Debug, Drop)]
pub struct FeedReader {
    alloc: Global,
    phase: Phase,
    standing: Standing,
    taken: u64,
}

/// What comes next in a feed.
#[derive(Debug, Drop)]
pub enum Step {
    Delivery(RawDelivery),
    End,
}

impl Model for FeedReader {
    ghost use Rattle.feed_frames.specs.State.{FeedState, IsReader};
    ghost use Rattle.feed_frames.specs.Counts.{standing_of};

    ghost Value = { FeedState };

    ghost view = { λ r. record { phase = r.phase; standing = standing_of r.standing; taken = r.taken } };

    ghost invariant = { λ r. IsReader (record { phase = r.phase; standing = standing_of r.standing; taken = r.taken }) };
}

impl FeedReader {
    ghost use Rattle.std.specs.Prelude.{◌≡◌, ◌≢◌, ◌+◌, ℕ, IfErr, OnOk};
    ghost use Rattle.feed_frames.specs.State.{FeedState, fresh};
    ghost use Rattle.feed_frames.specs.Answers.{HeaderAnswer, StepAnswer, IsReading, AnswersDelivery, IsCausedBy};

    /// A reader that stands before the first byte of a feed.
    pub fn new(alloc: Global) -> FeedReader
        ensures { result ≡ fresh }
    {
        FeedReader {
            alloc,
            phase: Phase::Fresh,
            standing: Standing {
                threads: 0,
                sessions: 0,
                redo: 0,
                ends: 0,
            },
            taken: 0,
        }
    }

    /// How many threads the header names, and 0 before it was read.
    pub fn threads(&self) -> u8
        ensures { result ≡ self.now.standing.threads }
    {
        self.standing.threads
    }

    /// How many sessions the header names, and 0 before it was read.
    pub fn sessions(&self) -> u8
        ensures { result ≡ self.now.standing.sessions }
    {
        self.standing.sessions
    }

    /// How many bytes were taken so far.
    pub fn taken(&self) -> u64
        ensures { result ≡ self.now.taken }
    {
        self.taken
    }

    /// Reads the magic and the header, where they were not read yet.
    pub fn read_header<R: Source>(&mut self, source: &mut R) -> Result<(), FeedFault>
        ensures header { HeaderAnswer self.old.phase self.old self.new (R.left source.old) (R.left source.new) result }
        ensures cause { IsReading self.old.phase → IsCausedBy result (R.faults source.old) (R.faults source.new) }
        ensures untouched { self.old.phase ≢ Phase.Fresh → source.new ≡ source.old }
    {
        match self.phase {
            Phase::Failed(fault) => Err(fault),
            Phase::Open | Phase::Ended => Ok(()),
            Phase::Fresh => match read_opening(source, &mut self.taken) {
                Ok(standing) => {
                    self.standing = standing;
                    self.phase = Phase::Open;
                    Ok(())
                }
                Err(fault) => {
                    self.phase = Phase::Failed(fault);
                    Err(fault)
                }
            },
        }
    }

    /// Reads the next delivery, after the header where that was not read yet. After the end and
    /// after a fault it reads nothing and answers the same again.
    pub fn next_delivery<R: Source>(&mut self, source: &mut R) -> Result<Step, FeedFault>
        ensures step { StepAnswer self.old.phase self.old self.new (R.left source.old) (R.left source.new) result }
        ensures cause { IsReading self.old.phase → IsCausedBy result (R.faults source.old) (R.faults source.new) }
        ensures untouched { (IsReading self.old.phase → ⊥) → source.new ≡ source.old }
    {
        self.read_header(source)?;
        match self.phase {
            Phase::Ended => Ok(Step::End),
            _ => self.read_delivery(source),
        }
    }

    /// Reads the next delivery of a reader that stands before one.
    fn read_delivery<R: Source>(&mut self, source: &mut R) -> Result<Step, FeedFault>
        requires { self.old.phase ≡ Phase.Open }
        ensures step { AnswersDelivery self.old self.new (R.left source.old) (R.left source.new) result }
        ensures cause { IsCausedBy result (R.faults source.old) (R.faults source.new) }
    {
        let mut incoming = Incoming::new(self.alloc, self.standing);
        match incoming.read_frames(self.alloc, source, &mut self.taken) {
            Ok(EndOf::Delivery) => {
                self.standing = incoming.counts.ended();
                Ok(Step::Delivery(incoming.finish()))
            }
            Ok(EndOf::Feed) => {
                self.phase = Phase::Ended;
                Ok(Step::End)
            }
            Err(fault) => {
                self.phase = Phase::Failed(fault);
                Err(fault)
            }
        }
    }
}
