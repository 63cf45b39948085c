ghost use Rattle.std.specs.Prelude.{◌≡◌, ℕ, ◌+◌, ◌<◌, ◌≤◌, ◌^◌, ◌++◌, ◌∷◌, [], List, length, map, OnOk, OnErr, IfOk, IsSome, None, MatchOption};
ghost use Rattle.std.specs.VecDeque.{deque_len, deque_capacity};
ghost use Rattle.adg_base.specs.declared.vector.RedoRecord.{RedoRecord};
ghost use Rattle.adg_model.specs.declared.fault.RedoFault.{RedoFault};
ghost use Rattle.adg_model.specs.Records.{Raw};
ghost use Rattle.adg_model.specs.Log.{record_entries};
ghost use Rattle.redo_frames.specs.Assembly.{Holds, next_number, raw_of_record};
ghost use Rattle.log_merger.specs.Thread.{HasRead, Takes, ReadsNext, ReadsOn, IsRead, IsFaultOf};
ghost use Rattle.log_merger.specs.Merge.{KeepsRest, count_upto, first_scn};

use crate::mark::Mark;
use crate::refused::MergeRefused;
use adg_base::log::LogEntry;
use adg_base::memory::Memory;
use adg_base::number::{Pos, Scn};
use adg_base::vector::VectorList;
use adg_model::fault::{RedoFault, RedoKind};
use adg_model::record::RECORD_OVERHEAD;
use change_vectors::read::read_vectors;
use change_vectors::refused::VectorsRefused;
use redo_frames::{Assembler, FrameRefused, RawRecord};
use std::alloc::Global;
use std::collections::VecDeque;
use std::marker::Model;

/// The redo of one thread that was received and not given yet.
#[derive(Debug, Drop)]
pub struct RedoThread {
    alloc: Global,
    number: u8,
    assembler: Assembler,
    mark: Mark,
    unread: VecDeque<RawRecord>,
    waiting: VecDeque<LogEntry>,
}

impl Model for RedoThread {
    ghost use Rattle.std.specs.Prelude.{◌<◌, ◌^◌};
    ghost use Rattle.redo_frames.specs.Assembly.{next_number};
    ghost use Rattle.log_merger.specs.Thread.{Receiving};

    ghost Value = { Receiving };

    ghost view = { λ t. record { number = t.number; assembly = t.assembler; mark = t.mark; unread = t.unread.items; waiting = t.waiting.items } };

    ghost invariant = { λ t. next_number t.assembler < 2 ^ 64 };
}

/// Feeds a piece. Where the next record is refused the bytes change nothing.
fn feed(assembler: &mut Assembler, piece: &[u8]) -> Result<(), Memory>
    requires { next_number assembler.old + length piece.now < 2 ^ 64 }
    ensures holds { OnOk result ((text : List ℕ) (records : List Raw) → Holds assembler.old text records → Holds assembler.new (text ++ piece.now) records) }
    ensures again { IsSome assembler.old.refused → assembler.new ≡ assembler.old }
    ensures memory { OnErr result (assembler.new ≡ assembler.old) }
    ensures number { next_number assembler.new ≤ next_number assembler.old + length piece.now }
{
    match assembler.feed(piece) {
        Err(FrameRefused::Memory) => Err(Memory),
        Ok(()) | Err(FrameRefused::Refused { .. }) => Ok(()),
    }
}

/// Takes the records that an assembler holds.
fn take_all(
    assembler: &mut Assembler,
    mark: &mut Mark,
    unread: &mut VecDeque<RawRecord>,
) -> Result<(), Memory>
    ensures takes { OnOk result (Takes assembler.old assembler.new mark.old mark.new unread.old.items unread.new.items) }
    ensures full { OnErr result (deque_capacity unread.old < deque_len unread.old + length assembler.old.held) }
    ensures number { next_number assembler.new ≡ next_number assembler.old }
{
    while let Some(record) = assembler.take() {
        *mark = Mark::after(&record);
        unread.push_back(record)?;
    }
    Ok(())
}

/// Adds the vectors of a record to the entries that wait, or none of them.
fn push_entries(
    waiting: &mut VecDeque<LogEntry>,
    thread: u8,
    number: u64,
    scn: Scn,
    vectors: VectorList,
) -> Result<(), Memory>
    requires { length vectors < 2 ^ 8 }
    ensures ok { OnOk result (waiting.new.items ≡ waiting.old.items ++ record_entries thread number scn 1 vectors) }
    ensures memory { OnErr result (waiting.new.items ≡ waiting.old.items) }
{
    waiting.try_reserve(vectors.len())?;
    let mut index = 0;
    for vector in vectors.into_vec() {
        index += 1;
        waiting.push_back_reserved(LogEntry {
            pos: Pos::new(0),
            scn,
            thread,
            number,
            index,
            vector,
        });
    }
    Ok(())
}

impl RedoThread {
    /// A thread of which nothing was received.
    pub fn new(alloc: Global, number: u8) -> RedoThread
        ensures number { result.number ≡ number }
        ensures read { HasRead result [] [] }
        ensures waiting { result.waiting ≡ [] }
        ensures next { next_number result.assembly ≡ 1 }
    {
        RedoThread {
            alloc,
            number,
            assembler: Assembler::new(alloc),
            mark: Mark::at_start(),
            unread: VecDeque::new(alloc),
            waiting: VecDeque::new(alloc),
        }
    }

    /// Receives the next bytes. There is room for the records that they can complete before the first
    /// of them is looked at, so all of them are received or none.
    pub fn accept(&mut self, piece: &[u8]) -> Result<(), Memory>
        requires { next_number self.old.assembly + length piece.now < 2 ^ 64 }
        ensures ok { OnOk result ((text : List ℕ) (records : List RedoRecord) → HasRead self.old text records → HasRead self.new (text ++ piece.now) records) }
        ensures memory { OnErr result ((text : List ℕ) (records : List RedoRecord) → HasRead self.old text records → HasRead self.new text records) }
        ensures number { self.new.number ≡ self.old.number }
        ensures waiting { self.new.waiting ≡ self.old.waiting }
        ensures next { next_number self.new.assembly ≤ next_number self.old.assembly + length piece.now }
    {
        self.unread.try_reserve(piece.len() / RECORD_OVERHEAD + 1)?;
        feed(&mut self.assembler, piece)?;
        take_all(&mut self.assembler, &mut self.mark, &mut self.unread)
    }

    /// Reads the vectors of the first unread record. Gives whether there was one.
    fn read_next(&mut self) -> Result<bool, MergeRefused>
        ensures { ReadsNext self.old self.new result }
    {
        let Some(record) = self.unread.front() else {
            return Ok(false);
        };
        match read_vectors(self.alloc, record.body.as_slice(), record.count) {
            Ok(vectors) => {
                let (number, scn) = (record.number, record.scn);
                push_entries(&mut self.waiting, self.number, number, scn, vectors)?;
                let _ = self.unread.pop_front();
                Ok(true)
            }
            Err(VectorsRefused::BadVector { index }) => Err(MergeRefused::Redo(RedoFault {
                thread: self.number,
                number: record.number,
                kind: RedoKind::BadVector { index },
            })),
            Err(VectorsRefused::Memory) => Err(MergeRefused::Memory),
        }
    }

    /// The refusal of the record that comes next, where its frame is bad.
    fn check_next(&self) -> Result<(), MergeRefused>
        ensures good { OnOk result (self.now.assembly.refused ≡ None) }
        ensures bad { (fault : RedoFault) → result ≡ Err (MergeRefused.Redo fault) → self.now.unread ≡ [] → IsFaultOf self.now fault }
    {
        match self.assembler.check() {
            Ok(()) => Ok(()),
            Err(FrameRefused::Refused { number, kind }) => Err(MergeRefused::Redo(RedoFault {
                thread: self.number,
                number,
                kind: RedoKind::Frame(kind),
            })),
            Err(FrameRefused::Memory) => Err(MergeRefused::Memory),
        }
    }

    /// Reads the vectors of all records. A bad vector of a record comes before the bad frame of a later
    /// one.
    pub fn read(&mut self) -> Result<(), MergeRefused>
        ensures reads { ReadsOn self.old self.new }
        ensures all { OnOk result (IsRead self.new) }
        ensures bad { (fault : RedoFault) → result ≡ Err (MergeRefused.Redo fault) → IsFaultOf self.old fault }
    {
        while self.read_next()? {}
        self.check_next()
    }

    /// Where it stands after the whole records.
    pub fn mark(&self) -> Mark
        ensures { result ≡ self.now.mark }
    {
        self.mark
    }

    /// How many entries wait up to an SCN.
    pub fn count_upto(&self, through: Scn) -> usize
        ensures { result ≡ count_upto through self.now.waiting }
    {
        let mut count = 0;
        while let Some(entry) = self.waiting.get(count) {
            if through < entry.scn {
                return count;
            }
            count += 1;
        }
        count
    }

    /// The SCN of the first entry that waits, or this number where there is none.
    pub fn first_scn(&self, none: u64) -> u64
        ensures { result ≡ first_scn none self.now.waiting }
    {
        match self.waiting.front() {
            Some(entry) => entry.scn.get(),
            None => none,
        }
    }

    /// The first entry that waits.
    pub fn give(&mut self) -> Option<LogEntry>
        ensures entry { MatchOption result ((self.old.waiting ≡ []) × (self.new.waiting ≡ [])) (λ entry. self.old.waiting ≡ entry ∷ self.new.waiting) }
        ensures rest { KeepsRest self.old self.new }
    {
        self.waiting.pop_front()
    }
}
