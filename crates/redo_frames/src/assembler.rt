ghost use Rattle.std.specs.Prelude.{◌≡◌, ℕ, ◌+◌, ◌<◌, ◌≤◌, ◌^◌, ◌↔◌, [], ◌∷◌, ◌++◌, length, List, IsTrue, IsSome, IsErrOf, MatchOption};
ghost use Rattle.adg_model.specs.Records.{Raw};
ghost use Rattle.redo_frames.specs.Assembly.{Holds, IsAnswer, empty, next_number, raw_of_record, given};

use crate::next_record::Mark;
use crate::reading::read_piece;
use crate::record::{FrameRefused, HeldRecord, RawRecord};
use adg_model::fault::FrameKind;
use std::alloc::Global;
use std::collections::VecDeque;
use std::marker::Model;

/// Puts the records of a thread together from its bytes, however they are cut into pieces.
#[derive(Debug, Drop)]
pub struct Assembler {
    alloc: Global,
    taken: u64,
    held: VecDeque<HeldRecord>,
    rest: Vec<u8>,
    mark: Mark,
    refused: Option<FrameKind>,
}

impl Model for Assembler {
    ghost use Rattle.std.specs.Prelude.{◌≡◌, ◌+◌, ◌<◌, ◌^◌, length, None};
    ghost use Rattle.adg_model.specs.Records.{IsPart};
    ghost use Rattle.redo_frames.specs.Assembly.{Assembly};

    ghost Value = { Assembly };

    ghost view = { λ a. record { taken = a.taken; held = a.held.items; rest = a.rest.items; mark = a.mark; refused = a.refused } };

    ghost invariant = { λ a. (a.taken + length a.held.items + 1 < 2 ^ 64) × (a.refused ≡ None → IsPart a.rest.items) };
}

impl Assembler {
    /// An assembler of a thread of which nothing was fed yet.
    pub fn new(alloc: Global) -> Assembler
        ensures empty { result ≡ empty }
        ensures holds { Holds result [] [] }
    {
        Assembler {
            alloc,
            taken: 0,
            held: VecDeque::new(alloc),
            rest: Vec::new(alloc),
            mark: Mark::at_start(),
            refused: None,
        }
    }

    /// Takes the next bytes of the thread, and holds the records that are whole now. After a refusal the
    /// records before it can still be taken, and each later call answers it again.
    pub fn feed(&mut self, piece: &[u8]) -> Result<(), FrameRefused>
        requires { next_number self.old + length piece.now < 2 ^ 64 }

        // The records that were taken and those held are the records of all bytes fed, up to the first refusal.
        ensures holds { (IsErrOf result FrameRefused.Memory → ⊥) → (text : List ℕ) (records : List Raw) →
            Holds self.old text records → Holds self.new (text ++ piece.now) records }
        ensures answer { IsAnswer result self.new }
        ensures number { next_number self.new ≤ next_number self.old + length piece.now }
        ensures again { IsSome self.old.refused → self.new ≡ self.old }
        ensures memory { IsErrOf result FrameRefused.Memory → self.new ≡ self.old }
    {
        if let Some(kind) = self.refused {
            return Err(self.refusal(kind));
        }
        // What was there before the piece: on want of memory the assembler is cut back to it.
        let held = self.held.len();
        let begun = self.rest.len();
        match read_piece(self.alloc, &mut self.held, &mut self.rest, self.mark, piece) {
            Ok(stop) => {
                self.mark = stop.mark;
                self.refused = stop.fault;
                match stop.fault {
                    None => Ok(()),
                    Some(kind) => Err(self.refusal(kind)),
                }
            }
            Err(_) => {
                self.held.truncate(held);
                self.rest.truncate(begun);
                Err(FrameRefused::Memory)
            }
        }
    }

    /// The next record that was not taken yet.
    pub fn take(&mut self) -> Option<RawRecord>
        ensures record { MatchOption result
            ((self.old.held ≡ []) × (self.new ≡ self.old))
            (λ r. (self.old.held ≡ raw_of_record r ∷ self.new.held) × (r.number ≡ self.old.taken + 1)) }
        ensures number { next_number self.new ≡ next_number self.old }
        ensures rest { self.new ≡ record self.old { taken = self.old.taken + length (given result); held = self.new.held } }
        ensures holds { (text : List ℕ) (records : List Raw) → Holds self.old text records → Holds self.new text (records ++ given result) }
    {
        let next = self.held.pop_front()?;
        self.taken += 1;
        Some(next.numbered(self.taken))
    }

    /// Whether the record that comes next is refused, as `feed` would answer it.
    pub fn check(&self) -> Result<(), FrameRefused>
        requires { next_number self.now < 2 ^ 64 }
        ensures { IsAnswer result self.now }
    {
        match self.refused {
            Some(kind) => Err(self.refusal(kind)),
            None => Ok(()),
        }
    }

    /// Whether no bytes of an unfinished record are kept.
    pub fn is_between_records(&self) -> bool
        ensures { IsTrue result ↔ (self.now.rest ≡ []) }
    {
        self.rest.is_empty()
    }

    /// The refusal of the next record, which has this fault.
    fn refusal(&self, kind: FrameKind) -> FrameRefused
        ensures { result ≡ FrameRefused.Refused (next_number self.now) kind }
    {
        let number = self.taken + self.held.len() as u64 + 1;
        FrameRefused::Refused { number, kind }
    }
}
