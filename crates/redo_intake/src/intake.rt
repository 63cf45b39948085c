ghost use Rattle.std.specs.Prelude.{◌≡◌, ℕ, ◌+◌, ◌<◌, ◌≤◌, ◌^◌, ◌++◌, ◌∷◌, [], List, length, IfOk, OnOk};
ghost use Rattle.std.specs.List.{AllByRecursion};
ghost use Rattle.adg_base.specs.declared.log.LogEntry.{LogEntry as Entry};
ghost use Rattle.adg_model.specs.declared.fault.RedoFault.{RedoFault as Fault};
ghost use Rattle.adg_model.specs.declared.delivery.RawDelivery.{RawDelivery as Delivery};
ghost use Rattle.adg_model.specs.Feed.{IsIn};
ghost use Rattle.adg_model.specs.Log.{frontier};
ghost use Rattle.log_merger.specs.Merger.{StandsFor as Merges, highest_number, texts_of, texts_with};
ghost use Rattle.dictionary.specs.Standing.{StandsFor};
ghost use Rattle.redo_intake.specs.Intake.{FollowOn, HasTaken, IsUnsoundAt, TakesOne, bytes_of};

use crate::refused::IntakeRefused;
use adg_base::log::LogEntry;
use adg_base::memory::Memory;
use adg_base::number::Scn;
use adg_model::delivery::{CheckedDelivery, RawDelivery, RedoPiece};
use adg_model::fault::{RedoFault, RedoKind};
use dictionary::{Dictionary, RedoRefused};
use log_merger::Merger;
use std::alloc::Global;
use std::marker::Model;

/// Takes the redo of one delivery after another: merges it into one log, and checks each entry of the
/// log against those before it.
#[derive(Debug, Drop)]
pub struct RedoIntake {
    merger: Merger,
    dictionary: Dictionary,
}

impl Model for RedoIntake {
    ghost use Rattle.redo_intake.specs.Intake.{Taking};

    ghost Value = { Taking };

    ghost view = { λ i. record { merger = i.merger; dictionary = i.dictionary } };
}

/// Accepts the redo of a delivery, piece by piece.
fn accept_all(merger: &mut Merger, pieces: &[RedoPiece]) -> Result<(), Memory>
    requires threads { AllByRecursion (λ piece. IsIn (length merger.old.threads) piece.thread) pieces.now }
    requires room { highest_number merger.old + length (bytes_of pieces.now) < 2 ^ 64 }
    ensures stands { OnOk result ((deliveries : List Delivery) (given : List Entry) → Merges merger.old (texts_of deliveries) given →
        Merges merger.new (texts_with deliveries pieces.now) given) }
    ensures threads { length merger.new.threads ≡ length merger.old.threads }
    ensures refused { merger.new.refused ≡ merger.old.refused }
    ensures number { highest_number merger.new ≤ highest_number merger.old + length (bytes_of pieces.now) }
{
    for piece in pieces {
        merger.accept(piece.thread, piece.bytes.as_slice())?;
    }
    Ok(())
}

/// Checks an entry. Where it fails a check the fault names its record.
fn check(dictionary: &mut Dictionary, entry: &LogEntry) -> Result<(), IntakeRefused>
    ensures ok { OnOk result ((log : List Entry) → StandsFor dictionary.old log → FollowOn log (entry.now ∷ []) → StandsFor dictionary.new (log ++ entry.now ∷ [])) }
    ensures bad { (fault : Fault) → result ≡ Err (IntakeRefused.Redo fault) → (log : List Entry) → StandsFor dictionary.old log → IsUnsoundAt log (entry.now ∷ []) fault }
{
    match dictionary.check(entry) {
        Ok(()) => Ok(()),
        Err(RedoRefused::Check(check)) => Err(IntakeRefused::Redo(RedoFault {
            thread: entry.thread,
            number: entry.number,
            kind: RedoKind::Unsound {
                index: entry.index,
                check,
            },
        })),
        Err(RedoRefused::Memory) => Err(IntakeRefused::Memory),
    }
}

/// Checks entries, each against the log before it.
fn check_all(dictionary: &mut Dictionary, entries: &[LogEntry]) -> Result<(), IntakeRefused>
    ensures ok { OnOk result ((log : List Entry) → StandsFor dictionary.old log → FollowOn log entries.now → StandsFor dictionary.new (log ++ entries.now)) }
    ensures bad { (fault : Fault) → result ≡ Err (IntakeRefused.Redo fault) → (log : List Entry) → StandsFor dictionary.old log → FollowOn log entries.now →
        IsUnsoundAt log entries.now fault }
{
    for entry in entries {
        check(dictionary, entry)?;
    }
    Ok(())
}

impl RedoIntake {
    /// An intake of so many threads that has taken nothing.
    pub fn new(alloc: Global, threads: u8) -> Result<RedoIntake, Memory>
        ensures taken { IfOk result (λ intake. HasTaken intake threads []) }
        ensures threads { IfOk result (λ intake. length intake.merger.threads ≡ threads) }
        ensures number { IfOk result (λ intake. highest_number intake.merger ≤ 1) }
    {
        Ok(RedoIntake {
            merger: Merger::new(alloc, threads)?,
            dictionary: Dictionary::new(alloc),
        })
    }

    /// Takes the redo of the next delivery. All entries that it adds to the merged log are checked
    /// before any of them is given. After an error the intake is of no further use.
    pub fn take(&mut self, delivery: RawDelivery) -> Result<CheckedDelivery, IntakeRefused>
        requires threads { AllByRecursion (λ piece. IsIn (length self.old.merger.threads) piece.thread) delivery.pieces }
        requires room { highest_number self.old.merger + length (bytes_of delivery.pieces) < 2 ^ 64 }
        ensures takes { (threads : ℕ) (deliveries : List Delivery) (before : HasTaken self.old threads deliveries) → TakesOne before self.new delivery result }
        ensures threads { length self.new.merger.threads ≡ length self.old.merger.threads }
        ensures number { highest_number self.new.merger ≤ highest_number self.old.merger + length (bytes_of delivery.pieces) }
        ensures counted { OnOk result (self.new.merger.given < 2 ^ 64) }
    {
        let RawDelivery {
            pieces,
            commands,
            schedule,
        } = delivery;
        accept_all(&mut self.merger, pieces.as_slice())?;
        drop(pieces);
        let entries = self.merger.drain()?;
        check_all(&mut self.dictionary, entries.as_slice())?;
        Ok(CheckedDelivery {
            entries,
            frontier: self.merger.frontier(),
            commands,
            schedule,
        })
    }

    /// The dictionary of the entries given.
    pub fn dictionary(&self) -> &Dictionary
        ensures { result.now ≡ self.now.dictionary }
    {
        &self.dictionary
    }

    /// The frontier of the redo taken.
    pub fn frontier(&self) -> Scn
        ensures { (threads : ℕ) (deliveries : List Delivery) (taken : HasTaken self.now threads deliveries) → result ≡ frontier taken.records }
    {
        self.merger.frontier()
    }
}
