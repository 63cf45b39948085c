ghost use Rattle.std.specs.Prelude.{◌≡◌, ℕ, ◌+◌, ◌<◌, ◌≤◌, ◌^◌, [], List as ListOf, length, IfOk, OnOk, OnErr, None, Some};
ghost use Rattle.std.specs.List.{AllZip, AllByRecursion};
ghost use Rattle.adg_base.specs.declared.log.LogEntry.{LogEntry};
ghost use Rattle.adg_base.specs.declared.vector.RedoRecord.{RedoRecord};
ghost use Rattle.adg_model.specs.declared.fault.RedoFault.{RedoFault};
ghost use Rattle.adg_model.specs.Log.{frontier};
ghost use Rattle.log_merger.specs.Thread.{IsRead, ReadsOn};
ghost use Rattle.log_merger.specs.Merger.{Drains, IsFirstBad, Merges, RecordsFrom, RefusesFirst, StandsFor, highest_number, no_texts, refusal_of, with_piece};

use crate::merge::{frontier, merge};
use crate::refused::MergeRefused;
use crate::thread::RedoThread;
use adg_base::list::List;
use adg_base::log::EntryList;
use adg_base::memory::Memory;
use adg_base::number::Scn;
use adg_model::fault::RedoFault;
use std::alloc::Global;
use std::marker::Model;

/// Makes one log of the redo of several threads. Bytes are accepted as they come, and the entries of
/// the merged log are given up to the frontier of the records accepted so far.
#[derive(Debug, Drop)]
pub struct Merger {
    alloc: Global,
    threads: Vec<RedoThread>,
    given: u64,
    refused: Option<RedoFault>,
}

impl Model for Merger {
    ghost use Rattle.log_merger.specs.Merger.{Merging};

    ghost Value = { Merging };

    ghost view = { λ m. record { threads = m.threads.items; given = m.given; refused = m.refused } };
}

/// Reads the records of each thread in turn, up to the first that is refused.
fn read_all(threads: &mut [RedoThread]) -> Result<(), MergeRefused>
    ensures each { AllZip ReadsOn threads.old threads.new }
    ensures all { OnOk result (AllByRecursion IsRead threads.new) }
    ensures refused { (fault : RedoFault) → result ≡ Err (MergeRefused.Redo fault) → RefusesFirst threads.old threads.new fault }
{
    for index in 0..threads.len() {
        threads[index].read()?;
    }
    Ok(())
}

impl Merger {
    /// A merger of so many threads, of which nothing was accepted.
    pub fn new(alloc: Global, threads: u8) -> Result<Merger, Memory>
        ensures threads { IfOk result (λ merger. length merger.threads ≡ threads) }
        ensures stands { IfOk result (λ merger. StandsFor merger no_texts []) }
        ensures refused { IfOk result (λ merger. merger.refused ≡ None) }
        ensures number { IfOk result (λ merger. highest_number merger ≤ 1) }
    {
        let mut list = Vec::with_capacity(alloc, threads as usize)?;
        for index in 0..threads {
            list.push(RedoThread::new(alloc, index + 1))?;
        }
        Ok(Merger {
            alloc,
            threads: list,
            given: 0,
            refused: None,
        })
    }

    /// Accepts the next bytes of a thread. What is wrong with them is answered by the next drain.
    pub fn accept(&mut self, thread: u8, piece: &[u8]) -> Result<(), Memory>
        requires thread { (1 ≤ thread) × (thread ≤ length self.old.threads) }
        requires room { highest_number self.old + length piece.now < 2 ^ 64 }
        ensures ok { OnOk result ((texts : ℕ → ListOf ℕ) (given : ListOf LogEntry) → StandsFor self.old texts given →
            StandsFor self.new (with_piece thread piece.now texts) given) }
        ensures memory { OnErr result ((texts : ℕ → ListOf ℕ) (given : ListOf LogEntry) → StandsFor self.old texts given → StandsFor self.new texts given) }
        ensures threads { length self.new.threads ≡ length self.old.threads }
        ensures number { highest_number self.new ≤ highest_number self.old + length piece.now }
        ensures refused { self.new.refused ≡ self.old.refused }
    {
        self.threads[thread as usize - 1].accept(piece)
    }

    /// The frontier of the records accepted: the least last SCN of the threads that have not ended, or
    /// else the greatest of all threads.
    pub fn frontier(&self) -> Scn
        ensures { (texts : ℕ → ListOf ℕ) (given : ListOf LogEntry) (records : ListOf (ListOf RedoRecord)) → StandsFor self.now texts given →
            length records ≡ length self.now.threads → RecordsFrom 1 texts records → result ≡ frontier records }
    {
        frontier(&self.threads)
    }

    /// Reads the records of all threads, and remembers the refusal of one.
    fn read(&mut self) -> Result<(), MergeRefused>
        requires { self.old.refused ≡ None }
        ensures stands { (texts : ℕ → ListOf ℕ) (given : ListOf LogEntry) → StandsFor self.old texts given → StandsFor self.new texts given }
        ensures all { OnOk result (AllByRecursion IsRead self.new.threads) }
        ensures bad { (fault : RedoFault) → result ≡ Err (MergeRefused.Redo fault) → (texts : ℕ → ListOf ℕ) (given : ListOf LogEntry) → StandsFor self.old texts given →
            IsFirstBad (length self.old.threads) texts fault }
        ensures refused { self.new.refused ≡ refusal_of result }
        ensures threads { length self.new.threads ≡ length self.old.threads }
        ensures number { highest_number self.new ≡ highest_number self.old }
    {
        match read_all(&mut self.threads) {
            Ok(()) => Ok(()),
            Err(MergeRefused::Redo(fault)) => {
                self.refused = Some(fault);
                Err(MergeRefused::Redo(fault))
            }
            Err(MergeRefused::Memory) => Err(MergeRefused::Memory),
        }
    }

    /// Merges what waits up to the frontier, where all records are read.
    fn merge(&mut self) -> Result<EntryList, Memory>
        requires { AllByRecursion IsRead self.old.threads }
        ensures merged { IfOk result (λ entries. (texts : ℕ → ListOf ℕ) (given : ListOf LogEntry) → StandsFor self.old texts given → Merges self.old self.new texts given entries) }
        ensures memory { OnErr result (self.new ≡ self.old) }
        ensures counted { OnOk result (self.new.given < 2 ^ 64) }
        ensures refused { self.new.refused ≡ self.old.refused }
        ensures threads { length self.new.threads ≡ length self.old.threads }
        ensures number { highest_number self.new ≡ highest_number self.old }
    {
        let through = frontier(&self.threads);
        let entries = merge(self.alloc, &mut self.threads, through, self.given)?;
        self.given += entries.len() as u64;
        Ok(List::from_vec(entries))
    }

    /// Gives the entries of the merged log up to the frontier that were not given before. A bad record
    /// of a thread is refused, also where it lies above the frontier, and every later drain refuses it
    /// again.
    pub fn drain(&mut self) -> Result<EntryList, MergeRefused>
        ensures drains { (texts : ℕ → ListOf ℕ) (given : ListOf LogEntry) → StandsFor self.old texts given → Drains self.old self.new texts given result }
        ensures again { (fault : RedoFault) → self.old.refused ≡ Some fault → (result ≡ Err (MergeRefused.Redo fault)) × (self.new ≡ self.old) }
        ensures refused { self.new.refused ≡ refusal_of result }
        ensures threads { length self.new.threads ≡ length self.old.threads }
        ensures number { highest_number self.new ≡ highest_number self.old }
        ensures counted { OnOk result (self.new.given < 2 ^ 64) }
    {
        if let Some(fault) = self.refused {
            return Err(MergeRefused::Redo(fault));
        }
        self.read()?;
        Ok(self.merge()?)
    }
}
