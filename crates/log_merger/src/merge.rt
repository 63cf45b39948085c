ghost use Rattle.std.specs.Prelude.{◌≡◌, ◌+◌, ◌<◌, ◌≤◌, ◌^◌, [], ◌∷◌, IfOk, IfSome, OnErr, max, vec_len};
ghost use Rattle.std.specs.List.{AllZip};
ghost use Rattle.log_merger.specs.Merge.{AreQueues, IsFirstLeast, KeepsRest, TakesAll, TakesNext, count_all, first_scns, frontier_of, least_with, marks_of};

use crate::thread::RedoThread;
use adg_base::log::LogEntry;
use adg_base::memory::Memory;
use adg_base::number::{Pos, Scn};
use std::alloc::Global;

/// The lesser of an SCN and the least so far.
fn least_with(least: Option<Scn>, scn: Scn) -> Scn
    ensures { result ≡ least_with least scn }
{
    match least {
        Some(least) if least < scn => least,
        _ => scn,
    }
}

/// The later of two SCNs.
fn later(one: Scn, other: Scn) -> Scn
    ensures { result ≡ max one other }
{
    if one < other { other } else { one }
}

/// The least SCN at which a thread stands that has not ended. Where all have, the greatest of all.
pub fn frontier(threads: &[RedoThread]) -> Scn
    ensures { result ≡ frontier_of (marks_of threads.now) }
{
    let mut least = None;
    let mut greatest = Scn::ZERO;
    for thread in threads {
        let mark = thread.mark();
        greatest = later(greatest, mark.scn());
        if !mark.has_ended() {
            least = Some(least_with(least, mark.scn()));
        }
    }
    match least {
        Some(least) => least,
        None => greatest,
    }
}

/// How many entries wait up to an SCN. None where they are more than can be counted.
fn count_waiting(threads: &[RedoThread], through: Scn) -> Option<usize>
    ensures { IfSome result (λ count. count ≡ count_all through threads.now) }
{
    let mut count: usize = 0;
    for thread in threads {
        count = count.checked_add(thread.count_upto(through))?;
    }
    Some(count)
}

/// The thread with the next entry up to an SCN: the lowest of those whose first entry has the least
/// SCN.
fn next_thread(threads: &[RedoThread], through: Scn) -> Option<usize>
    ensures { IsFirstLeast (through + 1) (first_scns (through + 1) threads.now) result }
{
    let none = through.get() + 1;
    let mut least = none;
    let mut next = None;
    for (index, thread) in threads.iter().enumerate() {
        let scn = thread.first_scn(none);
        if scn < least {
            least = scn;
            next = Some(index);
        }
    }
    next
}

/// Takes out the next entry up to an SCN.
fn next_entry(threads: &mut [RedoThread], through: Scn) -> Option<LogEntry>
    ensures takes { AreQueues 1 threads.old → TakesNext through threads.old threads.new result }
    ensures rest { AllZip KeepsRest threads.old threads.new }
{
    let index = next_thread(threads, through)?;
    threads[index].give()
}

/// Takes out the entries that wait up to an SCN, in order, and gives them positions from one on. The
/// memory is there before the first of them is taken.
pub fn merge(
    alloc: Global,
    threads: &mut [RedoThread],
    through: Scn,
    first: u64,
) -> Result<Vec<LogEntry>, Memory>
    ensures merges { IfOk result (λ entries. AreQueues 1 threads.old → TakesAll through first threads.old threads.new entries.items) }
    ensures positions { IfOk result (λ entries. first + vec_len entries < 2 ^ 64) }
    ensures memory { OnErr result (threads.new ≡ threads.old) }
    ensures rest { AllZip KeepsRest threads.old threads.new }
{
    let count = count_waiting(threads, through).ok_or(Memory)?;
    first.checked_add(count as u64).ok_or(Memory)?;
    let mut entries = Vec::with_capacity(alloc, count)?;
    for place in 0..count {
        let Some(mut entry) = next_entry(threads, through) else {
            break;
        };
        entry.pos = Pos::new(first + place as u64);
        entries.push_reserved(entry);
    }
    Ok(entries)
}
