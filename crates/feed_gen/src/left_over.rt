//! What threads have kept, and the ends of the threads.

ghost use Rattle.std.specs.Prelude.{◌≡◌, ◌<◌, ◌≤◌, ◌^◌, ◌++◌, ◌∷◌, [], IfOk, OnOk};
ghost use Rattle.feed_gen.specs.Transfers.{second_vectors, left_over, all_kept, end_of, ends, closing};
ghost use Rattle.feed_gen.specs.Tables.{writing};
ghost use Rattle.feed_gen.specs.Written.{with_writings};
ghost use Rattle.feed_gen.specs.Bounds.{IsSecond, IsKept, AreKept};

use crate::record::second_record;
use crate::second::{Kept, Second};
use crate::writer::FeedWriter;
use crate::writing::Writing;
use adg_base::memory::Memory;
use adg_base::vector::{Vector, VectorList};
use std::alloc::Global;

fn write_second(
    alloc: Global,
    feed: &mut FeedWriter,
    thread: u8,
    second: &Second,
) -> Result<(), Memory>
    requires second { IsSecond second.now }
    requires room { feed.old.records < 2 ^ 31 }
    ensures { OnOk result (feed.new ≡ with_writings feed.old (writing thread (second_vectors second.now) ∷ [])) }
{
    let record = second_record(alloc, thread, second)?;
    feed.write(alloc, record)?;
    Ok(())
}

/// Writes what a thread has kept, where it has kept something.
pub fn write_left_over(
    alloc: Global,
    feed: &mut FeedWriter,
    thread: u8,
    kept: &Option<Second>,
) -> Result<(), Memory>
    requires kept { IsKept kept.now }
    requires room { feed.old.records < 2 ^ 31 }
    ensures { OnOk result (feed.new ≡ with_writings feed.old (left_over thread kept.now)) }
{
    match kept {
        Some(second) => write_second(alloc, feed, thread, second),
        None => Ok(()),
    }
}

/// Ends a thread.
fn write_end(alloc: Global, feed: &mut FeedWriter, thread: u8) -> Result<(), Memory>
    requires { feed.old.records < 2 ^ 31 }
    ensures { OnOk result (feed.new ≡ with_writings feed.old (end_of thread ∷ [])) }
{
    let mut vectors = VectorList::new(alloc);
    vectors.push(Vector::EndThread)?;
    feed.write(alloc, Writing { thread, vectors })?;
    Ok(())
}

fn write_kept(alloc: Global, feed: &mut FeedWriter, kept: &Kept) -> Result<(), Memory>
    requires kept { AreKept kept.now }
    requires room { feed.old.records < 2 ^ 30 }
    ensures { OnOk result (feed.new ≡ with_writings feed.old (all_kept kept.now)) }
{
    write_left_over(alloc, feed, 1, &kept.one)?;
    write_left_over(alloc, feed, 2, &kept.two)?;
    write_left_over(alloc, feed, 3, &kept.three)?;
    Ok(())
}

fn write_ends(alloc: Global, feed: &mut FeedWriter) -> Result<(), Memory>
    requires { feed.old.records < 2 ^ 30 }
    ensures { OnOk result (feed.new ≡ with_writings feed.old ends) }
{
    write_end(alloc, feed, 1)?;
    write_end(alloc, feed, 2)?;
    write_end(alloc, feed, 3)?;
    Ok(())
}

/// Writes what is still kept, by thread, and ends the threads.
pub fn write_closing(alloc: Global, feed: &mut FeedWriter, kept: &Kept) -> Result<(), Memory>
    requires kept { AreKept kept.now }
    requires room { feed.old.records < 2 ^ 29 }
    ensures { OnOk result (feed.new ≡ with_writings feed.old (closing kept.now)) }
{
    write_kept(alloc, feed, kept)?;
    write_ends(alloc, feed)?;
    Ok(())
}
