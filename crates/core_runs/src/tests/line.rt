//! The lines of a run.

use crate::tests::words::{Ask, Want};

/// A line of a run.
#[derive(Clone, Copy, Debug)]
pub enum Line {
    /// The next delivery: records of thread 1 as text.
    Redo(&'static str),
    /// The next delivery: so many transactions from one on, each a record with its number as the SCN. Each
    /// puts its number into a row of `t1` of its own, and commits.
    Commits(u64, u64),
    /// An event and its answer.
    Once(Ask, Want),
    /// An event that is asked so many times in a row, and its answer each time.
    Times(u32, Ask, Want),
    /// Each worker applies and mines all of its share, and comes to the frontier.
    Work,
    /// The coordinator begins the flush up to the frontier, of so many worklinks, and ends it alone.
    Flush(u32),
    /// A session populates an object of so many extents, and is told so.
    Populate(u8, u16, u32, &'static str),
    /// A session's SELECT over an object of so many extents, from its begin to its reply.
    Select(u8, &'static str, u32, &'static str),
}

/// A run from a new bench on.
#[derive(Clone, Copy, Debug)]
pub struct Run {
    pub name: &'static str,
    pub workers: u8,
    pub sessions: u8,
    pub lines: &'static [Line],
}
