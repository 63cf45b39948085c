//! The run of a feed: its deliveries are read, answered by a standby, and their lines written; and
//! then a line tells how the run ended.
#![tactic(auto)]

pub mod outcome;
mod refusal;
mod report;
pub mod run;
pub mod standby;
mod telling;
#[cfg(test)]
mod tests;
