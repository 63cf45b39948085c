//! A realistic run by seed: the words that ask for it, its run in memory, and its summary.
#![tactic(auto)]

mod setting;
pub mod soak;
pub mod summary;
mod tally;
mod transcript;
pub mod words;
