//! One log of the redo of several threads: the records of each thread from its bytes, and their
//! vectors in the order of SCN, thread and place.
#![tactic(auto)]

pub mod law;
mod mark;
mod merge;
mod merger;
mod refused;
mod thread;

pub use merger::Merger;
pub use refused::MergeRefused;
