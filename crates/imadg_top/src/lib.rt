//! The top calls: a feed is read from a source, run, and answered to a sink.
#![tactic(auto)]

mod kept;
pub mod law;
mod top;
mod words;

pub use feed_run::outcome::{Outcome, Status};
pub use top::{standby, stepped};
