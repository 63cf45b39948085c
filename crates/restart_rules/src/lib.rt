//! Where a worker goes on after a restart, and which transactions it then knows whole.
#![tactic(auto)]

mod rewinding;

pub use rewinding::{complete, rewind};
