//! What each entry of the log notes for the column units.
#![tactic(auto)]

mod miner;

pub use adg_model::mined::Mined;
pub use miner::mine;
