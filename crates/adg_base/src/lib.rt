//! The types that every part of the standby speaks of: numbers with a range, texts and rows, the
//! vectors of redo, commands and their replies, and the rules that spread work over shards.
#![tactic(auto)]

pub mod address;
pub mod answer;
pub mod command;
pub mod definition;
pub mod list;
pub mod log;
pub mod memory;
pub mod node;
pub mod number;
mod piece;
pub mod placed;
pub mod row;
pub mod shard;
pub mod steps;
pub mod text;
pub mod value;
pub mod value_ref;
pub mod vector;
