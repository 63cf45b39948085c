//! The rows of an extent at an SCN, from the columns of its unit where they serve, and from the row
//! store where they do not.
#![tactic(auto)]

pub mod law;
pub mod reader;
pub mod scan;
pub mod shard_reader;
pub mod sink;
pub mod wide_row;
