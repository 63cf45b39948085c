//! Column units: the columns of an extent as of one SCN, with a map of the rows that have changed
//! since. A shard keeps units by object and extent.
#![tactic(auto)]

mod marks;
pub mod shard;
pub mod unit;
