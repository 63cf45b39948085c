//! The row store: what a log has made of each row so far, version by version, with the end of each
//! transaction, spread over 64 shards; and the pick of the row that is committed at an SCN.
#![tactic(auto)]

pub mod block;
mod ends;
pub mod law;
pub mod pick;
pub mod settled;
mod several;
pub mod shard;
pub mod shards;
pub mod version;
