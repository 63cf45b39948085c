//! The commit table of a worker: the ends of its transactions, until a flush takes those up to its SCN.
#![tactic(auto)]

pub mod partition;

pub use adg_base::node::{Node, NodeKind, NodeList};
pub use partition::Partition;
