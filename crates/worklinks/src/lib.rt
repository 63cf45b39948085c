//! The worklinks of a flush: what has to be done for each end of a transaction and for each change of
//! a definition, in portions that several actors take, each with room for what it will collect.
#![tactic(auto)]

mod chopping;
pub mod collected;
pub mod worklink;

pub use adg_base::node::{DdlNode, Item, ItemList, Node, NodeKind};
pub use chopping::chop;
pub use collected::{Collected, CollectedList};
pub use worklink::{Worklink, WorklinkList};
