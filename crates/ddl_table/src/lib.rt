//! The DDL table: the changes of objects' definitions, until a flush takes those up to its SCN.
#![tactic(auto)]

pub mod table;

pub use adg_base::node::{DdlList, DdlNode};
pub use table::DdlTable;
