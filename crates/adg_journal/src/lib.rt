//! The journal of changes: what was noted for each transaction, until a flush collects it.
#![tactic(auto)]

pub mod area;
mod noted;
mod places;

pub use adg_base::address::AddrList;
pub use area::Area;
