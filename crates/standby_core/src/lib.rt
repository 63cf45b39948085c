//! The core of the standby: the log's shares, the row store, the journal, the flush, column units,
//! populations and scans, and what each event makes of them.
#![tactic(auto)]

mod begin_flush;
mod claim;
mod collect;
pub mod crew;
pub mod duties;
mod extent;
mod fill;
pub mod flush;
pub mod law;
pub mod link;
mod looks;
mod populate;
mod receive;
mod restart;
mod scanning;
pub mod session;
pub mod share;
pub mod standby;
mod start;
mod step;
mod touch;
mod work;
pub mod worker;

pub use standby::Core;
