//! Redo records as bytes: the vectors that the bytes of a record spell, and the one spelling of a
//! record.
#![tactic(auto)]

pub mod change;
mod field;
pub mod law;
pub mod read;
pub mod refused;
mod size;
pub mod unread;
mod value;
mod vector;
pub mod write;
