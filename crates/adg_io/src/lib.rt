//! The outside of the standby: where it reads bytes from, where it writes them to, and where its
//! actors pass. Each source and sink counts its faults, so that every failed call has a cause.
#![tactic(auto)]

mod calls;
pub mod gate;
pub mod memory_sink;
pub mod memory_source;
pub mod outside;
pub mod standard;
pub mod transfer;
