//! The rules of the core of the standby: its state, its events, what holds of every state that they
//! reach, and the laws between them. There is nothing here that runs: definitions are in `specs/`,
//! and each law is the promise of a function that does nothing.
#![tactic(auto)]

pub mod event;
pub mod laws;
