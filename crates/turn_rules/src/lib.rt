//! The turn rule of a delivery: who has a turn, what is done in it, what a round makes of the core and
//! of the lines, and the laws between them. There is nothing here that runs: definitions are in
//! `specs/`, and each law is the promise of a function that does nothing.
#![tactic(auto)]

pub mod laws;
