//! The dictionary of a redo log: every transaction and every object that the log names. It makes the
//! checks of a sound log, and tells the definition of an object at an SCN.
#![tactic(auto)]

mod change;
mod definition;
mod dictionary;
mod history;
mod objects;
mod pending;
mod refused;
mod row;
mod transactions;

pub use dictionary::Dictionary;
pub use refused::RedoRefused;
