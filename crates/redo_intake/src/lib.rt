//! The redo side of the program: the redo of each delivery becomes entries of the merged log, each of
//! them checked.
#![tactic(auto)]

mod intake;
mod refused;

pub use intake::RedoIntake;
pub use refused::IntakeRefused;
