//! The driver of a core: it receives the redo of a delivery, takes the turns of the rule until the round
//! is over, and tells what they said.
#![tactic(auto)]

pub mod act;
mod crew;
pub mod delivery;
pub mod request;
mod round;
pub mod seat;
pub mod seats;
mod session;
mod turn;
mod waiting;

pub use delivery::run_delivery;
