//! The standby over the core: the redo of each delivery is received by one core, which takes the
//! turns of the rule, and its lines are printed.
#![tactic(auto)]

mod standby;
mod workers;

pub use standby::CoreStandby;
pub use workers::Workers;
