//! A bench for the core of the standby: redo goes through the intake to the core as in the product, and
//! events are asked one by one. The runs over it are tests.
#![tactic(auto)]

mod bench;
#[cfg(test)]
mod tests;

pub use bench::Bench;
