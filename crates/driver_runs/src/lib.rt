//! A bench for the driver of the stepped standby: whole feeds are run as in the product. The runs over
//! it are tests.
#![tactic(auto)]

mod bench;
#[cfg(test)]
mod tests;

pub use bench::{Answer, run};
