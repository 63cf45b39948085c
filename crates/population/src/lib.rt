//! From the rows of an extent to its columns.
#![tactic(auto)]

pub mod build;
