//! Tests of the driver's questions and of whole runs of the program.
#![tactic(auto)]

#[cfg(test)]
mod asked;
#[cfg(test)]
mod program;
