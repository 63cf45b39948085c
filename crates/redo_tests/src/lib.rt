//! Tests of the way of redo into the merged log, through what its crates give to others.
#![tactic(auto)]

#[cfg(test)]
mod checks;
#[cfg(test)]
mod merged;
#[cfg(test)]
mod records;
#[cfg(test)]
mod taken;
#[cfg(test)]
mod vectors;
