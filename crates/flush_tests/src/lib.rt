//! Tests of what is mined, kept and chopped for a flush, through what those crates give to others.
#![tactic(auto)]

#[cfg(test)]
mod chopped;
#[cfg(test)]
mod commits;
#[cfg(test)]
mod definitions;
#[cfg(test)]
mod journals;
#[cfg(test)]
mod mined;
#[cfg(test)]
mod queues;
#[cfg(test)]
mod restarts;
