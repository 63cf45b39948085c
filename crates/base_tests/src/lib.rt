//! Tests of the types, the streams and the plain program, through what those crates give to others.
#![tactic(auto)]

#[cfg(test)]
mod base_types;
#[cfg(test)]
mod deliveries;
#[cfg(test)]
mod plain_answers;
#[cfg(test)]
mod streams;
