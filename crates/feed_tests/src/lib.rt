//! Tests of a feed as bytes, as text and as generated, through what those crates give to others.
#![tactic(auto)]

#[cfg(test)]
mod ends;
#[cfg(test)]
mod frames;
#[cfg(test)]
mod generated;
#[cfg(test)]
mod texts;
