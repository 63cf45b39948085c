//! Tests of a query's text, its evaluation and its lines, through what those crates give to others.
#![tactic(auto)]

#[cfg(test)]
mod evaluation;
#[cfg(test)]
mod lines;
#[cfg(test)]
mod texts;
