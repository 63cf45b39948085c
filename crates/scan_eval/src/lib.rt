//! The meaning of a query over rows: its conditions, its aggregates and its groups, gathered row by
//! row without keeping a row.
#![tactic(auto)]

pub mod accumulator;
pub mod admission;
mod condition;
mod group;
mod key_index;
mod number_index;
mod seen;
pub mod select;
mod slots;
mod tally;
mod text_index;
