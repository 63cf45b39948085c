//! The values of a column of an extent in one piece, and the columns of an extent with the addresses of
//! its rows. A row can be looked at where it lies in them.
#![tactic(auto)]

pub mod bounds;
pub mod column;
pub mod columns;
