//! A list in the order of SCN that is cut at an SCN. What keeps entries until a flush takes those up to
//! its own SCN is made of it.
#![tactic(auto)]

pub mod has_scn;
pub mod queue;
