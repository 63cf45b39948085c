//! What the standby means: the definitions of its feed, its log, its rows and its answers, in
//! `specs/`, and the types that they speak of beside those of `adg_base`.
#![tactic(auto)]

pub mod admission;
pub mod comparison;
pub mod delivery;
pub mod fault;
pub mod laws;
pub mod mined;
pub mod plain;
pub mod record;
