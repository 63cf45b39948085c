//! The feed of a realistic run, by a seed.
#![tactic(auto)]

mod balances;
mod bank;
mod command;
pub mod generate;
pub mod law;
mod left_over;
mod opening;
mod question;
mod record;
mod second;
mod source;
mod table;
mod transfer;
mod writer;
mod writing;
