//! The commands of sessions as texts: the command that a text spells, the place up to which a text
//! that is no command begins one, and the one spelling of a command.
#![tactic(auto)]

mod aggregate;
mod condition;
mod fault;
pub mod law;
mod literal;
mod number;
pub mod print;
pub mod read;
pub mod refused;
mod select;
mod tail;
mod word;
