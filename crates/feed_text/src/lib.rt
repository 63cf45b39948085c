//! A feed as text that a person can write and read, and back.
#![tactic(auto)]

pub mod assemble;
mod bytes;
mod fault;
mod field;
mod frame;
mod hex;
pub mod line;
mod line_text;
mod number;
mod put_hex;
mod read_line;
pub mod reason;
mod record;
pub mod refused;
pub mod show;
mod text;
pub mod top;
mod value;
mod vector;
mod word;
