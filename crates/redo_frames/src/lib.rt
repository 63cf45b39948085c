//! The records of a redo thread, put together from its bytes however they are cut, with their
//! vectors still as bytes.
#![tactic(auto)]

mod assembler;
mod next_record;
mod number;
mod reading;
mod record;

pub use adg_model::fault::FrameKind;
pub use assembler::Assembler;
pub use record::{FrameRefused, RawRecord};
