//! The feed reader: it takes the bytes of a feed from a source, piece by piece, and gives its
//! deliveries one by one, then the end, or the first fault with its byte.
#![tactic(auto)]

mod counts;
mod delivery;
pub mod fault;
mod head;
mod intake;
pub mod law;
mod opening;
pub mod phase;
pub mod reader;
mod tag;

pub use adg_model::delivery::{PieceList, RawDelivery, RedoPiece};
pub use adg_model::fault::FeedKind;
