//! The packets that the two ends of a session send each other: calls, cancels, listens, answers and fires, read and written.
//!
//! A packet is a header value followed by a body value. What an end does with a packet is not here.
#![tactic(auto)]

mod comparing;
mod copying;
mod decoding;
mod encoding;
mod fault;
mod header;
pub mod laws;
pub mod packet;

pub use decoding::{decode, decode_context};
pub use encoding::encode;
pub use fault::PacketFault;
pub use packet::{Answer, Packet};
