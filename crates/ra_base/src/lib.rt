//! The words that all crates share: messages, moments, want of memory, the events of a world of two endpoints, and the names of
//! sessions with what a handshake asks for.
//!
//! It holds plain values alone: no rule of the protocol is here.
#![tactic(auto)]

pub mod event;
pub mod handshake;
pub mod key;
pub mod kind;
pub mod memory;
pub mod message;
pub mod moment;
pub mod token;

pub use event::{Count, Event, Side};
pub use handshake::{Reason, Request};
pub use key::{Cause, Key, Seat};
pub use kind::Kind;
pub use memory::NoMemory;
pub use message::Message;
pub use moment::Moment;
pub use token::{Token, TokenFault};
