//! The end that dials: it connects, shakes hands, attaches its session, and connects again.
//!
//! It takes what happens as events, one at a time, and answers what is to be done. It opens no link and reads no clock.
#![tactic(auto)]

mod attempts;
mod calls;
mod client;
mod dialer;
mod handshake;
pub mod laws;
mod links;
mod outgoing;
mod stage;
mod step;
mod stepping;
mod values;

pub use dialer::Dialer;
pub use values::{DialAct, DialEnd, DialEvent, DialSettings};
