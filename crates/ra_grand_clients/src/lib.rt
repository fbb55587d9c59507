//! The clients of a hub and the links between them and it, in memory.
//!
//! It holds no hub, no socket and no clock.
#![tactic(auto)]

mod asking;
mod client;
mod client_links;
mod client_setup;
pub mod clients;
mod dialling;
mod exchanging;
mod link;

pub use clients::Clients;
