//! The server end of the channels of a session: requests that are active, requests that wait for their channel, and the events that
//! are fired.
//!
//! It gives and takes packets. Their bytes, what carries them, and the answers to calls are not here.
#![tactic(auto)]

mod call;
mod fault;
mod firing;
mod groups;
mod index;
mod packets;
mod request;
mod requests;
mod server;
mod table;
mod unknown;
mod waiting;

pub use call::{Call, Fire};
pub use fault::ServerFault;
pub use server::ChannelServer;
