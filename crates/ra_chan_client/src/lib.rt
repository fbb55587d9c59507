//! The client end of the channels of a session: calls and listens that are open, and requests that wait until the server is
//! ready.
//!
//! It gives and takes packets. Their bytes, and what carries them, are not here.
#![tactic(auto)]

mod client;
mod fault;
mod hearing;
mod ids;
mod requests;
mod text;
mod waiting;

pub use client::ChannelClient;
pub use fault::ClientFault;
pub use hearing::Heard;
pub use requests::Issued;
pub use text::is_text;
