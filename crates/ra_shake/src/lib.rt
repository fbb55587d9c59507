//! The handshake that a connection makes before it carries messages, at both ends.
//!
//! 1. The client says its connection token and a challenge: `{"auth":S,"data":C,"type":"auth"}`.
//! 2. The server says a challenge of its own and its signature of the client's: `{"data":C,"signedData":G,"type":"sign"}`.
//! 3. The client says its commit, the kind of session that it wants, and its signature of the server's challenge:
//!    `{"commit":K,"desiredConnectionType":N,"signedData":G,"type":"connectionType"}`.
//! 4. The server accepts by `{"type":"ok"}` or `{}`, or refuses, here or after the first message, by
//!    `{"reason":R,"type":"error"}`.
//!
//! Each text is the body of one control frame. The frames, the links and the rules by which a session is found or made are not
//! here: a handshake that nothing in its two messages refuses ends in a request.
#![tactic(auto)]

pub mod client;
pub mod laws;
pub mod limits;
mod reading;
pub mod server;
pub mod settings;
pub mod texts;
pub mod tokens;
mod verdict;

pub use client::{ClientShake, ClientStep};
pub use limits::TEXT_LIMIT;
pub use ra_base::{Reason, Request};
pub use server::{ServerShake, ShakeStep, Stage};
pub use settings::ShakeSettings;
pub use texts::{accept_text, refuse_text};
pub use tokens::made;
