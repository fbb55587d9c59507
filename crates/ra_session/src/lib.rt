//! A session: one endpoint over its links, and the calls and events that its messages carry.
//!
//! Who may attach, and which sessions there are, is not known here.
#![tactic(auto)]

mod copying;
mod creating;
mod fault;
mod hearing;
pub mod laws;
mod opening;
mod packets;
mod requests;
mod session;
mod telling;
mod ticking;
mod turning;
mod values;

pub use session::Session;
pub use values::{Happened, IpcFault, Outcome, Role, SessionFault, Tell, Turn, Work};
