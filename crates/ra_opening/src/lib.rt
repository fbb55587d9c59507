//! The opening of a link at the server: the head of its upgrade request, and the handshake up to the message that asks for
//! a session. It tells what is written for the bytes that came, and what they come to: a request, or why there is none.
//!
//! Sessions, who is admitted, and the links themselves are not known here. The request is the caller's to judge, and so is
//! what follows.
#![tactic(auto)]

pub mod ends;
mod heading;
pub mod laws;
pub mod opening;
mod phase;
mod shaking;
pub mod writing;

pub use ends::{OpeningEnd, OpeningStep};
pub use opening::Opening;
pub use writing::{write_acceptance, write_refusal};
