//! The core of a served link, which is given its bytes piece by piece: its opening, its session's turns, the jobs that they give, and its end.
//!
//! It asks no link for bytes and sends none, and what jobs mean is not known here.
#![tactic(auto)]

mod ask;
pub mod ends;
pub mod laws;
pub mod link_core;
mod phase;
mod turns;

pub use ends::CoreEnd;
pub use link_core::{LinkCore, Settings};
