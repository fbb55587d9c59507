//! One connection served, from its first byte to its end: the core of a served link over a link and a clock.
//!
//! It opens no connection and starts no thread, and what jobs mean is not known here.
#![tactic(auto)]

pub mod ends;
pub mod serve;

pub use ends::LinkEnd;
pub use ra_link_core::{CoreEnd, LinkCore, Settings};
pub use serve::serve_link;
