//! Calls from one window to another through the server: a window's call waits at another window until that one asks for it and
//! replies.
//!
//! What each call is told is defined by the list of all calls so far, and laws say it of every list. A router keeps what waits, and
//! tells the same.
#![tactic(auto)]

pub mod acts;
pub mod ask;
pub mod laws;
pub mod router;
pub mod runs;
mod window;

pub use acts::Acts;
pub use ask::{Ask, Said, Step, Told};
pub use router::Router;
pub use runs::run;
