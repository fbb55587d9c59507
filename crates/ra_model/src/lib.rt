//! The session of two endpoints over links that come and go, as definitions, and what holds of every run of them.
//!
//! The types are plain data. What they mean is defined in specs/, and what holds of it stands as clauses on the functions of
//! `laws` and `moves`, whose bodies are empty. Nothing here runs: the code that keeps to these definitions is in the crates above.
#![tactic(auto)]

pub mod effect;
pub mod fault;
pub mod frame;
pub mod laws;
pub mod moves;
pub mod session;
pub mod timing;

pub use effect::Effect;
pub use fault::{EndFault, EventFault};
pub use frame::Frame;
pub use session::{Entry, Phase, Up};
pub use timing::Timing;
