//! The application that answers calls, as a trait, and the tools that are shipped.
//!
//! How calls come, and how their answers go, is not here.
#![tactic(auto)]

pub mod app;
pub mod tools;

pub use app::{App, Done, Shout, too_large};
pub use tools::Tools;
