//! What may happen to a hub, its clients and the links between them: events, what each answers and why it is refused, and what holds of every
//! run of them.
//!
//! A run is a definition. What runs here is little: the draws that are numbers, and the token of all.
#![tactic(auto)]

pub mod counted;
pub mod effect;
pub mod fault;
pub mod laws;
pub mod secret;

pub use counted::Counted;
pub use effect::{GrandEffect, WritableAct};
pub use fault::{GrandFault, GrandRunFault};
pub use secret::copy_secret;
