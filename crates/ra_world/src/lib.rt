//! A world of two endpoints in memory and the links between them, and what may happen to it.
//!
//! It holds no socket and no clock. Bytes move where an event says so, in any pieces, and links are cut and made anew.
#![tactic(auto)]

mod link;
mod peer;
mod peers;
pub mod run;
pub mod world;

pub use ra_model::{Effect, EventFault};
pub use run::{RunFault, run_world, run_world_from};
pub use world::World;
