//! A hub, its clients and the links between them in memory, and what may happen to them.
//!
//! It holds no socket and no clock. Bytes move where an event says so, in any pieces; links are cut, clients connect again, and jobs are
//! done one at a time.
#![tactic(auto)]

mod applying;
mod linking;
mod moving;
mod serving;
mod spot;
mod sweeping;
mod working;
pub mod world;

pub use applying::run_grand;
pub use ra_grand_runs::{GrandEffect, GrandFault, GrandRunFault, laws};
pub use world::GrandWorld;
