//! The edge as traits: what gives links, and what opens links and takes them back, with their forms in memory; tasks that run beside
//! their caller; and the clock of the host.
//!
//! A trait tells the links that are to come where it can, and clauses on them hold where they are told.
#![tactic(auto)]

pub mod accept;
pub mod dial;
pub mod host_clock;
pub mod mem_accept;
pub mod mem_dial;
pub mod spawner;

pub use accept::Accept;
pub use dial::Dial;
pub use host_clock::HostClock;
pub use mem_accept::MemAccept;
pub use mem_dial::MemDial;
pub use spawner::{Run, Spawner};
