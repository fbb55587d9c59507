//! All sessions of a server: who is admitted, what becomes of each session, and the jobs that they give.
//!
//! Links, bytes of a connection and handshakes are not here, and neither are threads.
#![tactic(auto)]

mod entry;
mod fault;
pub mod hub;
pub mod jobs;
pub mod laws;
mod plain;
mod rows;
mod sessions;
mod starting;
mod sweeping;

pub use fault::{HubFault, StartFault, is_no_memory};
pub use hub::{Hub, Swept};
pub use jobs::{Job, JobList, JobSink};
pub use plain::PlainHub;
pub use rows::{closes, key_of};
