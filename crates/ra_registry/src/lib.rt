//! The registry of sessions: who is admitted, how long a session whose link was lost can be reconnected, and the history of it all.
//!
//! A registry is seen as its history: the row of a session is read off it. Sessions themselves, links and handshakes are not here.
#![tactic(auto)]

mod admission;
mod expiry;
pub mod fault;
pub mod laws;
pub mod past;
pub mod registry;
pub mod row;
mod rows;
mod same;
mod start;

pub use fault::AdmitFault;
pub use past::{Did, Past};
pub use ra_base::{Cause, Seat};
pub use registry::{Registry, RegistryParts};
pub use row::{Row, RowState};
