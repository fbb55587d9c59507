//! What passes between a client and a target: a link to the target is opened, and then what comes on each link is sent on the other,
//! whole and in order, until one of them ends or fails.
//!
//! How a client comes to be accepted is not known here.
#![tactic(auto)]

pub mod ends;
pub mod joining;
pub mod piping;

pub use ends::{PipeEnd, TunnelSide};
pub use joining::join_target;
pub use piping::pipe;
