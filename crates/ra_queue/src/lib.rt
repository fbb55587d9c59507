//! The messages that a peer has not acknowledged, in the order of their ids, and the ids that messages get.
//!
//! Nothing is known here of links and frames: when a message is written is said by whoever writes it.
#![tactic(auto)]

pub mod ids;
pub mod unacked;

pub use ids::Ids;
pub use ra_model::Entry;
pub use unacked::Unacked;
