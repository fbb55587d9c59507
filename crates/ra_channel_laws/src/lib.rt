//! What passes on the channels of two sessions that are the two ends of a view. Each function has an empty body: its clauses are what is
//! proved.
//!
//! It holds no code that runs, and knows of no hub, dialer or handshake.
#![tactic(auto)]

pub mod laws;
