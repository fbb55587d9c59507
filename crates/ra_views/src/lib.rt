//! What the calls of a session change in a view of two endpoints and their links. Each function has an empty body: its clauses are what is
//! proved.
//!
//! It holds no code that runs, and knows of no hub, dialer or handshake.
#![tactic(auto)]

pub mod laws;
