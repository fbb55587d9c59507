//! What both ends of a link write until a session begins on it, and how far each is with what it has read. Each function has an empty body:
//! its clauses are what is proved.
#![tactic(auto)]

pub mod laws;
