//! What holds between a client and the session of its key in a run: the texts of their links, and that the two are the ends of one view. Each
//! function has an empty body: its clauses are what is proved.
#![tactic(auto)]

pub mod laws;
