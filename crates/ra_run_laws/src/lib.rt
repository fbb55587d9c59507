//! What holds of every event of a run: which runs there are, that no event takes anything back, and where the packets come from that the
//! sessions of the server say. Each function has an empty body: its clauses are what is proved.
#![tactic(auto)]

pub mod laws;
