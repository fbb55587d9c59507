//! What is kept of a server through all its calls and starts: its records are due, none is taken away, and a session that was kept before a
//! start is refused behind it. The functions of `laws` have empty bodies: their clauses are what is proved. Those of `calls` are the calls of
//! a hub in memory, each with the clause that it is a call of which the laws speak.
#![tactic(auto)]

pub mod calls;
pub mod laws;
