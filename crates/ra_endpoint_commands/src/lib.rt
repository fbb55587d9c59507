//! The commands about one endpoint and about two: what they read, what they run, and the lines that they print.
//!
//! `receive` reads the bytes of one link, `replay` runs a script over two endpoints, and `soak` runs a script that is drawn from a number.
//! Which command the words of a command line name is not known here.
#![tactic(auto)]

pub mod lines;
pub mod read_whole;
pub mod receive;
pub mod receiver;
pub mod replay;
pub mod replay_lines;
pub mod report;
pub mod soak;
