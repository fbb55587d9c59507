//! The commands of the program that need no socket: the words that name them, and `run_plain`, which runs them over any source and sink.
#![tactic(auto)]

pub mod command;
pub mod grand;
pub mod grand_lines;
pub mod plain;

pub use plain::run_plain;
