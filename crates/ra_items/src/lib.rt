//! The items of what comes on a link, in whatever pieces: its head, and then its frames, each with its place in the text.
//!
//! It serves both ends: a server reads an upgrade request as the head, and a client the answer to its own. What the items mean is not
//! known here.
#![tactic(auto)]

pub mod laws;
pub mod reader;

pub use reader::ItemReader;
