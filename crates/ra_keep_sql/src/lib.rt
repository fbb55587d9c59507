//! Records of acceptances in a table of `sqlite`: a keeper over memory, a file, or any connection.
//!
//! The keeper tells the list of its table where the disk has returned what was written so far and the connection is open. Who is admitted is not
//! decided here.
#![tactic(auto)]

mod calls;
mod open_fault;
mod read;
mod shape;
mod sql_keeper;
mod statements;

pub use open_fault::OpenFault;
pub use sql_keeper::{Refused, SqlKeeper};
