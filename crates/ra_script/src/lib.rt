//! Scripts, read from text. A script says what happens to two endpoints and the links between them; it is printed and drawn here
//! too. A grand script says what happens to a hub, its clients and the links between them.
//!
//! A line is read and printed here, and never run.
#![tactic(auto)]

pub mod call_line;
pub mod fault;
mod generating;
mod grand_keyword;
pub mod grand_line;
mod grand_reading;
mod grand_rows;
mod grand_words;
mod keyword;
pub mod laws;
pub mod line;
mod printing;
mod reading;
mod rows;
mod script;
mod words;

pub use call_line::{CallLine, read_call_line};
pub use fault::LineFault;
pub use generating::generate;
pub use grand_line::{GrandEvent, GrandLine};
pub use grand_reading::parse_grand;
pub use line::{Line, ScriptFault, What};
pub use printing::print;
pub use reading::parse;
pub use words::number;
