//! The heads by which a connection goes over to the protocol: HTTP/1.1 upgrade requests and their answers, read and written by each
//! side.
//!
//! Nothing is known here of frames, of the handshake that follows, or of who may connect.
#![tactic(auto)]

pub mod answer_head;
pub mod client_request;
mod ends;
mod fields;
pub mod laws;
mod query;
pub mod request_head;
pub mod server_answer;

pub use answer_head::{AnswerFault, read_answer};
pub use client_request::request;
pub use request_head::{HeadFault, Upgrade, read_head};
pub use server_answer::{answer, refusal};
