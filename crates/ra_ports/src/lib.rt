//! The outside as traits: a source of bytes and a sink of bytes, with counts of their faults, their memory forms and their
//! adapters over std's readers and writers; links, which carry bytes both ways, and clocks, with their memory forms; drawn bytes,
//! with their memory form; and a signer of texts.
//!
//! A trait tells what it holds where it can, and clauses on content hold where it is told. Nothing of the protocol is here.
#![tactic(auto)]

pub mod clock;
pub mod entropy;
pub mod laws;
pub mod link;
pub mod link_step;
pub mod mem_clock;
pub mod mem_entropy;
pub mod mem_link;
pub mod mem_sink;
pub mod mem_source;
pub mod signer;
pub mod sink;
pub mod source;

pub use clock::Clock;
pub use entropy::Entropy;
pub use link::{Framing, Got, Link, LinkFault, send_all};
pub use link_step::LinkStep;
pub use mem_clock::MemClock;
pub use mem_entropy::MemEntropy;
pub use mem_link::MemLink;
pub use mem_sink::MemSink;
pub use mem_source::MemSource;
pub use signer::Signer;
pub use sink::{Sink, StdSink, write_all};
pub use source::{Source, StdSource};

/// A call of the outside failed, and its count of faults rose.
#[derive(Clone, Copy, Debug, PartialEq, Eq)]
pub struct Failed;
