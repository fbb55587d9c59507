//! The lines of a grand script: what may happen to a hub, its clients and the links between them.
//!
//! Clients, links and waiting jobs are numbered from 1.
use ra_base::{Count, Key, Message};
use ra_values::{Bytes, Text};

/// What may happen to a hub, its clients and the links between them.
#[derive(Drop)]
pub enum GrandEvent {
    /// The moment, in milliseconds. A lower one counts as the last.
    At {
        now: u64,
    },
    /// A client is made, which dials for the session of this key.
    Client {
        key: Key,
    },
    /// A tick of the client's dialer.
    Step {
        client: u64,
    },
    /// The client's attempt succeeds: a link is made.
    Linked {
        client: u64,
    },
    /// The client's attempt fails.
    NoLink {
        client: u64,
    },
    /// Bytes of the client on a link come to the server, as one piece.
    Up {
        link: u64,
        count: Count,
    },
    /// An empty piece at the server.
    Idle {
        link: u64,
    },
    /// Bytes of the server on a link come to the client.
    Down {
        link: u64,
        count: Count,
    },
    /// The client's dialer takes one frame.
    Frame {
        client: u64,
    },
    /// No more bytes pass on a link, either way.
    Cut {
        link: u64,
    },
    /// The server's end of a link is left.
    Gone {
        link: u64,
    },
    /// The client's dialer hears that its link is lost.
    Lost {
        client: u64,
    },
    /// A tick of the hub.
    Sweep,
    /// A waiting job is done.
    Work {
        job: u64,
    },
    /// A call with a buffer.
    Call {
        client: u64,
        channel: Text,
        name: Text,
        arg: Bytes,
    },
    /// A call with a text.
    CallText {
        client: u64,
        channel: Text,
        name: Text,
        arg: Text,
    },
    /// A listener, with no argument.
    Listen {
        client: u64,
        channel: Text,
        name: Text,
    },
    /// The cancel of a call.
    Cancel {
        client: u64,
        id: i32,
    },
    /// The end of a listener.
    Dispose {
        client: u64,
        id: i32,
    },
    /// A message of an extension host's client.
    Say {
        client: u64,
        body: Message,
    },
    /// The client's dialer is stopped.
    Stop {
        client: u64,
    },
}

/// A line of a grand script.
#[derive(Drop)]
pub enum GrandLine {
    /// One event.
    Do { event: GrandEvent },
    /// Frames of this client, until its dialer has none left to take, rests, drops its link or is over.
    Drain { client: u64 },
}
