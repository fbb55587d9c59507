//! Packets, and the answers to calls.
ghost use Rattle.std.specs.Prelude.{◌≡◌};
ghost use Rattle.ra_ipc.specs.Messages.{is_request};
ghost use Rattle.ra_ipc.specs.View.{message, reply};

use ra_values::{Text, Value};

/// What one end sends the other. Ids are 0 or more, and are given by the client for calls and listens alike.
#[derive(Debug, Drop)]
pub enum Packet {
    /// Code 100, of the client: a call.
    Promise {
        id: i32,
        channel: Text,
        name: Text,
        arg: Value,
    },
    /// Code 101, of the client: the answer of this call is wanted no more.
    PromiseCancel {
        id: i32,
    },
    /// Code 102, of the client: events of this name are wanted.
    EventListen {
        id: i32,
        channel: Text,
        name: Text,
        arg: Value,
    },
    /// Code 103, of the client: the events of this listen are wanted no more.
    EventDispose {
        id: i32,
    },
    /// Code 200, of the server: requests may be sent.
    Initialize,
    /// Code 201, of the server: the call was done.
    PromiseSuccess {
        id: i32,
        body: Value,
    },
    /// Code 202, of the server: the call failed with an error of the language.
    PromiseError {
        id: i32,
        body: Value,
    },
    /// Code 203, of the server: the call failed with any other value.
    PromiseErrorObj {
        id: i32,
        body: Value,
    },
    /// Code 204, of the server: an event for the listen of this id.
    EventFire {
        id: i32,
        body: Value,
    },
}

/// How a call was answered: by PromiseSuccess, PromiseError or PromiseErrorObj.
#[derive(Debug, Drop)]
pub enum Answer {
    Success { body: Value },
    Error { body: Value },
    ErrorObj { body: Value },
}

impl Packet {
    /// Whether it is a packet of the client.
    pub fn is_request(&self) -> bool
        ensures { result ≡ is_request (message self.now) }
    {
        match self {
            Packet::Promise { .. }
            | Packet::PromiseCancel { .. }
            | Packet::EventListen { .. }
            | Packet::EventDispose { .. } => true,
            Packet::Initialize
            | Packet::PromiseSuccess { .. }
            | Packet::PromiseError { .. }
            | Packet::PromiseErrorObj { .. }
            | Packet::EventFire { .. } => false,
        }
    }
}
