//! Copies of packets and answers.
ghost use Rattle.std.specs.Prelude.{◌≡◌, IfOk};

use crate::packet::{Answer, Packet};
use ra_values::{NoMemory, Text};
use std::alloc::Global;

impl Packet {
    /// An equal packet.
    pub fn copy(&self, alloc: Global) -> Result<Packet, NoMemory>
        ensures { IfOk result (λ p. p ≡ self.now) }
    {
        match self {
            Packet::Promise {
                id,
                channel,
                name,
                arg,
            } => Ok(Packet::Promise {
                id: *id,
                channel: Text::of(alloc, channel.as_str())?,
                name: Text::of(alloc, name.as_str())?,
                arg: arg.copy(alloc)?,
            }),
            Packet::PromiseCancel { id } => Ok(Packet::PromiseCancel { id: *id }),
            Packet::EventListen {
                id,
                channel,
                name,
                arg,
            } => Ok(Packet::EventListen {
                id: *id,
                channel: Text::of(alloc, channel.as_str())?,
                name: Text::of(alloc, name.as_str())?,
                arg: arg.copy(alloc)?,
            }),
            Packet::EventDispose { id } => Ok(Packet::EventDispose { id: *id }),
            Packet::Initialize => Ok(Packet::Initialize),
            Packet::PromiseSuccess { id, body } => Ok(Packet::PromiseSuccess {
                id: *id,
                body: body.copy(alloc)?,
            }),
            Packet::PromiseError { id, body } => Ok(Packet::PromiseError {
                id: *id,
                body: body.copy(alloc)?,
            }),
            Packet::PromiseErrorObj { id, body } => Ok(Packet::PromiseErrorObj {
                id: *id,
                body: body.copy(alloc)?,
            }),
            Packet::EventFire { id, body } => Ok(Packet::EventFire {
                id: *id,
                body: body.copy(alloc)?,
            }),
        }
    }
}

impl Answer {
    /// An equal answer.
    pub fn copy(&self, alloc: Global) -> Result<Answer, NoMemory>
        ensures { IfOk result (λ a. a ≡ self.now) }
    {
        match self {
            Answer::Success { body } => Ok(Answer::Success {
                body: body.copy(alloc)?,
            }),
            Answer::Error { body } => Ok(Answer::Error {
                body: body.copy(alloc)?,
            }),
            Answer::ErrorObj { body } => Ok(Answer::ErrorObj {
                body: body.copy(alloc)?,
            }),
        }
    }
}
