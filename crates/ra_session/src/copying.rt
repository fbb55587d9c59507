//! Copies of what passes between a session and an application, and whether two of them are equal.
ghost use Rattle.std.specs.Prelude.{◌≡◌, ◌↔◌, IfOk, IsTrue};

use crate::values::{Tell, Work};
use ra_base::Message;
use ra_chan_server::Fire;
use ra_values::{NoMemory, Text};
use std::alloc::Global;

/// An equal body.
fn body_of(alloc: Global, body: &Message) -> Result<Message, NoMemory>
    ensures { IfOk result (λ copy. copy ≡ body.now) }
{
    Message::copy(alloc, body.as_slice()).map_err(|_| NoMemory)
}

/// An equal event, if there is one.
fn fire_of(alloc: Global, fire: &Option<Fire>) -> Result<Option<Fire>, NoMemory>
    ensures { IfOk result (λ copy. copy ≡ fire.now) }
{
    match fire {
        None => Ok(None),
        Some(fire) => Ok(Some(fire.copy(alloc)?)),
    }
}

/// Whether both are there and equal, or neither.
fn is_same_fire(one: &Option<Fire>, other: &Option<Fire>) -> bool
    ensures { IsTrue result ↔ (one.now ≡ other.now) }
{
    match (one, other) {
        (None, None) => true,
        (Some(one), Some(other)) => one.same(other),
        (None, Some(_)) | (Some(_), None) => false,
    }
}

impl Work {
    /// Equal work.
    pub fn copy(&self, alloc: Global) -> Result<Work, NoMemory>
        ensures { IfOk result (λ w. w ≡ self.now) }
    {
        match self {
            Work::Call {
                id,
                channel,
                name,
                arg,
                cancelled,
            } => Ok(Work::Call {
                id: *id,
                channel: Text::of(alloc, channel.as_str())?,
                name: Text::of(alloc, name.as_str())?,
                arg: arg.copy(alloc)?,
                cancelled: *cancelled,
            }),
            Work::Host { body } => Ok(Work::Host {
                body: body_of(alloc, body)?,
            }),
        }
    }

    /// Whether they are equal.
    pub fn same(&self, other: &Work) -> bool
        ensures { IsTrue result ↔ (self.now ≡ other.now) }
    {
        match (self, other) {
            (
                Work::Call {
                    id,
                    channel,
                    name,
                    arg,
                    cancelled,
                },
                Work::Call {
                    id: i,
                    channel: c,
                    name: n,
                    arg: a,
                    cancelled: m,
                },
            ) => {
                *id == *i
                    && channel.as_str() == c.as_str()
                    && name.as_str() == n.as_str()
                    && arg.same(a)
                    && *cancelled == *m
            }
            (Work::Host { body }, Work::Host { body: b }) => *body == *b,
            (Work::Call { .. }, Work::Host { .. }) | (Work::Host { .. }, Work::Call { .. }) =>
                false,
        }
    }
}

impl Tell {
    /// An equal one.
    pub fn copy(&self, alloc: Global) -> Result<Tell, NoMemory>
        ensures { IfOk result (λ t. t ≡ self.now) }
    {
        match self {
            Tell::Answer { id, answer, fire } => Ok(Tell::Answer {
                id: *id,
                answer: answer.copy(alloc)?,
                fire: fire_of(alloc, fire)?,
            }),
            Tell::Say { body } => Ok(Tell::Say {
                body: body_of(alloc, body)?,
            }),
        }
    }

    /// Whether they are equal.
    pub fn same(&self, other: &Tell) -> bool
        ensures { IsTrue result ↔ (self.now ≡ other.now) }
    {
        match (self, other) {
            (
                Tell::Answer { id, answer, fire },
                Tell::Answer {
                    id: i,
                    answer: a,
                    fire: f,
                },
            ) => *id == *i && answer.same(a) && is_same_fire(fire, f),
            (Tell::Say { body }, Tell::Say { body: b }) => *body == *b,
            (Tell::Answer { .. }, Tell::Say { .. }) | (Tell::Say { .. }, Tell::Answer { .. }) =>
                false,
        }
    }
}
