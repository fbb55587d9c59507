//! What a server hands out, and what it is given to fire.
ghost use Rattle.std.specs.Prelude.{◌≡◌, ◌↔◌, IfOk, IsTrue};

use ra_values::{NoMemory, Text, Value};
use std::alloc::Global;

/// A call for the application.
#[derive(Debug, Drop)]
pub struct Call {
    pub id: i32,
    pub channel: Text,
    pub name: Text,
    pub arg: Value,
    /// Whether it was cancelled while it waited for its channel.
    pub cancelled: bool,
}

/// An event for each listener of this name on the channel.
#[derive(Debug, Drop)]
pub struct Fire {
    pub channel: Text,
    pub event: Text,
    pub body: Value,
}

impl Fire {
    /// An equal event.
    pub fn copy(&self, alloc: Global) -> Result<Fire, NoMemory>
        ensures { IfOk result (λ f. f ≡ self.now) }
    {
        Ok(Fire {
            channel: Text::of(alloc, self.channel.as_str())?,
            event: Text::of(alloc, self.event.as_str())?,
            body: self.body.copy(alloc)?,
        })
    }

    /// Whether they are equal.
    pub fn same(&self, other: &Fire) -> bool
        ensures { IsTrue result ↔ (self.now ≡ other.now) }
    {
        self.channel.as_str() == other.channel.as_str()
            && self.event.as_str() == other.event.as_str()
            && self.body.same(&other.body)
    }
}
