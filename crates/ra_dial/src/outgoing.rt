//! Bytes that wait to be handed out, as they were put: none is copied.
ghost use Rattle.std.specs.Prelude.{◌≡◌, ◌++◌, ◌+◌, ◌<◌, ◌≤◌, [], OnOk};

use ra_base::{Message, NoMemory};
use std::alloc::Global;
use std::collections::VecDeque;
use std::marker::Model;

/// Bytes that wait to be handed out. A contract sees them as one list, and sees how many more messages find room.
#[derive(Drop)]
pub struct Outgoing {
    pieces: VecDeque<Message>,
    alloc: Global,
}

impl Model for Outgoing {
    ghost use Rattle.std.specs.Prelude.{◌-◌, ◌<◌, All, length};
    ghost use Rattle.std.specs.List.{flat_map};
    ghost use Rattle.std.specs.VecDeque.{deque_len, deque_capacity};
    ghost use Rattle.ra_dial.specs.Queues.{Queue};

    ghost Value = { Queue };

    ghost view = { λ o. record { bytes = flat_map (λ piece. piece) o.pieces.items; room = deque_capacity o.pieces - deque_len o.pieces } };

    ghost invariant = { λ o. All (λ piece. 0 < length piece) o.pieces.items };
}

impl Outgoing {
    /// No bytes. It takes no memory.
    pub fn new(alloc: Global) -> Outgoing
        ensures { result.bytes ≡ [] }
    {
        Outgoing {
            pieces: VecDeque::new(alloc),
            alloc,
        }
    }

    /// Takes room for so many more messages.
    pub fn reserve(&mut self, messages: usize) -> Result<(), NoMemory>
        ensures bytes { self.new.bytes ≡ self.old.bytes }
        ensures room { OnOk result (messages ≤ self.new.room) }
    {
        self.pieces.reserve(messages)?;
        Ok(())
    }

    /// Puts a message behind the others, where there is room for it.
    pub fn put(&mut self, message: Message)
        requires { 0 < self.old.room }
        ensures bytes { self.new.bytes ≡ self.old.bytes ++ message }
        ensures room { self.old.room ≤ self.new.room + 1 }
    {
        if message.is_empty() {
            return;
        }
        let Ok(()) = self.pieces.push_back(message) else {
            unreachable!();
        };
    }

    /// Discards all.
    pub fn clear(&mut self)
        ensures { self.new.bytes ≡ [] }
    {
        self.pieces.clear();
    }

    /// The first message, or no bytes where there is none.
    pub fn take(&mut self) -> Message
        ensures front { self.old.bytes ≡ result ++ self.new.bytes }
        ensures none { result ≡ [] → self.old.bytes ≡ [] }
    {
        match self.pieces.pop_front() {
            Some(message) => message,
            None => Message::empty(self.alloc),
        }
    }
}
