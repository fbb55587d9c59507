//! Whether two packets, or two answers, are equal.
ghost use Rattle.std.specs.Prelude.{◌≡◌, ◌↔◌, IsTrue};

use crate::packet::{Answer, Packet};

impl Packet {
    /// Whether the packets are equal. It takes no memory.
    pub fn same(&self, other: &Packet) -> bool
        ensures { IsTrue result ↔ (self.now ≡ other.now) }
    {
        match (self, other) {
            (
                Packet::Promise {
                    id,
                    channel,
                    name,
                    arg,
                },
                Packet::Promise {
                    id: other,
                    channel: c,
                    name: n,
                    arg: a,
                },
            ) => id == other
                && channel.as_str() == c.as_str()
                && name.as_str() == n.as_str()
                && arg.same(a),
            (Packet::PromiseCancel { id }, Packet::PromiseCancel { id: other }) => id == other,
            (
                Packet::EventListen {
                    id,
                    channel,
                    name,
                    arg,
                },
                Packet::EventListen {
                    id: other,
                    channel: c,
                    name: n,
                    arg: a,
                },
            ) => id == other
                && channel.as_str() == c.as_str()
                && name.as_str() == n.as_str()
                && arg.same(a),
            (Packet::EventDispose { id }, Packet::EventDispose { id: other }) => id == other,
            (Packet::Initialize, Packet::Initialize) => true,
            (Packet::PromiseSuccess { id, body }, Packet::PromiseSuccess { id: other, body: b }) =>
                id == other && body.same(b),
            (Packet::PromiseError { id, body }, Packet::PromiseError { id: other, body: b }) => id
                == other
                && body.same(b),
            (
                Packet::PromiseErrorObj { id, body },
                Packet::PromiseErrorObj { id: other, body: b },
            ) => id == other && body.same(b),
            (Packet::EventFire { id, body }, Packet::EventFire { id: other, body: b }) => id
                == other
                && body.same(b),
            _ => false,
        }
    }
}

impl Answer {
    /// Whether the answers are equal. It takes no memory.
    pub fn same(&self, other: &Answer) -> bool
        ensures { IsTrue result ↔ (self.now ≡ other.now) }
    {
        match (self, other) {
            (Answer::Success { body }, Answer::Success { body: b }) => body.same(b),
            (Answer::Error { body }, Answer::Error { body: b }) => body.same(b),
            (Answer::ErrorObj { body }, Answer::ErrorObj { body: b }) => body.same(b),
            _ => false,
        }
    }
}
