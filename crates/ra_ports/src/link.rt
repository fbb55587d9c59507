//! Connections that carry bytes both ways: the trait, and sending a whole text.
ghost use Rattle.std.specs.Prelude.{◌≡◌, ◌<◌, ◌≤◌, ℕ, List, [], Option, Some, true, length, take, IfOk, OnOk, OnErr, Ok, Err};
ghost use Rattle.std.specs.Io.{WritesAtMost};
ghost use Rattle.ra_ports.specs.Causes.{HasCause, MakesProgress, Rose, next_count};
ghost use Rattle.ra_ports.specs.declared.link.LinkFault.TheVariants.{NoMemory as OutOfMemory};
ghost use Rattle.ra_ports.specs.Links.{Incoming, Takes, Sends, SendsFront, StartsPayload, IsHanded, IsPiece, got_bytes, has_ended};

use crate::Failed;
use ra_base::{Message, NoMemory};
use std::alloc::AllocError;

/// What a link gave.
#[derive(Clone, Copy, Debug, PartialEq, Eq)]
pub enum Got {
    /// The first `n` bytes of the buffer, at least one.
    Bytes { n: usize },
    /// Nothing is there yet.
    NotYet,
    /// Nothing more comes.
    End,
}

/// Why a link could not go over to frames.
#[derive(Clone, Copy, Debug, PartialEq, Eq)]
pub enum LinkFault {
    /// Its count of faults rose.
    Failed,
    NoMemory,
}

impl From<NoMemory> for LinkFault {
    ghost from_gives = { λ _ fault. fault ≡ OutOfMemory };

    fn from(_: NoMemory) -> LinkFault {
        LinkFault::NoMemory
    }
}

impl From<AllocError> for LinkFault {
    ghost from_gives = { λ _ fault. fault ≡ OutOfMemory };

    fn from(_: AllocError) -> LinkFault {
        LinkFault::NoMemory
    }
}

/// How a link went over to frames.
#[derive(Debug, Drop)]
pub struct Framing {
    /// How many bytes were sent before.
    pub sent: usize,
    /// The front of the framed stream that was read before.
    pub rest: Message,
}

/// A connection that carries bytes both ways.
pub trait Link {
    // What is to come. Its counters of 64 bits stay at their last value.
    ghost incoming: { Self → Incoming };

    // The bytes that were sent, where the link tells.
    ghost sent: { Self → Option (List ℕ) };

    // How often the link has failed. A counter of 64 bits stays at its last value.
    ghost faults: { Self → ℕ };

    /// Fills a front of `into` with the next bytes, at least one, or says that nothing is there yet, or that nothing more comes. Once
    /// it has said so it never gives bytes again. What was sent stays. It fails only where the count of faults rose, and then
    /// takes nothing.
    fn recv(&mut self, into: &mut [u8]) -> Result<Got, Failed>
        requires { 0 < length into.old }
        ensures piece { IsPiece result into.new }
        ensures bytes { Takes (incoming self.old).left (incoming self.new).left (got_bytes result into.new) }
        ensures nothing { result ≡ Ok Got.End → (text : List ℕ) → (incoming self.old).left ≡ Some text → text ≡ [] }
        ensures ended { (incoming self.new).ended ≡ has_ended (incoming self.old).ended result }
        ensures over { (incoming self.old).ended ≡ true → IfOk result (λ got. got ≡ Got.End) }
        ensures idle { result ≡ Ok Got.NotYet → Rose (incoming self.old).idles (incoming self.new).idles }
        ensures idles { (incoming self.old).idles ≤ (incoming self.new).idles }
        ensures counted { (incoming self.new).receives ≡ next_count (incoming self.old).receives }
        ensures room { (incoming self.new).room ≡ length into.old }
        ensures payload { (incoming self.new).payload ≡ (incoming self.old).payload }
        ensures framed { (incoming self.new).framed ≡ (incoming self.old).framed }
        ensures keeps { sent self.new ≡ sent self.old }
        ensures cause { HasCause (faults self.old) (faults self.new) result };

    /// Sends a front of the piece, and answers how many bytes: at least one where the piece isn't empty. What is to come stays.
    /// It fails only where the count of faults rose, and then sends nothing.
    fn send(&mut self, piece: &[u8]) -> Result<usize, Failed>
        ensures bound { WritesAtMost result piece.now }
        ensures progress { MakesProgress result piece.now }
        ensures ok { IfOk result (λ n. Sends (sent self.old) (sent self.new) (take n piece.now)) }
        ensures err { OnErr result (sent self.new ≡ sent self.old) }
        ensures keeps { incoming self.new ≡ incoming self.old }
        ensures cause { HasCause (faults self.old) (faults self.new) result };

    /// From here on the bytes are those of a framed stream's payload, and `rest` is the front of that stream that was read already: a
    /// link that tells gives it first. What was sent stays. It answers `Failed` only where the count of faults rose.
    fn go_framed(&mut self, rest: &[u8]) -> Result<(), LinkFault>
        ensures payload { OnOk result (StartsPayload (incoming self.old) (incoming self.new) rest.now) }
        ensures handed { OnOk result (IsHanded (sent self.old) (incoming self.new) rest.now) }
        ensures unframed { OnErr result ((incoming self.new).framed ≡ (incoming self.old).framed) }
        ensures ended { (incoming self.new).ended ≡ (incoming self.old).ended }
        ensures receives { (incoming self.new).receives ≡ (incoming self.old).receives }
        ensures room { (incoming self.new).room ≡ (incoming self.old).room }
        ensures idles { (incoming self.old).idles ≤ (incoming self.new).idles }
        ensures keeps { sent self.new ≡ sent self.old }
        ensures later { faults self.old ≤ faults self.new }
        ensures cause { result ≡ Err LinkFault.Failed → Rose (faults self.old) (faults self.new) };
}

/// Sends all the bytes, by as many calls as it takes. After a fault a front of them was sent. What is to come stays.
pub fn send_all<L: Link>(link: &mut L, bytes: &[u8]) -> Result<(), Failed>
    ensures ok { OnOk result (Sends (L.sent link.old) (L.sent link.new) bytes.now) }
    ensures err { OnErr result (SendsFront (L.sent link.old) (L.sent link.new) bytes.now) }
    ensures keeps { L.incoming link.new ≡ L.incoming link.old }
    ensures cause { HasCause (L.faults link.old) (L.faults link.new) result }
{
    let mut at = 0;
    while at < bytes.len() {
        at += link.send(&bytes[at..])?;
    }
    Ok(())
}
