//! A link in memory, for tests and for runs that must be the same each time.
ghost use Rattle.std.specs.Prelude.{◌≡◌, ◌<◌, ◌≤◌, ◌++◌, ℕ, List, [], Some, true, length, take, All, IfOk, IfErr, IsOk, OnOk, OnErr, Ok};
ghost use Rattle.std.specs.Io.{WritesAtMost};
ghost use Rattle.ra_ports.specs.Causes.{HasCause, MakesProgress, Rose, next_count};
ghost use Rattle.ra_ports.specs.Links.{Takes, StartsPayload, IsHanded, IsPiece, got_bytes, has_ended};
ghost use Rattle.ra_ports.specs.LinkSteps.{IsFilled};
ghost use Rattle.ra_ports.specs.LinkScripts.{new_link, piece_of};

use crate::Failed;
use crate::link::{Framing, Got, Link, LinkFault};
use crate::link_step::{LinkStep, give};
use ra_base::{Message, NoMemory};
use std::alloc::Global;
use std::marker::Model;
use std::mem;

/// A link in memory, which gives its steps one after another, keeps all that is sent, and fails at listed calls. One `recv` gives
/// at most the rest of one piece. Past its last step it answers the end, and then for good. A `send` that finds no room fails too.
#[derive(Drop)]
pub struct MemLink {
    alloc: Global,
    steps: Vec<LinkStep>,
    after: Vec<LinkStep>,
    framed: Option<Framing>,
    at: usize,
    from: usize,
    ended: bool,
    sent: Vec<u8>,
    failing: Vec<u64>,
    calls: u64,
    receives: u64,
    room: usize,
    faults: u64,
    idles: u64,
    short: u64,
}

impl Model for MemLink {
    ghost use Rattle.std.specs.Prelude.{◌≤◌};
    ghost use Rattle.ra_ports.specs.LinkScripts.{LinkScript, IsLinkPlace};
    ghost use Rattle.ra_ports.specs.LinkSteps.{steps_left};

    ghost Value = { LinkScript };

    ghost view = { λ l. record {
      steps = steps_left l.steps.items l.at l.from;
      after = l.after.items;
      framed = l.framed;
      ended = l.ended;
      sent = l.sent.items;
      failing = l.failing.items;
      calls = l.calls;
      receives = l.receives;
      room = l.room;
      faults = l.faults;
      idles = l.idles;
      short = l.short;
    } };

    ghost invariant = { λ l. IsLinkPlace l.steps.items l.after.items l.at l.from l.ended };
}

/// A copy of these bytes, which takes memory only where there are some.
fn copy_rest(alloc: Global, rest: &[u8]) -> Result<Message, NoMemory>
    ensures copied { IfOk result (λ message. message ≡ rest.now) }
    ensures none { rest.now ≡ [] → IsOk result }
{
    if rest.is_empty() {
        return Ok(Message::empty(alloc));
    }
    Message::copy(alloc, rest)
}

/// Puts these bytes before the steps, as one piece, where there are some.
fn put_first(alloc: Global, steps: &mut Vec<LinkStep>, rest: &[u8]) -> Result<(), NoMemory>
    requires { All IsFilled steps.old.items }
    ensures put { OnOk result (steps.new.items ≡ piece_of rest.now ++ steps.old.items) }
    ensures filled { All IsFilled steps.new.items }
    ensures same { OnErr result (steps.new.items ≡ steps.old.items) }
    ensures none { rest.now ≡ [] → IsOk result }
{
    if rest.is_empty() {
        return Ok(());
    }
    let bytes = Message::copy(alloc, rest)?;
    steps.insert(0, LinkStep::Piece { bytes })?;
    Ok(())
}

impl MemLink {
    /// A link that gives the steps of `before` until it goes over to frames, and those of `after` from then on. No piece is empty.
    /// The calls of `recv` and `send` with the numbers in `failing`, counted together and from 1, fail.
    pub fn new(
        alloc: Global,
        before: Vec<LinkStep>,
        after: Vec<LinkStep>,
        failing: Vec<u64>,
    ) -> MemLink
        requires before { All IsFilled before.items }
        requires after { All IsFilled after.items }
        ensures { result ≡ new_link before.items after.items failing.items }
    {
        MemLink {
            alloc,
            steps: before,
            after,
            framed: None,
            at: 0,
            from: 0,
            ended: false,
            sent: Vec::new(alloc),
            failing,
            calls: 0,
            receives: 0,
            room: 0,
            faults: 0,
            idles: 0,
            short: 0,
        }
    }

    /// All that was sent.
    pub fn sent(&self) -> &[u8]
        ensures { result.now ≡ self.now.sent }
    {
        self.sent.as_slice()
    }

    /// How often it failed.
    pub fn faults(&self) -> u64
        ensures { result ≡ self.now.faults }
    {
        self.faults
    }

    /// How many of the faults were for want of room.
    pub fn short(&self) -> u64
        ensures { result ≡ self.now.short }
    {
        self.short
    }
}

impl Link for MemLink {
    ghost use Rattle.ra_ports.specs.LinkScripts.{incoming_of, framed_link, GivesAsListed, SendsAsListed};
    ghost use Rattle.ra_ports.specs.declared.link.LinkFault.TheVariants.{NoMemory as OutOfMemory};

    ghost incoming = { incoming_of };

    ghost sent = { λ l. Some l.sent };

    ghost faults = { λ l. l.faults };

    fn recv(&mut self, into: &mut [u8]) -> Result<Got, Failed>
        requires { 0 < length into.old }
        ensures piece { IsPiece result into.new }
        ensures bytes { Takes (incoming_of self.old).left (incoming_of self.new).left (got_bytes result into.new) }
        ensures nothing { result ≡ Ok Got.End → (text : List ℕ) → (incoming_of self.old).left ≡ Some text
            → text ≡ [] }
        ensures ended { self.new.ended ≡ has_ended self.old.ended result }
        ensures over { self.old.ended ≡ true → IfOk result (λ got. got ≡ Got.End) }
        ensures idle { result ≡ Ok Got.NotYet → Rose self.old.idles self.new.idles }
        ensures idles { self.old.idles ≤ self.new.idles }
        ensures counted { self.new.receives ≡ next_count self.old.receives }
        ensures room { self.new.room ≡ length into.old }
        ensures payload { (incoming_of self.new).payload ≡ (incoming_of self.old).payload }
        ensures framed { self.new.framed ≡ self.old.framed }
        ensures keeps { self.new.sent ≡ self.old.sent }
        ensures cause { HasCause self.old.faults self.new.faults result }
        ensures listed { GivesAsListed self.old self.new (length into.new) result }
    {
        self.calls = self.calls.saturating_add(1);
        self.receives = self.receives.saturating_add(1);
        self.room = into.len();
        if self.failing.contains(&self.calls) {
            self.faults = self.faults.saturating_add(1);
            return Err(Failed);
        }
        let given = give(&self.steps, self.at, self.from, into);
        self.at = given.at;
        self.from = given.from;
        match given.answer {
            Ok(Got::Bytes { n: _ }) => {}
            Ok(Got::NotYet) => self.idles = self.idles.saturating_add(1),
            Ok(Got::End) => self.ended = true,
            Err(_) => self.faults = self.faults.saturating_add(1),
        }
        given.answer
    }

    fn send(&mut self, piece: &[u8]) -> Result<usize, Failed>
        ensures bound { WritesAtMost result piece.now }
        ensures progress { MakesProgress result piece.now }
        ensures ok { IfOk result (λ n. self.new.sent ≡ self.old.sent ++ take n piece.now) }
        ensures err { OnErr result (self.new.sent ≡ self.old.sent) }
        ensures keeps { incoming_of self.new ≡ incoming_of self.old }
        ensures cause { HasCause self.old.faults self.new.faults result }
        ensures whole { IfOk result (λ n. n ≡ length piece.now) }
        ensures listed { SendsAsListed self.old self.new piece.now result }
    {
        self.calls = self.calls.saturating_add(1);
        if self.failing.contains(&self.calls) {
            self.faults = self.faults.saturating_add(1);
            return Err(Failed);
        }
        if self.sent.extend_from_slice(piece).is_err() {
            self.short = self.short.saturating_add(1);
            self.faults = self.faults.saturating_add(1);
            return Err(Failed);
        }
        Ok(piece.len())
    }

    /// It fails only for want of memory, and only where `rest` is not empty; it is then as it was. A link that has ended gives
    /// nothing more.
    fn go_framed(&mut self, rest: &[u8]) -> Result<(), LinkFault>
        ensures state { OnOk result (self.new ≡ framed_link self.old rest.now) }
        ensures same { OnErr result (self.new ≡ self.old) }
        ensures fails { IfErr result (λ fault. fault ≡ OutOfMemory) }
        ensures works { rest.now ≡ [] → IsOk result }
        ensures payload { OnOk result (StartsPayload (incoming_of self.old) (incoming_of self.new) rest.now) }
        ensures handed { OnOk result (IsHanded (Some self.old.sent) (incoming_of self.new) rest.now) }
        ensures unframed { OnErr result (self.new.framed ≡ self.old.framed) }
        ensures ended { self.new.ended ≡ self.old.ended }
        ensures receives { self.new.receives ≡ self.old.receives }
        ensures room { self.new.room ≡ self.old.room }
        ensures idles { self.old.idles ≤ self.new.idles }
        ensures keeps { self.new.sent ≡ self.old.sent }
        ensures later { self.old.faults ≤ self.new.faults }
    {
        let framing = Framing {
            sent: self.sent.len(),
            rest: copy_rest(self.alloc, rest)?,
        };
        if !self.ended {
            put_first(self.alloc, &mut self.after, rest)?;
            self.steps = mem::replace(&mut self.after, Vec::new(self.alloc));
            self.at = 0;
            self.from = 0;
        }
        self.framed = Some(framing);
        Ok(())
    }
}
