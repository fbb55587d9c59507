//! The endpoint: what it keeps, and what it shows.
ghost use Rattle.std.specs.Prelude.{◌≡◌, ◌≤◌, ◌<◌, ◌^◌, length, drop, max, IfOk};
ghost use Rattle.ra_model.specs.EndpointStates.{StandsFor, IsConsistent};
ghost use Rattle.ra_model.specs.Endpoints.{Endpoint as AbstractEndpoint, new_endpoint, shown};
ghost use Rattle.ra_model.specs.Calls.{wrote};
ghost use Rattle.ra_proto.specs.Shown.{shown_of, emptied, is_ready};

use crate::unwritten::Unwritten;
use ra_base::{Message, Moment, NoMemory};
use ra_frame::FrameReader;
use ra_model::{Phase, Timing};
use ra_queue::Unacked;
use ra_timer::alarms::new_timing;
use std::alloc::Global;
use std::marker::Model;

/// The numbers that two endpoints compare.
#[derive(Clone, Copy, Debug, PartialEq, Eq)]
pub struct Marks {
    /// The last id given.
    pub sent: u64,
    /// The last id handed up.
    pub received: u64,
    /// The highest id that the peer acknowledged.
    pub acknowledged: u64,
}

/// An endpoint of a session. It is seen as what it keeps in memory.
#[derive(Drop)]
pub struct Endpoint {
    pub(crate) phase: Phase,
    pub(crate) epoch: u64,
    pub(crate) sent: u64,
    pub(crate) queue: Unacked,
    pub(crate) received: u64,
    pub(crate) acknowledged: u64,
    pub(crate) told: u64,
    pub(crate) unread: FrameReader,
    pub(crate) unwritten: Unwritten,
    pub(crate) paused: bool,
    pub(crate) keeps_alive: bool,
    pub(crate) timing: Timing,
}

impl Model for Endpoint {
    ghost use Rattle.std.specs.Prelude.{◌≡◌, ◌<◌, ◌^◌};
    ghost use Rattle.ra_model.specs.EndpointStates.{EndpointState, IsConsistent};

    ghost Value = { EndpointState };

    ghost view = { λ e. record { phase = e.phase; epoch = e.epoch; sent = e.sent; queue = e.queue.entries; received = e.received; acknowledged = e.acknowledged; told = e.told; unread = e.unread; unwritten = e.unwritten; paused = e.paused; keeps_alive = e.keeps_alive; timing = e.timing } };

    ghost invariant = { λ e. IsConsistent (record { phase = e.phase; epoch = e.epoch; sent = e.sent; queue = e.queue.entries; received = e.received; acknowledged = e.acknowledged; told = e.told; unread = e.unread; unwritten = e.unwritten; paused = e.paused; keeps_alive = e.keeps_alive; timing = e.timing }) × (e.timing.latest < 2 ^ 53) × (e.timing.heard < 2 ^ 53) };
}

/// The moment of a call: the moments of one endpoint never fall.
pub(crate) fn later(now: Moment, latest: u64) -> u64
    requires { latest < 2 ^ 53 }
    ensures value { result ≡ max now latest }
    ensures bound { result < 2 ^ 53 }
{
    now.millis().max(latest)
}

impl Endpoint {
    /// Both directions of the session start from 0.
    pub fn new(alloc: Global, now: Moment, keep_alive: bool) -> Endpoint
        ensures { StandsFor result (new_endpoint 0 now keep_alive) }
    {
        Endpoint::from_base(alloc, now, keep_alive, 0)
    }

    /// Both directions of the session start from this count.
    pub fn from_base(alloc: Global, now: Moment, keep_alive: bool, base: u64) -> Endpoint
        ensures { StandsFor result (new_endpoint base now keep_alive) }
    {
        Endpoint {
            phase: Phase::Away,
            epoch: 0,
            sent: base,
            queue: Unacked::new(alloc),
            received: base,
            acknowledged: base,
            told: base,
            unread: FrameReader::new(alloc),
            unwritten: Unwritten::new(alloc),
            paused: false,
            keeps_alive: keep_alive,
            timing: new_timing(now.millis()),
        }
    }

    /// Where the endpoint stands.
    pub fn phase(&self) -> Phase
        ensures { result ≡ self.now.phase }
    {
        self.phase
    }

    /// The number of the present link, or of the last one; 0 before the first.
    pub fn epoch(&self) -> u64
        ensures { result ≡ self.now.epoch }
    {
        self.epoch
    }

    /// The last ids given, handed up and acknowledged.
    pub fn marks(&self) -> Marks
        ensures consistent { IsConsistent self.now }
        ensures marks { result ≡ record { sent = self.now.sent; received = self.now.received; acknowledged = self.now.acknowledged } }
    {
        Marks {
            sent: self.sent,
            received: self.received,
            acknowledged: self.acknowledged,
        }
    }

    /// The messages that the peer has not acknowledged.
    pub fn owed(&self) -> &Unacked
        ensures entries { result.now.entries ≡ self.now.queue }
        ensures consistent { IsConsistent self.now }
    {
        &self.queue
    }

    /// Whether `next` has something to answer: a frame, or a fault.
    pub fn ready(&self) -> bool
        ensures { result ≡ is_ready self.now }
    {
        self.phase.is_linked() && self.unread.ready()
    }

    /// An endpoint in the same state.
    pub fn copy(&self, alloc: Global) -> Result<Endpoint, NoMemory>
        ensures { IfOk result (λ endpoint. endpoint ≡ self.now) }
    {
        let queue = self.queue.copy(alloc)?;
        let unread = self.unread.copy(alloc)?;
        let unwritten = self.unwritten.copy(alloc)?;
        Ok(Endpoint {
            phase: self.phase,
            epoch: self.epoch,
            sent: self.sent,
            queue,
            received: self.received,
            acknowledged: self.acknowledged,
            told: self.told,
            unread,
            unwritten,
            paused: self.paused,
            keeps_alive: self.keeps_alive,
            timing: self.timing,
        })
    }

    /// The bytes that may be put on the link: none while paused.
    pub fn out(&self) -> &[u8]
        ensures { result.now ≡ shown_of self.now }
    {
        if self.paused {
            return &[];
        }
        self.unwritten.as_slice()
    }

    /// The first n bytes of `out` were put on the link.
    pub fn wrote(&mut self, n: usize)
        requires { n ≤ length (shown_of self.old) }
        ensures state { self.new ≡ record self.old { unwritten = drop n self.old.unwritten } }
        ensures stands { (e : AbstractEndpoint) → StandsFor self.old e → StandsFor self.new (wrote n e) }
    {
        self.unwritten.advance(n);
    }

    /// All of `out`, which is put on the link.
    pub fn take_out(&mut self) -> Message
        ensures out { result ≡ shown_of self.old }
        ensures state { self.new ≡ emptied self.old }
        ensures stands { (e : AbstractEndpoint) → StandsFor self.old e → StandsFor self.new (wrote (length (shown e)) e) }
    {
        if self.paused {
            return self.unwritten.nothing();
        }
        self.unwritten.take()
    }
}
