//! An endpoint with the messages that it said and heard.
ghost use Rattle.std.specs.Prelude.{◌≡◌, ◌≤◌, ◌+◌, length, drop, true, Some, None, OnErr};
ghost use Rattle.ra_model.specs.Calls.{say, feed, wrote, tick, times_out, lose};
ghost use Rattle.ra_model.specs.Worlds.{Peer as AbstractPeer};
ghost use Rattle.ra_model.specs.Events.{begun, taken, handed_up};
ghost use Rattle.ra_model.specs.Taking.{delivery};
ghost use Rattle.ra_model.specs.Endpoints.{Endpoint as AbstractEndpoint, sent};
ghost use Rattle.ra_model.specs.EndpointStates.{StandsFor};
ghost use Rattle.ra_model.specs.Views.{new_peer, called};
ghost use Rattle.ra_model.specs.Refusals.{at_end, begin_refusal, feed_refusal, take_fault, take_refusal, say_refusal};
ghost use Rattle.ra_proto.specs.Coming.{IsNextMessage, is_no_message};
ghost use Rattle.ra_proto.specs.Shown.{shown_of};
ghost use Rattle.ra_world.specs.EndEvents.{end_refusal, end_happens, end_effect};
ghost use Rattle.ra_world.specs.Outcomes.{Answers, event_fault, done_of};
ghost use Rattle.ra_world.specs.WorldStates.{StandsForPeer};

use ra_base::{Event, Message, Moment};
use ra_model::{Effect, EndFault, EventFault, Up};
use ra_proto::{Coming, Endpoint, NextMessage};
use std::alloc::Global;
use std::marker::Model;

/// The fault of an event whose end refuses.
fn fault_of(fault: EndFault) -> EventFault
    ensures { result ≡ event_fault fault }
{
    match fault {
        EndFault::NoMemory => EventFault::NoMemory,
        fault => EventFault::End { fault },
    }
}

/// The answer of a call that has nothing to tell.
fn done<T: Drop>(called: Result<T, EndFault>) -> Result<Effect, EventFault>
    ensures { result ≡ done_of called }
{
    match called {
        Ok(_) => Ok(Effect::Done),
        Err(fault) => Err(fault_of(fault)),
    }
}

/// What is handed up, as an effect.
fn effect_of(up: Option<Up>) -> Effect
    ensures { result ≡ handed_up up }
{
    match up {
        Some(up) => Effect::Up { up },
        None => Effect::Nothing,
    }
}

/// An endpoint with the messages that it said, and those that it handed up.
#[derive(Drop)]
pub(crate) struct Peer {
    pub(crate) endpoint: Endpoint,
    pub(crate) said: Vec<Message>,
    pub(crate) heard: Vec<Message>,
}

impl Model for Peer {
    ghost use Rattle.ra_world.specs.WorldStates.{PeerState};

    ghost Value = { PeerState };

    ghost view = { λ p. record { endpoint = p.endpoint; said = p.said.items; heard = p.heard.items } };
}

impl Peer {
    pub(crate) fn new(alloc: Global, keep_alive: bool, base: u64) -> Peer
        ensures { StandsForPeer result (new_peer base 0 keep_alive) }
    {
        Peer {
            endpoint: Endpoint::from_base(alloc, Moment::start(), keep_alive, base),
            said: Vec::new(alloc),
            heard: Vec::new(alloc),
        }
    }

    fn say(&mut self, body: &Message, now: Moment) -> Result<Effect, EventFault>
        ensures does { (p : AbstractPeer) → StandsForPeer self.old p → Answers result (at_end (say_refusal body.now p.endpoint)) (Effect.Said (sent p.endpoint + 1)) (StandsForPeer self.new (called (say body.now now) p)) }
        ensures err { OnErr result (self.new ≡ self.old) }
    {
        let alloc = *self.said.allocator();
        let kept = Message::copy(alloc, body.as_slice())?;
        let said = Message::copy(alloc, body.as_slice())?;
        self.said.reserve(1)?;
        match self.endpoint.say(said, now) {
            Ok(id) => {
                self.said.push(kept).unwrap();
                Ok(Effect::Said { id })
            }
            Err(refused) => Err(fault_of(refused.fault)),
        }
    }

    /// The next message is heard.
    fn hear(&mut self, next: NextMessage, now: Moment) -> Result<Effect, EventFault>
        requires next { IsNextMessage next.id next.ack next.len self.old.endpoint }
        requires handed { (e : AbstractEndpoint) → StandsFor self.old.endpoint e → delivery e ≡ Some (Up.Message next.id next.body) }
        requires free { take_fault self.old.endpoint.phase self.old.endpoint.unread ≡ None }
        ensures does { (p : AbstractPeer) → StandsForPeer self.old p → Answers result (at_end (take_refusal p.endpoint)) (handed_up (delivery p.endpoint)) (StandsForPeer self.new (taken now p)) }
        ensures err { OnErr result (self.new ≡ self.old) }
    {
        let kept = Message::copy(*self.heard.allocator(), next.body.as_slice())?;
        self.heard.reserve(1)?;
        self.endpoint.take_message(next.id, next.ack, next.len, now);
        self.heard.push(kept).unwrap();
        Ok(Effect::Up {
            up: Up::Message {
                id: next.id,
                body: next.body,
            },
        })
    }

    /// The next frame, which is no message to be heard, is applied.
    fn take_other(&mut self, now: Moment) -> Result<Effect, EventFault>
        requires { (e : AbstractEndpoint) → StandsFor self.old.endpoint e → is_no_message (delivery e) ≡ true }
        ensures does { (p : AbstractPeer) → StandsForPeer self.old p → Answers result (at_end (take_refusal p.endpoint)) (handed_up (delivery p.endpoint)) (StandsForPeer self.new (taken now p)) }
        ensures err { OnErr result (self.new ≡ self.old) }
    {
        let up = match self.endpoint.next(now) {
            Ok(up) => up,
            Err(fault) => return Err(fault_of(fault)),
        };
        Ok(effect_of(up))
    }

    fn take(&mut self, now: Moment) -> Result<Effect, EventFault>
        ensures does { (p : AbstractPeer) → StandsForPeer self.old p → Answers result (at_end (take_refusal p.endpoint)) (handed_up (delivery p.endpoint)) (StandsForPeer self.new (taken now p)) }
        ensures err { OnErr result (self.new ≡ self.old) }
    {
        match self.endpoint.peek() {
            Ok(Coming::Nothing) => Ok(Effect::Nothing),
            Ok(Coming::Other) => self.take_other(now),
            Ok(Coming::Message { message }) => self.hear(message, now),
            Err(fault) => Err(fault_of(fault)),
        }
    }

    fn tick(&mut self, now: Moment) -> Result<Effect, EventFault>
        ensures does { (p : AbstractPeer) → StandsForPeer self.old p → Answers result None (Effect.Ticked (times_out now p.endpoint)) (StandsForPeer self.new (called (tick now) p)) }
        ensures err { OnErr result (self.new ≡ self.old) }
    {
        let Ok(ticked) = self.endpoint.tick(now) else {
            return Err(EventFault::NoMemory);
        };
        Ok(Effect::Ticked {
            timed_out: ticked.timed_out,
        })
    }

    /// The present link is lost, where there is one.
    fn lose(&mut self)
        ensures { (p : AbstractPeer) → StandsForPeer self.old p → StandsForPeer self.new (called (lose p.endpoint.epoch) p) }
    {
        let present = self.endpoint.epoch();
        self.endpoint.lose_link(present);
    }

    /// An event of this end alone. Other events change nothing here.
    pub(crate) fn apply(&mut self, event: &Event, now: Moment) -> Result<Effect, EventFault>
        ensures does { (p : AbstractPeer) → StandsForPeer self.old p → Answers result (end_refusal event.now p) (end_effect event.now now p) (StandsForPeer self.new (end_happens event.now now p)) }
        ensures err { OnErr result (self.new ≡ self.old) }
    {
        match event {
            Event::Finish { side: _ } => done(self.endpoint.end_link(now)),
            Event::Say { side: _, body } => self.say(body, now),
            Event::Control { side: _, body } => done(self.endpoint.control(body.as_slice())),
            Event::Pause { side: _ } => done(self.endpoint.ask_pause()),
            Event::Resume { side: _ } => done(self.endpoint.ask_resume()),
            Event::Leave { side: _ } => done(self.endpoint.disconnect()),
            Event::Take { side: _ } => self.take(now),
            Event::Tick { side: _ } => self.tick(now),
            Event::Lose { side: _ } => {
                self.lose();
                Ok(Effect::Done)
            }
            _ => Ok(Effect::Done),
        }
    }

    /// A link begins, with the bytes that are read of it.
    pub(crate) fn begin(
        &mut self,
        link: u64,
        chunk: &[u8],
        now: Moment,
    ) -> Result<Effect, EventFault>
        ensures does { (p : AbstractPeer) → StandsForPeer self.old p → Answers result (at_end (begin_refusal link p.endpoint)) Effect.Done (StandsForPeer self.new (begun link chunk.now now p)) }
        ensures err { OnErr result (self.new ≡ self.old) }
    {
        done(self.endpoint.begin_link(link, chunk, now))
    }

    /// Bytes of a link are read.
    pub(crate) fn feed(
        &mut self,
        link: u64,
        piece: &[u8],
        now: Moment,
    ) -> Result<Effect, EventFault>
        ensures does { (p : AbstractPeer) → StandsForPeer self.old p → Answers result (at_end (feed_refusal link p.endpoint)) (Effect.Read (length piece.now)) (StandsForPeer self.new (called (feed link piece.now now) p)) }
        ensures err { OnErr result (self.new ≡ self.old) }
    {
        if let Err(fault) = self.endpoint.feed(link, piece, now) {
            return Err(fault_of(fault));
        }
        Ok(Effect::Read {
            n: piece.len() as u64,
        })
    }

    /// The first n of the bytes that may go out were put on the present link.
    pub(crate) fn wrote(&mut self, n: usize)
        requires { n ≤ length (shown_of self.old.endpoint) }
        ensures { (p : AbstractPeer) → StandsForPeer self.old p → StandsForPeer self.new (called (wrote n) p) }
    {
        self.endpoint.wrote(n);
    }
}
