//! The world: two endpoints, the links between them, and the moment.
ghost use Rattle.std.specs.Prelude.{◌≡◌, ◌<◌, ◌≤◌, ◌^◌, ◌++◌, ◌∷◌, [], ℕ, List, max, length, OnOk, OnErr, IfOk, IsOk};
ghost use Rattle.ra_model.specs.Worlds.{World as AbstractWorld, new_world, peer, with_peer};
ghost use Rattle.ra_base.specs.declared.event.Event.{Event as AbstractEvent};
ghost use Rattle.ra_base.specs.declared.event.Side.{Side as AbstractSide};
ghost use Rattle.ra_model.specs.Frames.{last_id};
ghost use Rattle.ra_model.specs.Events.{happens, after, effect, run};
ghost use Rattle.ra_model.specs.Refusals.{refusal};
ghost use Rattle.ra_world.specs.EndEvents.{end_refusal, end_happens, end_effect};
ghost use Rattle.ra_world.specs.Outcomes.{Answers, RefusedBy};
ghost use Rattle.ra_world.specs.PairedWorlds.{IsPaired, TakesNothingBack};
ghost use Rattle.ra_world.specs.WorldStates.{StandsForWorld, IsEvent, peer_of};

use crate::link::{Link, chosen, cut_link, read_link, taken_of, write_link};
use crate::peers::Peers;
use ra_base::{Count, Event, Message, Moment, NoMemory, Side};
use ra_model::{Effect, EventFault};
use ra_proto::Endpoint;
use std::alloc::Global;
use std::marker::Model;

/// Two endpoints and the links between them, numbered from 1. It is seen as what it keeps in memory.
#[derive(Drop)]
pub struct World {
    moment: Moment,
    peers: Peers,
    links: Vec<Link>,
}

impl Model for World {
    ghost use Rattle.ra_world.specs.PairedWorlds.{IsPaired, TakesNothingBack};
    ghost use Rattle.ra_world.specs.WorldStates.{WorldState};

    ghost Value = { WorldState };

    ghost view = { λ w. record { moment = w.moment; a = w.peers.a; b = w.peers.b; links = w.links.items } };
}

/// The later of two moments.
fn later(moment: Moment, now: u64) -> Moment
    requires { now < 2 ^ 53 }
    ensures { result ≡ max moment now }
{
    match Moment::of_millis(now) {
        Some(next) => moment.max(next),
        None => moment,
    }
}

impl World {
    /// Two endpoints and no link. Both directions of the session start from 0.
    pub fn new(alloc: Global) -> Result<World, NoMemory>
        ensures stands { IfOk result (λ world. StandsForWorld world (new_world 0)) }
        ensures made { IsOk result }
    {
        World::from_base(alloc, 0)
    }

    /// Two endpoints and no link. Both directions of the session start from this count. A keeps alive, B does not.
    pub fn from_base(alloc: Global, base: u64) -> Result<World, NoMemory>
        ensures stands { IfOk result (λ world. StandsForWorld world (new_world base)) }
        ensures made { IsOk result }
    {
        Ok(World {
            moment: Moment::start(),
            peers: Peers::new(alloc, base),
            links: Vec::new(alloc),
        })
    }

    /// The messages that a side said, in order.
    pub fn said(&self, side: Side) -> &[Message]
        ensures { result.now ≡ (peer_of side self.now).said }
    {
        self.peers.at(side).said.as_slice()
    }

    /// The messages that a side handed up, in order.
    pub fn heard(&self, side: Side) -> &[Message]
        ensures { result.now ≡ (peer_of side self.now).heard }
    {
        self.peers.at(side).heard.as_slice()
    }

    /// The endpoint of a side.
    pub fn end(&self, side: Side) -> &Endpoint
        ensures { result.now ≡ (peer_of side self.now).endpoint }
    {
        &self.peers.at(side).endpoint
    }

    /// How many links were made.
    pub fn links(&self) -> u64
        ensures { result ≡ length self.now.links }
    {
        self.links.len() as u64
    }

    fn link(&mut self) -> Result<Effect, EventFault>
        ensures does { (w : AbstractWorld) → StandsForWorld self.old w → Answers result (refusal w Event.Link) (effect w Event.Link) (StandsForWorld self.new (happens Event.Link w)) }
        ensures err { OnErr result (self.new ≡ self.old) }
    {
        let alloc = *self.links.allocator();
        self.links.reserve(1)?;
        self.links.push(Link::new(alloc)).unwrap();
        Ok(Effect::Link {
            link: self.links.len() as u64,
        })
    }

    fn at(&mut self, now: u64) -> Result<Effect, EventFault>
        requires { now < 2 ^ 53 }
        ensures does { (w : AbstractWorld) → StandsForWorld self.old w → Answers result (refusal w (Event.At now)) (effect w (Event.At now)) (StandsForWorld self.new (happens (Event.At now) w)) }
        ensures err { OnErr result (self.new ≡ self.old) }
    {
        self.moment = later(self.moment, now);
        Ok(Effect::Done)
    }

    /// A side begins a link, with the bytes that it reads of it.
    fn begin(&mut self, side: Side, link: u64, count: Count) -> Result<Effect, EventFault>
        ensures does { (w : AbstractWorld) → StandsForWorld self.old w → Answers result (refusal w (Event.Begin side link count)) (effect w (Event.Begin side link count)) (StandsForWorld self.new (happens (Event.Begin side link count) w)) }
        ensures err { OnErr result (self.new ≡ self.old) }
    {
        let chunk = chosen(&self.links, side, link, count)?;
        let n = chunk.len();
        let effect = self.peers.begin(side, link, chunk, self.moment)?;
        read_link(&mut self.links, side, link, n);
        Ok(effect)
    }

    /// A side reads bytes of a link.
    fn read(&mut self, side: Side, link: u64, count: Count) -> Result<Effect, EventFault>
        ensures does { (w : AbstractWorld) → StandsForWorld self.old w → Answers result (refusal w (Event.Read side link count)) (effect w (Event.Read side link count)) (StandsForWorld self.new (happens (Event.Read side link count) w)) }
        ensures err { OnErr result (self.new ≡ self.old) }
    {
        let piece = chosen(&self.links, side, link, count)?;
        let n = piece.len();
        let effect = self.peers.feed(side, link, piece, self.moment)?;
        read_link(&mut self.links, side, link, n);
        Ok(effect)
    }

    /// A side writes bytes on its present link.
    fn write(&mut self, side: Side, count: Count) -> Result<Effect, EventFault>
        ensures does { (w : AbstractWorld) → StandsForWorld self.old w → Answers result (refusal w (Event.Write side count)) (effect w (Event.Write side count)) (StandsForWorld self.new (happens (Event.Write side count) w)) }
        ensures err { OnErr result (self.new ≡ self.old) }
    {
        let alloc = *self.links.allocator();
        let end = &self.peers.at(side).endpoint;
        let out = end.out();
        let n = taken_of(count, out.len())?;
        let bytes = Message::copy(alloc, &out[..n])?;
        let present = end.epoch();
        write_link(&mut self.links, side, present, bytes.as_slice())?;
        self.peers.wrote(side, n);
        Ok(Effect::Wrote { bytes })
    }

    /// Both directions of a link are cut.
    fn cut(&mut self, link: u64) -> Result<Effect, EventFault>
        ensures does { (w : AbstractWorld) → StandsForWorld self.old w → Answers result (refusal w (Event.Cut link)) (effect w (Event.Cut link)) (StandsForWorld self.new (happens (Event.Cut link) w)) }
        ensures err { OnErr result (self.new ≡ self.old) }
    {
        cut_link(&mut self.links, link)?;
        Ok(Effect::Done)
    }

    /// An event of one end alone.
    fn at_end(&mut self, side: Side, event: &Event) -> Result<Effect, EventFault>
        ensures does { (w : AbstractWorld) → StandsForWorld self.old w → Answers result (end_refusal event.now (peer side w)) (end_effect event.now w.now (peer side w)) (StandsForWorld self.new (with_peer side (end_happens event.now w.now (peer side w)) w)) }
        ensures err { OnErr result (self.new ≡ self.old) }
    {
        self.peers.apply(side, event, self.moment)
    }

    fn step(&mut self, event: &Event) -> Result<Effect, EventFault>
        requires { IsEvent event.now }
        ensures does { (w : AbstractWorld) → StandsForWorld self.old w → Answers result (refusal w event.now) (effect w event.now) (StandsForWorld self.new (happens event.now w)) }
        ensures err { OnErr result (self.new ≡ self.old) }
    {
        match event {
            Event::Link => self.link(),
            Event::At { now } => self.at(*now),
            Event::Begin { side, link, count } => self.begin(*side, *link, *count),
            Event::Write { side, count } => self.write(*side, *count),
            Event::Read { side, link, count } => self.read(*side, *link, *count),
            Event::Cut { link } => self.cut(*link),
            Event::Finish { side } => self.at_end(*side, event),
            Event::Say { side, body: _ } => self.at_end(*side, event),
            Event::Control { side, body: _ } => self.at_end(*side, event),
            Event::Pause { side } => self.at_end(*side, event),
            Event::Resume { side } => self.at_end(*side, event),
            Event::Leave { side } => self.at_end(*side, event),
            Event::Take { side } => self.at_end(*side, event),
            Event::Tick { side } => self.at_end(*side, event),
            Event::Lose { side } => self.at_end(*side, event),
        }
    }

    /// One event. It is refused with the first fault that applies, and changes nothing then.
    pub fn apply(&mut self, event: &Event) -> Result<Effect, EventFault>
        requires { IsEvent event.now }
        ensures stands { OnOk result ((w : AbstractWorld) → StandsForWorld self.old w → StandsForWorld self.new (after event.now w)) }
        ensures effect { IfOk result (λ answer. (w : AbstractWorld) → StandsForWorld self.old w → answer ≡ effect w event.now) }
        ensures refused { (w : AbstractWorld) → StandsForWorld self.old w → RefusedBy result (refusal w event.now) }
        ensures err { OnErr result (self.new ≡ self.old) }
        // in a run, what was heard is the beginning of what the other side said, and so on
        ensures pair { OnOk result ((base : ℕ) (events : List AbstractEvent) → base ≤ last_id → StandsForWorld self.old (run events (new_world base))
            → IsPaired base self.new (run (events ++ event.now ∷ []) (new_world base))) }
        // and nothing is taken back
        ensures rising { OnOk result ((base : ℕ) (events : List AbstractEvent) → StandsForWorld self.old (run events (new_world base)) → (side : AbstractSide)
            → TakesNothingBack (peer_of side self.old) (peer_of side self.new)) }
    {
        self.step(event)
    }
}
