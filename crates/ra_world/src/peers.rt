//! The two peers of a world, by their sides.
ghost use Rattle.std.specs.Prelude.{◌≡◌, ◌≤◌, true, false, length, OnErr};
ghost use Rattle.ra_model.specs.Calls.{feed, wrote};
ghost use Rattle.ra_model.specs.Links.{other};
ghost use Rattle.ra_model.specs.Worlds.{Peer as AbstractPeer};
ghost use Rattle.ra_model.specs.Events.{begun};
ghost use Rattle.ra_model.specs.Views.{new_peer, called};
ghost use Rattle.ra_model.specs.Refusals.{at_end, begin_refusal, feed_refusal};
ghost use Rattle.ra_proto.specs.Shown.{shown_of};
ghost use Rattle.ra_world.specs.EndEvents.{end_refusal, end_happens, end_effect};
ghost use Rattle.ra_world.specs.Outcomes.{Answers};
ghost use Rattle.ra_world.specs.WorldStates.{StandsForPeer, side_of};

use crate::peer::Peer;
use ra_base::{Event, Moment, Side};
use ra_model::{Effect, EventFault};
use std::alloc::Global;
use std::marker::Model;

/// A keeps alive, B does not.
#[derive(Drop)]
pub(crate) struct Peers {
    pub(crate) a: Peer,
    pub(crate) b: Peer,
}

impl Model for Peers {
    ghost use Rattle.ra_world.specs.WorldStates.{PeersState};

    ghost Value = { PeersState };

    ghost view = { λ p. record { a = p.a; b = p.b } };
}

impl Peers {
    pub(crate) fn new(alloc: Global, base: u64) -> Peers
        ensures a { StandsForPeer result.a (new_peer base 0 true) }
        ensures b { StandsForPeer result.b (new_peer base 0 false) }
    {
        Peers {
            a: Peer::new(alloc, true, base),
            b: Peer::new(alloc, false, base),
        }
    }

    pub(crate) fn at(&self, side: Side) -> &Peer
        ensures { result.now ≡ side_of side self.now }
    {
        match side {
            Side::A => &self.a,
            Side::B => &self.b,
        }
    }

    /// An event of one end alone.
    pub(crate) fn apply(
        &mut self,
        side: Side,
        event: &Event,
        now: Moment,
    ) -> Result<Effect, EventFault>
        ensures does { (p : AbstractPeer) → StandsForPeer (side_of side self.old) p → Answers result (end_refusal event.now p) (end_effect event.now now p) (StandsForPeer (side_of side self.new) (end_happens event.now now p)) }
        ensures other { side_of (other side) self.new ≡ side_of (other side) self.old }
        ensures err { OnErr result (self.new ≡ self.old) }
    {
        match side {
            Side::A => self.a.apply(event, now),
            Side::B => self.b.apply(event, now),
        }
    }

    /// A link begins at a side.
    pub(crate) fn begin(
        &mut self,
        side: Side,
        link: u64,
        chunk: &[u8],
        now: Moment,
    ) -> Result<Effect, EventFault>
        ensures does { (p : AbstractPeer) → StandsForPeer (side_of side self.old) p → Answers result (at_end (begin_refusal link p.endpoint)) Effect.Done (StandsForPeer (side_of side self.new) (begun link chunk.now now p)) }
        ensures other { side_of (other side) self.new ≡ side_of (other side) self.old }
        ensures err { OnErr result (self.new ≡ self.old) }
    {
        match side {
            Side::A => self.a.begin(link, chunk, now),
            Side::B => self.b.begin(link, chunk, now),
        }
    }

    /// Bytes of a link are read at a side.
    pub(crate) fn feed(
        &mut self,
        side: Side,
        link: u64,
        piece: &[u8],
        now: Moment,
    ) -> Result<Effect, EventFault>
        ensures does { (p : AbstractPeer) → StandsForPeer (side_of side self.old) p → Answers result (at_end (feed_refusal link p.endpoint)) (Effect.Read (length piece.now)) (StandsForPeer (side_of side self.new) (called (feed link piece.now now) p)) }
        ensures other { side_of (other side) self.new ≡ side_of (other side) self.old }
        ensures err { OnErr result (self.new ≡ self.old) }
    {
        match side {
            Side::A => self.a.feed(link, piece, now),
            Side::B => self.b.feed(link, piece, now),
        }
    }

    /// The first n of the bytes that may go out at a side were put on its present link.
    pub(crate) fn wrote(&mut self, side: Side, n: usize)
        requires { n ≤ length (shown_of (side_of side self.old).endpoint) }
        ensures does { (p : AbstractPeer) → StandsForPeer (side_of side self.old) p → StandsForPeer (side_of side self.new) (called (wrote n) p) }
        ensures other { side_of (other side) self.new ≡ side_of (other side) self.old }
    {
        match side {
            Side::A => self.a.wrote(n),
            Side::B => self.b.wrote(n),
        }
    }
}
