//! The two messages that begin a management session: the context, which is answered, and Initialize, which releases what waited.
ghost use Rattle.std.specs.Prelude.{◌≡◌, ◌∷◌, [], true, false, map, Ok, None, IfOk, IfErr, OnOk};
ghost use Rattle.ra_ipc.specs.Messages.{initialize};
ghost use Rattle.ra_ipc.specs.Packets.{message_bytes, MessageFits};
ghost use Rattle.ra_ipc.specs.Deliveries.{released_by};
ghost use Rattle.ra_ipc.specs.View.{message};
ghost use Rattle.ra_chan_client.specs.View.{notice, NoticeFits};
ghost use Rattle.std.specs.List.{AllByRecursion};
ghost use Rattle.ra_ipc.specs.ReadMessage.{message_at, context_at};
ghost use Rattle.ra_ipc.specs.ChannelClients.{after_initialize};
ghost use Rattle.ra_values.specs.Tree.{Tree};
ghost use Rattle.ra_session.specs.Sessions.{is_management};
ghost use Rattle.ra_session.specs.Hearing as hearing;
ghost use Rattle.ra_session.specs.Coming.{ComesTo};
ghost use Rattle.ra_session.specs.Carried.{TurnCarries};
ghost use Rattle.ra_session.specs.Turns as turns;
ghost use Rattle.ra_session.specs.TurnRefusals.{TurnLeaves, taken_refusal};
ghost use Rattle.ra_session.specs.SessionRefusals.{Refuses};
ghost use Rattle.ra_session.specs.SessionStates.{OfEachSession, SessionBecomes};
ghost use Rattle.ra_session.specs.View.{turn_of, TurnFits};

use crate::fault::bad_reading;
use crate::packets::{bodies_of, body_of};
use crate::session::Session;
use crate::values::{SessionFault, Turn};
use ra_base::{Message, Moment};
use ra_chan_client::{ChannelClient, Heard};
use ra_ipc::{Packet, decode_context};
use ra_proto::NextMessage;
use ra_values::NoMemory;
use std::alloc::Global;

/// Initialize as the body of a message.
fn initialize(alloc: Global) -> Result<Vec<Message>, NoMemory>
    ensures { IfOk result (λ bodies. bodies.items ≡ message_bytes initialize ∷ []) }
{
    let body = body_of(alloc, &Packet::Initialize)?;
    let mut bodies = Vec::with_capacity(alloc, 1)?;
    bodies.push(body)?;
    Ok(bodies)
}

/// The packets that a client releases.
fn released(alloc: Global, heard: Heard) -> Vec<Packet>
    ensures packets { map message result.items ≡ released_by (notice heard) }
    ensures fits { NoticeFits heard → AllByRecursion MessageFits (map message result.items) }
{
    match heard {
        Heard::Ready { packets } => packets,
        Heard::Settled { .. } | Heard::Fired { .. } | Heard::Ignored => Vec::new(alloc),
    }
}

/// A copy of the client, which has heard that the server is ready, and the requests that waited for that.
fn opened(alloc: Global, client: &ChannelClient) -> Result<(ChannelClient, Vec<Message>), NoMemory>
    requires { client.now.ready ≡ false }
    ensures client { IfOk result (λ r. r.0 ≡ after_initialize client.now) }
    ensures bodies { IfOk result (λ r. r.1.items ≡ map message_bytes client.now.waiting) }
{
    let mut opened = client.copy(alloc)?;
    let Ok(heard) = opened.on_packet(alloc, Packet::Initialize) else {
        return Err(NoMemory);
    };
    let packets = released(alloc, heard);
    let bodies = bodies_of(alloc, &packets)?;
    Ok((opened, bodies))
}

impl Session {
    /// The context is good, and is answered by Initialize.
    fn answer_context(
        &mut self,
        alloc: Global,
        next: NextMessage,
        now: Moment,
    ) -> Result<Turn, SessionFault>
        requires comes { ComesTo next self.old }
        requires kind { is_management self.old.kind ≡ true }
        requires context { hearing.is_context self.old.serves next.id ≡ true }
        requires reading { (t : Tree) × (context_at next.body ≡ Ok t) }
        ensures leaves { TurnLeaves result (SessionBecomes self.old self.new (turns.take_turn now)) (self.new ≡ self.old) }
        ensures answered { IfOk result (λ t. OfEachSession self.old (λ s. turn_of t ≡ turns.taken_answer now s)) }
        ensures fits { IfOk result TurnFits }
        ensures carries { IfErr result TurnCarries }
        ensures refused { OfEachSession self.old (λ s. Refuses result (taken_refusal now s)) }
    {
        let Ok(bodies) = initialize(alloc) else {
            return Err(SessionFault::NoMemory);
        };
        self.endpoint
            .take_and_say(next.id, next.ack, next.len, bodies, now)?;
        Ok(self.finish(None, true, None))
    }

    /// The context: the first message that a serving end of a management session hears.
    pub(crate) fn take_context(
        &mut self,
        alloc: Global,
        next: NextMessage,
        now: Moment,
    ) -> Result<Turn, SessionFault>
        requires comes { ComesTo next self.old }
        requires kind { is_management self.old.kind ≡ true }
        requires context { hearing.is_context self.old.serves next.id ≡ true }
        ensures leaves { TurnLeaves result (SessionBecomes self.old self.new (turns.take_turn now)) (self.new ≡ self.old) }
        ensures answered { IfOk result (λ t. OfEachSession self.old (λ s. turn_of t ≡ turns.taken_answer now s)) }
        ensures fits { IfOk result TurnFits }
        ensures carries { IfErr result TurnCarries }
        ensures refused { OfEachSession self.old (λ s. Refuses result (taken_refusal now s)) }
    {
        match decode_context(alloc, next.body.as_slice()) {
            Ok(_) => self.answer_context(alloc, next, now),
            Err(refused) => match bad_reading(refused) {
                Some(fault) => Err(self.spoil(next, fault, now)),
                None => Err(SessionFault::NoMemory),
            },
        }
    }

    /// The first Initialize: the server is ready, and the requests that waited are said.
    pub(crate) fn take_initialize(
        &mut self,
        alloc: Global,
        next: NextMessage,
        now: Moment,
    ) -> Result<Turn, SessionFault>
        requires comes { ComesTo next self.old }
        requires kind { is_management self.old.kind ≡ true }
        requires packet { hearing.is_context self.old.serves next.id ≡ false }
        requires reading { message_at next.body ≡ Ok initialize }
        requires ready { self.old.client.ready ≡ false }
        ensures leaves { TurnLeaves result (SessionBecomes self.old self.new (turns.take_turn now)) (self.new ≡ self.old) }
        ensures answered { IfOk result (λ t. OfEachSession self.old (λ s. turn_of t ≡ turns.taken_answer now s)) }
        ensures fits { IfOk result TurnFits }
        ensures carries { IfErr result TurnCarries }
        ensures refused { OfEachSession self.old (λ s. Refuses result (taken_refusal now s)) }
    {
        let Ok((client, bodies)) = opened(alloc, &self.client) else {
            return Err(SessionFault::NoMemory);
        };
        self.endpoint
            .take_and_say(next.id, next.ack, next.len, bodies, now)?;
        self.client = client;
        Ok(self.finish(None, true, None))
    }
}
