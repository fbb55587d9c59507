//! What a message means to the session that hears it.
ghost use Rattle.std.specs.Prelude.{◌≡◌, true, false, Ok, [], option_map, Some, None, IfOk, IfErr};
ghost use Rattle.ra_ipc.specs.Messages.{is_request, initialize};
ghost use Rattle.ra_ipc.specs.Packets.{MessageFits};
ghost use Rattle.ra_ipc.specs.ReadMessage.{message_at};
ghost use Rattle.ra_ipc.specs.ChannelPackets.{notice_of};
ghost use Rattle.ra_ipc.specs.Deliveries.{released_by};
ghost use Rattle.ra_ipc.specs.View.{message};
ghost use Rattle.ra_chan_server.specs.View.{call_of};
ghost use Rattle.ra_session.specs.Sessions.{is_management};
ghost use Rattle.ra_session.specs.Hearing as hearing;
ghost use Rattle.ra_session.specs.Carried.{TurnCarries};
ghost use Rattle.ra_session.specs.Coming.{ComesTo, heard_by};
ghost use Rattle.ra_session.specs.Turns as turns;
ghost use Rattle.ra_session.specs.TurnRefusals.{TurnLeaves, taken_refusal};
ghost use Rattle.ra_session.specs.SessionRefusals.{Refuses, bad_ipc, bad_message};
ghost use Rattle.ra_session.specs.SessionStates.{OfEachSession, SessionBecomes};
ghost use Rattle.ra_session.specs.View.{turn_of, happening_of, TurnFits};
ghost use Rattle.ra_chan_client.specs.View.{notice};

use crate::fault::{bad_reading, bad_request};
use crate::session::Session;
use crate::values::{Happened, IpcFault, Outcome, SessionFault, Turn, Work};
use ra_base::{Cause, Kind, Moment};
use ra_chan_client::{ChannelClient, Heard};
use ra_chan_server::Call;
use ra_ipc::{Packet, decode};
use ra_proto::NextMessage;
use std::alloc::Global;

/// The work of a call.
fn work_of(call: Call) -> Happened
    ensures { happening_of result ≡ hearing.work (call_of call) }
{
    let Call {
        id,
        channel,
        name,
        arg,
        cancelled,
    } = call;
    Happened::Work {
        work: Work::Call {
            id,
            channel,
            name,
            arg,
            cancelled,
        },
    }
}

/// The work of a call, where there is one.
fn work_in(call: Option<Call>) -> Option<Happened>
    ensures { option_map happening_of result ≡ option_map (λ c. hearing.work (call_of c)) call }
{
    match call {
        Some(call) => Some(work_of(call)),
        None => None,
    }
}

/// What a client that is ready hands up.
fn happened_in(heard: Heard) -> Option<Happened>
    ensures { option_map happening_of result ≡ hearing.happening_of (notice heard) }
{
    match heard {
        Heard::Settled { id, answer } => Some(Happened::Settled {
            id,
            outcome: Outcome::Answered { answer },
        }),
        Heard::Fired { id, body } => Some(Happened::Fired { id, body }),
        Heard::Ready { .. } | Heard::Ignored => None,
    }
}

/// Whether the packet is the first Initialize.
fn releases(packet: &Packet, client: &ChannelClient) -> bool
    ensures first { result ≡ true → (message packet.now ≡ initialize) × (client.now.ready ≡ false) }
    ensures none { result ≡ false → released_by (notice_of client.now (message packet.now)) ≡ [] }
{
    match packet {
        Packet::Initialize => !client.is_ready(),
        Packet::Promise { .. }
        | Packet::PromiseCancel { .. }
        | Packet::EventListen { .. }
        | Packet::EventDispose { .. }
        | Packet::PromiseSuccess { .. }
        | Packet::PromiseError { .. }
        | Packet::PromiseErrorObj { .. }
        | Packet::EventFire { .. } => false,
    }
}

/// Whether sessions of this kind carry calls and events.
pub fn is_management(kind: Kind) -> bool
    ensures { result ≡ is_management kind }
{
    match kind {
        Kind::Management => true,
        Kind::ExtensionHost | Kind::Tunnel => false,
    }
}

/// Whether the message with this id is the context.
fn is_context(serves: bool, id: u64) -> bool
    ensures { result ≡ hearing.is_context serves id }
{
    serves && id == 1
}

impl Session {
    /// A message that is no good counts as heard, and ends the session.
    pub(crate) fn spoil(&mut self, next: NextMessage, fault: IpcFault, now: Moment) -> SessionFault
        requires comes { ComesTo next self.old }
        requires bad { heard_by self.old next now ≡ hearing.spoils (bad_message fault) }
        ensures fault { result ≡ SessionFault.BadIpc fault next.body }
        ensures carries { TurnCarries result }
        ensures stands { SessionBecomes self.old self.new (turns.take_turn now) }
        ensures refused { OfEachSession self.old (λ s. taken_refusal now s ≡ Some (bad_ipc (bad_message fault) next.body)) }
    {
        self.endpoint.take_message(next.id, next.ack, next.len, now);
        let _ = self.endpoint.take_out();
        self.cause = Some(Cause::BadIpc);
        SessionFault::BadIpc {
            fault,
            message: next.body,
        }
    }

    /// A message of an extension host.
    fn take_host(&mut self, next: NextMessage, now: Moment) -> Turn
        requires comes { ComesTo next self.old }
        requires kind { is_management self.old.kind ≡ false }
        ensures stands { SessionBecomes self.old self.new (turns.take_turn now) }
        ensures answered { OfEachSession self.old (λ s. turn_of result ≡ turns.taken_answer now s) }
        ensures fits { TurnFits result }
        ensures refused { OfEachSession self.old (λ s. taken_refusal now s ≡ None) }
    {
        self.endpoint.take_message(next.id, next.ack, next.len, now);
        let work = Work::Host { body: next.body };
        self.finish(Some(Happened::Work { work }), true, None)
    }

    /// A request of the peer.
    fn take_request(
        &mut self,
        packet: Packet,
        next: NextMessage,
        now: Moment,
    ) -> Result<Turn, SessionFault>
        requires comes { ComesTo next self.old }
        requires kind { is_management self.old.kind ≡ true }
        requires packet { hearing.is_context self.old.serves next.id ≡ false }
        requires reading { message_at next.body ≡ Ok (message packet) }
        requires request { is_request (message packet) ≡ true }
        requires fits { MessageFits (message packet) }
        ensures leaves { TurnLeaves result (SessionBecomes self.old self.new (turns.take_turn now)) (self.new ≡ self.old) }
        ensures answered { IfOk result (λ t. OfEachSession self.old (λ s. turn_of t ≡ turns.taken_answer now s)) }
        ensures fits { IfOk result TurnFits }
        ensures carries { IfErr result TurnCarries }
        ensures refused { OfEachSession self.old (λ s. Refuses result (taken_refusal now s)) }
    {
        match self.server.on_packet(packet, now.millis()) {
            Ok(call) => {
                self.endpoint.take_message(next.id, next.ack, next.len, now);
                Ok(self.finish(work_in(call), true, None))
            }
            Err(refused) => match bad_request(refused) {
                Some(fault) => Err(self.spoil(next, fault, now)),
                None => Err(SessionFault::NoMemory),
            },
        }
    }

    /// Any other packet of the peer, which releases no requests.
    fn take_notice(
        &mut self,
        alloc: Global,
        packet: Packet,
        next: NextMessage,
        now: Moment,
    ) -> Result<Turn, SessionFault>
        requires comes { ComesTo next self.old }
        requires kind { is_management self.old.kind ≡ true }
        requires packet { hearing.is_context self.old.serves next.id ≡ false }
        requires reading { message_at next.body ≡ Ok (message packet) }
        requires request { is_request (message packet) ≡ false }
        requires fits { MessageFits (message packet) }
        requires silent { released_by (notice_of self.old.client (message packet)) ≡ [] }
        ensures leaves { TurnLeaves result (SessionBecomes self.old self.new (turns.take_turn now)) (self.new ≡ self.old) }
        ensures answered { IfOk result (λ t. OfEachSession self.old (λ s. turn_of t ≡ turns.taken_answer now s)) }
        ensures fits { IfOk result TurnFits }
        ensures carries { IfErr result TurnCarries }
        ensures refused { OfEachSession self.old (λ s. Refuses result (taken_refusal now s)) }
    {
        let heard = self.client.on_packet(alloc, packet)?;
        self.endpoint.take_message(next.id, next.ack, next.len, now);
        Ok(self.finish(happened_in(heard), true, None))
    }

    /// A packet that does not go to the server.
    fn take_answer(
        &mut self,
        alloc: Global,
        packet: Packet,
        next: NextMessage,
        now: Moment,
    ) -> Result<Turn, SessionFault>
        requires comes { ComesTo next self.old }
        requires kind { is_management self.old.kind ≡ true }
        requires packet { hearing.is_context self.old.serves next.id ≡ false }
        requires reading { message_at next.body ≡ Ok (message packet) }
        requires request { is_request (message packet) ≡ false }
        requires fits { MessageFits (message packet) }
        ensures leaves { TurnLeaves result (SessionBecomes self.old self.new (turns.take_turn now)) (self.new ≡ self.old) }
        ensures answered { IfOk result (λ t. OfEachSession self.old (λ s. turn_of t ≡ turns.taken_answer now s)) }
        ensures fits { IfOk result TurnFits }
        ensures carries { IfErr result TurnCarries }
        ensures refused { OfEachSession self.old (λ s. Refuses result (taken_refusal now s)) }
    {
        if releases(&packet, &self.client) {
            return self.take_initialize(alloc, next, now);
        }
        self.take_notice(alloc, packet, next, now)
    }

    /// A packet of the peer.
    fn take_packet(
        &mut self,
        alloc: Global,
        next: NextMessage,
        now: Moment,
    ) -> Result<Turn, SessionFault>
        requires comes { ComesTo next self.old }
        requires kind { is_management self.old.kind ≡ true }
        requires packet { hearing.is_context self.old.serves next.id ≡ false }
        ensures leaves { TurnLeaves result (SessionBecomes self.old self.new (turns.take_turn now)) (self.new ≡ self.old) }
        ensures answered { IfOk result (λ t. OfEachSession self.old (λ s. turn_of t ≡ turns.taken_answer now s)) }
        ensures fits { IfOk result TurnFits }
        ensures carries { IfErr result TurnCarries }
        ensures refused { OfEachSession self.old (λ s. Refuses result (taken_refusal now s)) }
    {
        match decode(alloc, next.body.as_slice()) {
            Ok(packet) => {
                if packet.is_request() {
                    return self.take_request(packet, next, now);
                }
                self.take_answer(alloc, packet, next, now)
            }
            Err(refused) => match bad_reading(refused) {
                Some(fault) => Err(self.spoil(next, fault, now)),
                None => Err(SessionFault::NoMemory),
            },
        }
    }

    /// The next message, which is still unread, is heard.
    pub(crate) fn take_message(
        &mut self,
        alloc: Global,
        next: NextMessage,
        now: Moment,
    ) -> Result<Turn, SessionFault>
        requires { ComesTo next self.old }
        ensures leaves { TurnLeaves result (SessionBecomes self.old self.new (turns.take_turn now)) (self.new ≡ self.old) }
        ensures answered { IfOk result (λ t. OfEachSession self.old (λ s. turn_of t ≡ turns.taken_answer now s)) }
        ensures fits { IfOk result TurnFits }
        ensures carries { IfErr result TurnCarries }
        ensures refused { OfEachSession self.old (λ s. Refuses result (taken_refusal now s)) }
    {
        if !is_management(self.kind) {
            return Ok(self.take_host(next, now));
        }
        if is_context(self.serves, next.id) {
            return self.take_context(alloc, next, now);
        }
        self.take_packet(alloc, next, now)
    }
}
