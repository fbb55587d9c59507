//! What this end asks of its peer: calls and listens, and the end of either.
ghost use Rattle.std.specs.Prelude.{◌≡◌, ◌≤◌, ◌<◌, ◌^◌, ◌∷◌, [], true, None, length, if◌then◌else◌, IfOk, IfErr, OnOk, OnErr};
ghost use Rattle.ra_model.specs.Endpoints.{Endpoint as AbstractEndpoint};
ghost use Rattle.ra_model.specs.EndpointStates.{StandsFor};
ghost use Rattle.ra_model.specs.Frames.{body_limit};
ghost use Rattle.ra_model.specs.Refusals.{say_fault};
ghost use Rattle.ra_proto.specs.Links.{SameLink};
ghost use Rattle.ra_proto.specs.Refused.{RefusedBy};
ghost use Rattle.ra_proto.specs.SayAll.{say_all};
ghost use Rattle.ra_values.specs.View.{tree};
ghost use Rattle.ra_ipc.specs.Messages.{promise, promise_cancel, event_listen, event_dispose};
ghost use Rattle.ra_ipc.specs.Packets.{MessageFits, message_bytes};
ghost use Rattle.ra_ipc.specs.ChannelClients.{is_in, after_call, after_listen, after_cancel, after_dispose};
ghost use Rattle.ra_ipc.specs.ChannelPairs.{cancelled};
ghost use Rattle.ra_ipc.specs.View.{message, id_of};
ghost use Rattle.ra_chan_client.specs.TakingBack.{IsFresh};
ghost use Rattle.ra_chan_client.specs.View.{RequestFits};
ghost use Rattle.ra_session.specs.Sessions.{is_management};
ghost use Rattle.ra_session.specs.Carried.{SayCarries};
ghost use Rattle.ra_session.specs.SessionCalls as calls;
ghost use Rattle.ra_session.specs.SessionRefusals as refusals;
ghost use Rattle.ra_session.specs.SessionRefusals.{Refuses, if_large};
ghost use Rattle.ra_session.specs.SessionStates.{OfEachSession, SessionBecomes};
ghost use Rattle.ra_session.specs.View.{outcome_of, request_parts};

use crate::hearing::is_management;
use crate::packets::{body_of, say_one};
use crate::session::{Session, running};
use crate::values::{Outcome, SessionFault};
use ra_base::{Message, Moment};
use ra_chan_client::{ChannelClient, is_text};
use ra_ipc::Packet;
use ra_model::EndFault;
use ra_proto::Endpoint;
use ra_values::{NoMemory, Text, Value};
use std::alloc::Global;

/// The most bytes of a message.
const BODY_LIMIT: usize = 268_435_456;

/// The packet as the body of a message within the limit.
fn sized(alloc: Global, packet: &Packet) -> Result<Message, SessionFault>
    requires { MessageFits (message packet.now) }
    ensures body { IfOk result (λ body. body ≡ message_bytes (message packet.now)) }
    ensures size { IfOk result (λ body. length body ≤ body_limit) }
    ensures refused { Refuses result (if_large (message_bytes (message packet.now) ∷ [])) }
{
    let Ok(body) = body_of(alloc, packet) else {
        return Err(SessionFault::NoMemory);
    };
    let len = body.len();
    if len > BODY_LIMIT {
        return Err(SessionFault::TooLarge { len: len as u64 });
    }
    Ok(body)
}

/// The channel, the name and the argument of a call or a listen.
fn request_parts(packet: Packet) -> Option<(Text, Text, Value)>
    ensures { result ≡ request_parts packet }
{
    match packet {
        Packet::Promise {
            id: _,
            channel,
            name,
            arg,
        } => Some((channel, name, arg)),
        Packet::EventListen {
            id: _,
            channel,
            name,
            arg,
        } => Some((channel, name, arg)),
        Packet::PromiseCancel { .. }
        | Packet::EventDispose { .. }
        | Packet::Initialize
        | Packet::PromiseSuccess { .. }
        | Packet::PromiseError { .. }
        | Packet::PromiseErrorObj { .. }
        | Packet::EventFire { .. } => None,
    }
}

/// The call as the body of a message within the limit, and its parts again.
#[tactic(auto, using(ra_chan_client::proofs::Kept::promise_fits))]
fn sized_call(
    alloc: Global,
    id: i32,
    channel: Text,
    name: Text,
    arg: Value,
) -> Result<(Message, Text, Text, Value), SessionFault>
    requires id { id_of id < 2 ^ 31 }
    requires fits { RequestFits channel name (tree arg) }
    ensures body { IfOk result (λ r. r.0 ≡ message_bytes (promise (id_of id) channel name (tree arg))) }
    ensures size { IfOk result (λ r. length r.0 ≤ body_limit) }
    ensures parts { IfOk result (λ r. (r.1 ≡ channel) × (r.2 ≡ name) × (r.3 ≡ arg)) }
    ensures refused { Refuses result (if_large (message_bytes (promise (id_of id) channel name (tree arg)) ∷ [])) }
{
    is_text(&channel);
    is_text(&name);
    let packet = Packet::Promise {
        id,
        channel,
        name,
        arg,
    };
    let body = sized(alloc, &packet)?;
    let Some((channel, name, arg)) = request_parts(packet) else {
        unreachable!()
    };
    Ok((body, channel, name, arg))
}

/// The listen as the body of a message within the limit, and its parts again.
#[tactic(auto, using(ra_chan_client::proofs::Kept::listen_fits))]
fn sized_listen(
    alloc: Global,
    id: i32,
    channel: Text,
    event: Text,
    arg: Value,
) -> Result<(Message, Text, Text, Value), SessionFault>
    requires id { id_of id < 2 ^ 31 }
    requires fits { RequestFits channel event (tree arg) }
    ensures body { IfOk result (λ r. r.0 ≡ message_bytes (event_listen (id_of id) channel event (tree arg))) }
    ensures size { IfOk result (λ r. length r.0 ≤ body_limit) }
    ensures parts { IfOk result (λ r. (r.1 ≡ channel) × (r.2 ≡ event) × (r.3 ≡ arg)) }
    ensures refused { Refuses result (if_large (message_bytes (event_listen (id_of id) channel event (tree arg)) ∷ [])) }
{
    is_text(&channel);
    is_text(&event);
    let packet = Packet::EventListen {
        id,
        channel,
        name: event,
        arg,
    };
    let body = sized(alloc, &packet)?;
    let Some((channel, name, arg)) = request_parts(packet) else {
        unreachable!()
    };
    Ok((body, channel, name, arg))
}

/// A message is said, where it goes out now.
#[tactic(auto, unfolding(ra_proto::specs::SayAll::say_all))]
fn say_when(endpoint: &mut Endpoint, goes: bool, body: Message, now: Moment) -> Result<(), EndFault>
    ensures stands { OnOk result ((e : AbstractEndpoint) → StandsFor endpoint.old e → StandsFor endpoint.new (say_all (if goes then body ∷ [] else []) now e)) }
    ensures link { OnOk result (SameLink endpoint.old endpoint.new) }
    ensures refused { RefusedBy result (if goes then say_fault endpoint.old.phase endpoint.old.sent (length body) else None) }
    ensures err { OnErr result (endpoint.new ≡ endpoint.old) }
{
    if !goes {
        return Ok(());
    }
    say_one(endpoint, body, now)
}

/// A call is open, with this id.
fn opened_call(
    client: &mut ChannelClient,
    channel: Text,
    name: Text,
    arg: Value,
) -> Result<i32, NoMemory>
    requires fits { RequestFits channel name (tree arg) }
    requires left { client.old.next < 2 ^ 31 }
    ensures id { IfOk result (λ id. id_of id ≡ client.old.next) }
    ensures after { OnOk result (client.new ≡ after_call client.old (promise client.old.next channel name (tree arg))) }
    ensures fresh { OnOk result (IsFresh client.old) }
    ensures same { OnErr result (client.new ≡ client.old) }
{
    match client.call(channel, name, arg) {
        Ok(issued) => Ok(issued.id),
        Err(_) => Err(NoMemory),
    }
}

/// A listener is open, with this id.
fn opened_listen(
    client: &mut ChannelClient,
    channel: Text,
    event: Text,
    arg: Value,
) -> Result<i32, NoMemory>
    requires fits { RequestFits channel event (tree arg) }
    requires left { client.old.next < 2 ^ 31 }
    ensures id { IfOk result (λ id. id_of id ≡ client.old.next) }
    ensures after { OnOk result (client.new ≡ after_listen client.old (event_listen client.old.next channel event (tree arg))) }
    ensures fresh { OnOk result (IsFresh client.old) }
    ensures same { OnErr result (client.new ≡ client.old) }
{
    match client.listen(channel, event, arg) {
        Ok(issued) => Ok(issued.id),
        Err(_) => Err(NoMemory),
    }
}

/// The cancel of a call as the body of a message.
fn cancel_body(alloc: Global, id: i32) -> Result<Message, NoMemory>
    requires { id_of id < 2 ^ 31 }
    ensures { IfOk result (λ body. body ≡ message_bytes (promise_cancel (id_of id))) }
{
    let packet = Packet::PromiseCancel { id };
    body_of(alloc, &packet)
}

/// The end of a listener as the body of a message.
fn dispose_body(alloc: Global, id: i32) -> Result<Message, NoMemory>
    requires { id_of id < 2 ^ 31 }
    ensures { IfOk result (λ body. body ≡ message_bytes (event_dispose (id_of id))) }
{
    let packet = Packet::EventDispose { id };
    body_of(alloc, &packet)
}

/// An open call is cancelled.
fn cancelled(client: &mut ChannelClient, id: i32)
    requires { is_in (id_of id) client.old.calls ≡ true }
    ensures { client.new ≡ after_cancel client.old (id_of id) }
{
    if client.cancel(id).is_err() {
        unreachable!();
    }
}

/// A living listener ends.
fn disposed(client: &mut ChannelClient, id: i32)
    requires { is_in (id_of id) client.old.listeners ≡ true }
    ensures { client.new ≡ after_dispose client.old (id_of id) }
{
    if client.dispose(id).is_err() {
        unreachable!();
    }
}

impl Session {
    /// Opens a call whose message is this body.
    fn open_call(
        &mut self,
        body: Message,
        channel: Text,
        name: Text,
        arg: Value,
        now: Moment,
    ) -> Result<i32, SessionFault>
        requires going { self.old.cause ≡ None }
        requires kind { is_management self.old.kind ≡ true }
        requires left { self.old.client.next < 2 ^ 31 }
        requires fits { RequestFits channel name (tree arg) }
        requires body { body ≡ message_bytes (promise self.old.client.next channel name (tree arg)) }
        requires size { length body ≤ body_limit }
        ensures id { IfOk result (λ id. id_of id ≡ self.old.client.next) }
        ensures stands { OnOk result (SessionBecomes self.old self.new (calls.call channel name (tree arg) now)) }
        ensures carries { IfErr result (SayCarries (is_management self.old.kind) (message_bytes (promise self.old.client.next channel name (tree arg)) ∷ [])) }
        ensures refused { OfEachSession self.old (λ s. Refuses result (refusals.call_refusal channel name (tree arg) s)) }
        ensures same { OnErr result (self.new ≡ self.old) }
    {
        let goes = self.client.is_ready();
        let Ok(id) = opened_call(&mut self.client, channel, name, arg) else {
            return Err(SessionFault::NoMemory);
        };
        if let Err(fault) = say_when(&mut self.endpoint, goes, body, now) {
            self.client.take_back();
            return Err(SessionFault::from(fault));
        }
        Ok(id)
    }

    /// Calls the name on the channel of the peer, and answers the id of the call. Until the peer is ready the request waits.
    pub fn call(
        &mut self,
        alloc: Global,
        channel: Text,
        name: Text,
        arg: Value,
        now: Moment,
    ) -> Result<i32, SessionFault>
        requires { RequestFits channel name (tree arg) }
        ensures id { IfOk result (λ id. id_of id ≡ self.old.client.next) }
        ensures stands { OnOk result (SessionBecomes self.old self.new (calls.call channel name (tree arg) now)) }
        ensures carries { IfErr result (SayCarries (is_management self.old.kind) (message_bytes (promise self.old.client.next channel name (tree arg)) ∷ [])) }
        ensures refused { OfEachSession self.old (λ s. Refuses result (refusals.call_refusal channel name (tree arg) s)) }
        ensures same { OnErr result (self.new ≡ self.old) }
    {
        running(self.cause)?;
        if !is_management(self.kind) {
            return Err(SessionFault::WrongKind);
        }
        let Some(id) = self.client.next_id() else {
            return Err(SessionFault::IdsSpent);
        };
        let (body, channel, name, arg) = sized_call(alloc, id, channel, name, arg)?;
        self.open_call(body, channel, name, arg, now)
    }

    /// Opens a listener whose message is this body.
    fn open_listen(
        &mut self,
        body: Message,
        channel: Text,
        event: Text,
        arg: Value,
        now: Moment,
    ) -> Result<i32, SessionFault>
        requires going { self.old.cause ≡ None }
        requires kind { is_management self.old.kind ≡ true }
        requires left { self.old.client.next < 2 ^ 31 }
        requires fits { RequestFits channel event (tree arg) }
        requires body { body ≡ message_bytes (event_listen self.old.client.next channel event (tree arg)) }
        requires size { length body ≤ body_limit }
        ensures id { IfOk result (λ id. id_of id ≡ self.old.client.next) }
        ensures stands { OnOk result (SessionBecomes self.old self.new (calls.listen channel event (tree arg) now)) }
        ensures carries { IfErr result (SayCarries (is_management self.old.kind) (message_bytes (event_listen self.old.client.next channel event (tree arg)) ∷ [])) }
        ensures refused { OfEachSession self.old (λ s. Refuses result (refusals.listen_refusal channel event (tree arg) s)) }
        ensures same { OnErr result (self.new ≡ self.old) }
    {
        let goes = self.client.is_ready();
        let Ok(id) = opened_listen(&mut self.client, channel, event, arg) else {
            return Err(SessionFault::NoMemory);
        };
        if let Err(fault) = say_when(&mut self.endpoint, goes, body, now) {
            self.client.take_back();
            return Err(SessionFault::from(fault));
        }
        Ok(id)
    }

    /// Listens to the events of this name on the channel of the peer, and answers the id of the listener. Until the peer is ready the
    /// request waits.
    pub fn listen(
        &mut self,
        alloc: Global,
        channel: Text,
        event: Text,
        arg: Value,
        now: Moment,
    ) -> Result<i32, SessionFault>
        requires { RequestFits channel event (tree arg) }
        ensures id { IfOk result (λ id. id_of id ≡ self.old.client.next) }
        ensures stands { OnOk result (SessionBecomes self.old self.new (calls.listen channel event (tree arg) now)) }
        ensures carries { IfErr result (SayCarries (is_management self.old.kind) (message_bytes (event_listen self.old.client.next channel event (tree arg)) ∷ [])) }
        ensures refused { OfEachSession self.old (λ s. Refuses result (refusals.listen_refusal channel event (tree arg) s)) }
        ensures same { OnErr result (self.new ≡ self.old) }
    {
        running(self.cause)?;
        if !is_management(self.kind) {
            return Err(SessionFault::WrongKind);
        }
        let Some(id) = self.client.next_id() else {
            return Err(SessionFault::IdsSpent);
        };
        let (body, channel, event, arg) = sized_listen(alloc, id, channel, event, arg)?;
        self.open_listen(body, channel, event, arg, now)
    }

    /// Cancels the call: it is settled. The peer is told of it, where it was told of the call; else the call goes unsent.
    pub fn cancel(&mut self, alloc: Global, id: i32, now: Moment) -> Result<Outcome, SessionFault>
        ensures outcome { IfOk result (λ outcome. outcome_of outcome ≡ cancelled) }
        ensures stands { OnOk result (SessionBecomes self.old self.new (calls.cancel (id_of id) now)) }
        ensures refused { OfEachSession self.old (λ s. Refuses result (refusals.cancel_refusal (id_of id) s)) }
        ensures same { OnErr result (self.new ≡ self.old) }
    {
        running(self.cause)?;
        if !is_management(self.kind) {
            return Err(SessionFault::WrongKind);
        }
        if !self.client.has_call(id) {
            return Err(SessionFault::NoSuchCall { id });
        }
        let Ok(body) = cancel_body(alloc, id) else {
            return Err(SessionFault::NoMemory);
        };
        say_when(&mut self.endpoint, self.client.is_ready(), body, now)?;
        cancelled(&mut self.client, id);
        Ok(Outcome::Cancelled)
    }

    /// Ends the listener. The peer is told of it, where it was told of the listener; else the listen goes unsent.
    pub fn dispose(&mut self, alloc: Global, id: i32, now: Moment) -> Result<(), SessionFault>
        ensures stands { OnOk result (SessionBecomes self.old self.new (calls.dispose (id_of id) now)) }
        ensures refused { OfEachSession self.old (λ s. Refuses result (refusals.dispose_refusal (id_of id) s)) }
        ensures same { OnErr result (self.new ≡ self.old) }
    {
        running(self.cause)?;
        if !is_management(self.kind) {
            return Err(SessionFault::WrongKind);
        }
        if !self.client.has_listener(id) {
            return Err(SessionFault::NoSuchCall { id });
        }
        let Ok(body) = dispose_body(alloc, id) else {
            return Err(SessionFault::NoMemory);
        };
        say_when(&mut self.endpoint, self.client.is_ready(), body, now)?;
        disposed(&mut self.client, id);
        Ok(())
    }
}
