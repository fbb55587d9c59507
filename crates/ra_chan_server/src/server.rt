//! The channel server: what it holds, its copy, and its calls.
ghost use Rattle.std.specs.Prelude.{◌≡◌, ◌<◌, ◌^◌, [], true, false, Some, None, if◌then◌else◌, length, map, option_map, IfOk, IfErr, IfSome, OnOk, OnErr};
ghost use Rattle.std.specs.List.{AllByRecursion, list_any};
ghost use Rattle.std.specs.Bool.{OnTrue};
ghost use Rattle.std.specs.Str.{bytes_eq};
ghost use Rattle.ra_values.specs.View.{tree};
ghost use Rattle.ra_values.specs.Spelling.{Fits, levels};
ghost use Rattle.ra_ipc.specs.Messages.{is_request, response};
ghost use Rattle.ra_ipc.specs.Packets.{MessageFits, reply_body};
ghost use Rattle.ra_ipc.specs.View.{message, id_of, reply};
ghost use Rattle.ra_ipc.specs.ChannelPackets.{active_id, after_request, requested_call};
ghost use Rattle.ra_ipc.specs.ChannelServers.{is_active, promised, promised_call, listened, registered, registered_calls, has_call, completed, fires, is_timed_out, ticked, timeout_answers};
ghost use Rattle.ra_chan_server.specs.Requests.{CallFits};
ghost use Rattle.ra_chan_server.specs.View.{call_of, IsActiveId};

use crate::call::{Call, Fire};
use crate::fault::ServerFault;
use crate::request::Request;
use crate::requests::Requests;
use ra_ipc::{Answer, Packet};
use ra_values::{NoMemory, Text};
use std::alloc::Global;
use std::marker::Model;

/// How long a request waits for its channel, in milliseconds.
const WAIT: u64 = 1_000;

/// The server end of a session's channels. A contract sees the registered channels, and what is active in the order in which it came.
#[derive(Drop)]
pub struct ChannelServer {
    channels: Vec<Text>,
    requests: Requests,
}

impl Model for ChannelServer {
    ghost use Rattle.ra_ipc.specs.ChannelServers.{Server};
    ghost use Rattle.ra_values.specs.TreeCode.{coded_tree};
    ghost use Rattle.std.specs.Coded.{codes};

    ghost Value = { Server };

    ghost coded = { Prim.hlevel (codes, coded_tree) };

    ghost view = { λ s. record { channels = s.channels.items; active = s.requests } };
}

/// Whether the channel is among them.
fn is_among(channels: &[Text], channel: &Text) -> bool
    ensures { result ≡ list_any (bytes_eq channel.now) channels.now }
{
    channels
        .iter()
        .any(|known| channel.as_str() == known.as_str())
}

/// Equal channels.
fn copied(alloc: Global, channels: &[Text]) -> Result<Vec<Text>, NoMemory>
    ensures { IfOk result (λ copy. copy.items ≡ channels.now) }
{
    let mut copy = Vec::new(alloc);
    for channel in channels {
        copy.push(Text::of(alloc, channel.as_str())?)?;
    }
    Ok(copy)
}

/// The packet of this answer.
fn answered(id: i32, answer: Answer) -> Packet
    requires id { id_of id < 2 ^ 31 }
    requires body { Fits levels (reply_body (reply answer)) }
    ensures packet { message result ≡ response (id_of id) (reply answer) }
    ensures fits { MessageFits (message result) }
{
    match answer {
        Answer::Success { body } => Packet::PromiseSuccess { id, body },
        Answer::Error { body } => Packet::PromiseError { id, body },
        Answer::ErrorObj { body } => Packet::PromiseErrorObj { id, body },
    }
}

impl ChannelServer {
    /// A server with no channel, to which nothing came.
    pub fn new(alloc: Global) -> ChannelServer
        ensures { result ≡ record { channels = []; active = [] } }
    {
        ChannelServer {
            channels: Vec::new(alloc),
            requests: Requests::new(alloc),
        }
    }

    /// Registers the channel, and hands out the calls that waited for it, in the order in which they came. Listens that waited for
    /// it begin to hear. A channel that is registered already hands out none. It is refused for want of memory alone.
    pub fn register(&mut self, alloc: Global, channel: &Text) -> Result<Vec<Call>, NoMemory>
        ensures calls { IfOk result (λ calls. map call_of calls.items ≡ registered_calls self.old channel.now) }
        ensures fits { IfOk result (λ calls. AllByRecursion CallFits (map call_of calls.items)) }
        ensures after { OnOk result (self.new ≡ registered self.old channel.now) }
        ensures same { OnErr result (self.new ≡ self.old) }
    {
        if is_among(self.channels.as_slice(), channel) {
            return Ok(Vec::new(alloc));
        }
        let ids = self.requests.ids_waiting(alloc, channel)?;
        let mut calls = Vec::with_capacity(alloc, ids.len())?;
        let copy = Text::of(alloc, channel.as_str())?;
        self.channels.push(copy)?;
        self.requests.open_all(ids.as_slice(), &mut calls);
        Ok(calls)
    }

    /// A call came: it is handed out, or waits for its channel.
    fn promise(&mut self, call: Call, now: u64) -> Result<Option<Call>, ServerFault>
        requires fits { CallFits (call_of call) }
        requires plain { call.cancelled ≡ false }
        requires now { now < 2 ^ 53 }
        ensures call { IfOk result (λ out. option_map call_of out ≡ promised_call self.old (id_of call.id) call.channel call.name (tree call.arg)) }
        ensures fits { IfOk result (λ out. IfSome out (λ c. CallFits (call_of c))) }
        ensures after { OnOk result (self.new ≡ promised self.old (id_of call.id) call.channel call.name (tree call.arg) now) }
        ensures free { OnOk result (is_active (id_of call.id) self.old ≡ false) }
        ensures refused { IfErr result (λ e. IsActiveId e (if is_active (id_of call.id) self.old then Some (id_of call.id) else None)) }
        ensures same { OnErr result (self.new ≡ self.old) }
    {
        let id = call.id;
        if self.requests.has(id.cast_unsigned()) {
            return Err(ServerFault::ActiveId { id });
        }
        if is_among(self.channels.as_slice(), &call.channel) {
            self.requests
                .push(id.cast_unsigned(), Request::HandedCall { id })?;
            return Ok(Some(call));
        }
        let until = now + WAIT;
        self.requests
            .push(id.cast_unsigned(), Request::WaitingCall { call, until })?;
        Ok(None)
    }

    /// A listen came: it begins to hear, or waits for its channel. No call is handed out.
    fn listen(
        &mut self,
        id: i32,
        channel: Text,
        event: Text,
        now: u64,
    ) -> Result<Option<Call>, ServerFault>
        requires id { id_of id < 2 ^ 31 }
        requires now { now < 2 ^ 53 }
        ensures call { IfOk result (λ out. out ≡ None) }
        ensures after { OnOk result (self.new ≡ listened self.old (id_of id) channel event now) }
        ensures free { OnOk result (is_active (id_of id) self.old ≡ false) }
        ensures refused { IfErr result (λ e. IsActiveId e (if is_active (id_of id) self.old then Some (id_of id) else None)) }
        ensures same { OnErr result (self.new ≡ self.old) }
    {
        if self.requests.has(id.cast_unsigned()) {
            return Err(ServerFault::ActiveId { id });
        }
        let request = if is_among(self.channels.as_slice(), &channel) {
            Request::Listener { id, channel, event }
        } else {
            Request::WaitingListen {
                id,
                channel,
                event,
                until: now + WAIT,
            }
        };
        self.requests.push(id.cast_unsigned(), request)?;
        Ok(None)
    }

    /// Takes a packet of the client, which needs an id of 0 or more and texts and values that fit. A Promise whose channel is
    /// registered is handed out as a call; where its channel is not, it waits until 1,000 milliseconds from now, as an EventListen
    /// does. A PromiseCancel marks a call that waits, an EventDispose ends a listen, and for another id each does nothing. It is
    /// refused with `ActiveId` exactly where the id of a Promise or an EventListen is active, else for want of memory alone; a
    /// refusal drops the packet.
    pub fn on_packet(&mut self, packet: Packet, now: u64) -> Result<Option<Call>, ServerFault>
        requires request { is_request (message packet) ≡ true }
        requires fits { MessageFits (message packet) }
        requires now { now < 2 ^ 53 }
        ensures call { IfOk result (λ call. option_map call_of call ≡ requested_call self.old (message packet)) }
        ensures fits { IfOk result (λ call. IfSome call (λ c. CallFits (call_of c))) }
        ensures after { OnOk result (self.new ≡ after_request self.old (message packet) now) }
        ensures free { OnOk result (active_id self.old (message packet) ≡ None) }
        ensures refused { IfErr result (λ e. IsActiveId e (active_id self.old (message packet))) }
        ensures same { OnErr result (self.new ≡ self.old) }
    {
        match packet {
            Packet::Promise {
                id,
                channel,
                name,
                arg,
            } => self.promise(
                Call {
                    id,
                    channel,
                    name,
                    arg,
                    cancelled: false,
                },
                now,
            ),
            Packet::PromiseCancel { id } => {
                self.requests.cancel(id.cast_unsigned());
                Ok(None)
            }
            Packet::EventListen {
                id,
                channel,
                name,
                ..
            } => { self.listen(id, channel, name, now) }
            Packet::EventDispose { id } => {
                self.requests.dispose(id.cast_unsigned());
                Ok(None)
            }
            Packet::Initialize
            | Packet::PromiseSuccess { .. }
            | Packet::PromiseError { .. }
            | Packet::PromiseErrorObj { .. }
            | Packet::EventFire { .. } => Ok(None),
        }
    }

    /// The packet that answers the call, whose id is active no more. It needs an answer that fits, takes no memory, and is refused
    /// exactly where no call of this id was handed out and not yet completed.
    pub fn complete(&mut self, id: i32, answer: Answer) -> Result<Packet, ServerFault>
        requires { Fits levels (reply_body (reply answer)) }
        ensures packet { IfOk result (λ p. message p ≡ response (id_of id) (reply answer)) }
        ensures fits { IfOk result (λ p. MessageFits (message p)) }
        ensures after { OnOk result (self.new ≡ completed self.old (id_of id)) }
        ensures open { OnOk result (has_call (id_of id) self.old ≡ true) }
        ensures refused { IfErr result (λ e. (e ≡ ServerFault.NoSuchCall id) × (has_call (id_of id) self.old ≡ false)) }
        ensures same { OnErr result (self.new ≡ self.old) }
    {
        if !self.requests.complete(id.cast_unsigned()) {
            return Err(ServerFault::NoSuchCall { id });
        }
        Ok(answered(id, answer))
    }

    /// Whether a call of this id was handed out and is not yet completed.
    pub fn has_call(&self, id: i32) -> bool
        ensures open { result ≡ has_call (id_of id) self.now }
        ensures id { OnTrue result (id_of id < 2 ^ 31) }
    {
        self.requests.was_handed(id.cast_unsigned())
    }

    /// The call of this id is active no more, without an answer, where it was handed out and is not yet completed; else nothing is
    /// done. It takes no memory.
    pub fn end_call(&mut self, id: i32)
        ensures { self.new ≡ completed self.old (id_of id) }
    {
        if self.requests.was_handed(id.cast_unsigned()) {
            self.requests.take(id.cast_unsigned());
        }
    }

    /// Whether a tick at this moment finds a call or a listen that waited too long. It takes no memory.
    pub fn has_late(&self, now: u64) -> bool
        ensures { result ≡ list_any (is_timed_out now) self.now.active }
    {
        self.requests.has_late(now)
    }

    /// How many answers a tick at this moment would make: one for each call that waited too long. It takes no memory.
    pub fn late_calls(&self, now: u64) -> usize
        ensures { result ≡ length (timeout_answers self.now now) }
    {
        self.requests.late_calls(now)
    }

    /// An EventFire for each listener of this event, in the order of their listens. It needs a body that fits, and is refused for
    /// want of memory alone.
    pub fn fire(&self, alloc: Global, fire: &Fire) -> Result<Vec<Packet>, NoMemory>
        requires { Fits levels (tree fire.now.body) }
        ensures packets { IfOk result (λ packets. map message packets.items ≡ fires self.now fire.now.channel fire.now.event (tree fire.now.body)) }
        ensures fits { IfOk result (λ packets. AllByRecursion MessageFits (map message packets.items)) }
    {
        self.requests.fires(alloc, fire)
    }

    /// Answers the calls that waited for their channel until this moment or an earlier one, in the order in which they came, by the
    /// error of an unknown channel. Listens that waited so long are forgotten. It is refused for want of memory alone.
    pub fn tick(&mut self, alloc: Global, now: u64) -> Result<Vec<Packet>, NoMemory>
        ensures packets { IfOk result (λ packets. map message packets.items ≡ timeout_answers self.old now) }
        ensures fits { IfOk result (λ packets. AllByRecursion MessageFits (map message packets.items)) }
        ensures after { OnOk result (self.new ≡ ticked self.old now) }
        ensures same { OnErr result (self.new ≡ self.old) }
    {
        let ids = self.requests.ids_late(alloc, now)?;
        let packets = self.requests.answers(alloc, now)?;
        self.requests.take_all(ids.as_slice());
        Ok(packets)
    }

    /// An equal server.
    pub fn copy(&self, alloc: Global) -> Result<ChannelServer, NoMemory>
        ensures { IfOk result (λ s. s ≡ self.now) }
    {
        Ok(ChannelServer {
            channels: copied(alloc, self.channels.as_slice())?,
            requests: self.requests.copy(alloc)?,
        })
    }
}
