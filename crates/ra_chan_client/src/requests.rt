//! What a client asks for: calls and listens, and the end of either.
ghost use Rattle.std.specs.Prelude.{◌≡◌, ◌≢◌, ◌≤◌, ◌<◌, ◌^◌, ◌+◌, ◌++◌, ◌∷◌, [], true, false, ℕ, List, option_map, Some, None, if◌then◌else◌, IfOk, IfErr, OnOk, OnErr};
ghost use Rattle.std.specs.Map.{keys_of};
ghost use Rattle.ra_values.specs.Tree.{Tree};
ghost use Rattle.ra_values.specs.View.{tree};
ghost use Rattle.ra_ipc.specs.Messages.{promise, promise_cancel, event_listen, event_dispose};
ghost use Rattle.ra_ipc.specs.View.{message, id_of};
ghost use Rattle.ra_ipc.specs.ChannelClients.{Client, is_in, after_call, after_listen, after_cancel, after_dispose};
ghost use Rattle.ra_chan_client.specs.Held.{AreIds};
ghost use Rattle.ra_chan_client.specs.TakingBack.{taken_back, IsFresh};
ghost use Rattle.ra_chan_client.specs.View.{RequestFits, if_ready};

use crate::client::ChannelClient;
use crate::fault::ClientFault;
use crate::text::is_text;
use crate::{ids, waiting};
use ra_ipc::Packet;
use ra_values::{NoMemory, Text, Value};
use std::collections::{BTreeMap, BTreeSet};

/// The id after the last one: 2^31.
pub(crate) const IDS: u32 = 0x8000_0000;

/// A request that was made.
#[derive(Debug, Drop)]
pub struct Issued {
    pub id: i32,
    /// The packet to send. None where the server is not ready: the request waits for that.
    pub packet: Option<Packet>,
}

/// Opens an id above all others with its request.
fn begin(
    ids: &mut BTreeSet<u32>,
    waiting: &mut BTreeMap<u32, Packet>,
    ready: bool,
    id: u32,
    packet: Packet,
) -> Result<Option<Packet>, NoMemory>
    requires ids { AreIds id ids.old.keys }
    requires waiting { AreIds id (keys_of waiting.old.entries) }
    ensures out { IfOk result (λ out. out ≡ (if ready then Some packet else None)) }
    ensures opened { OnOk result (ids.new.keys ≡ ids.old.keys ++ id ∷ []) }
    ensures kept { OnOk result (waiting.new.entries ≡ (if ready then waiting.old.entries else waiting.old.entries ++ (id, packet) ∷ [])) }
    ensures ids { OnOk result (AreIds (id + 1) ids.new.keys) }
    ensures waiting { OnOk result (AreIds (id + 1) (keys_of waiting.new.entries)) }
    ensures same { OnErr result (ids.new.keys ≡ ids.old.keys) }
    ensures none_kept { OnErr result (waiting.new.entries ≡ waiting.old.entries) }
{
    ids::add(ids, id)?;
    match waiting::sent(waiting, ready, id, packet) {
        Ok(out) => Ok(out),
        Err(fault) => {
            ids::take(ids, id);
            Err(fault)
        }
    }
}

/// The packet, if the server is ready.
fn packet_if(ready: bool, packet: Packet) -> Option<Packet>
    ensures { option_map message result ≡ if_ready ready (message packet) }
{
    if ready { Some(packet) } else { None }
}

impl ChannelClient {
    /// Calls the name on the channel. It needs a channel, a name and an argument that fit. It is refused with `IdsSpent` exactly
    /// where id 2,147,483,647 was given, else for want of memory alone; a refusal drops the arguments.
    pub fn call(&mut self, channel: Text, name: Text, arg: Value) -> Result<Issued, ClientFault>
        requires { RequestFits channel name (tree arg) }
        ensures issued { IfOk result (λ i. (id_of i.id ≡ self.old.next) × (option_map message i.packet ≡ if_ready self.old.ready (promise self.old.next channel name (tree arg)))) }
        ensures after { OnOk result (self.new ≡ after_call self.old (promise self.old.next channel name (tree arg))) }
        ensures left { OnOk result (self.old.next < 2 ^ 31) }
        ensures fresh { OnOk result (IsFresh self.old) }
        ensures refused { IfErr result (λ e. e ≢ ClientFault.NoMemory → (e ≡ ClientFault.IdsSpent) × (2 ^ 31 ≤ self.old.next)) }
        ensures same { OnErr result (self.new ≡ self.old) }
    {
        let id = self.next;
        if id >= IDS {
            return Err(ClientFault::IdsSpent);
        }
        is_text(&channel);
        is_text(&name);
        let packet = Packet::Promise {
            id: id.cast_signed(),
            channel,
            name,
            arg,
        };
        let packet = begin(&mut self.calls, &mut self.waiting, self.ready, id, packet)?;
        self.next = id + 1;
        Ok(Issued {
            id: id.cast_signed(),
            packet,
        })
    }

    /// Listens to the events of this name on the channel. It needs a channel, a name and an argument that fit, and is refused as
    /// a call is.
    pub fn listen(&mut self, channel: Text, event: Text, arg: Value) -> Result<Issued, ClientFault>
        requires { RequestFits channel event (tree arg) }
        ensures issued { IfOk result (λ i. (id_of i.id ≡ self.old.next) × (option_map message i.packet ≡ if_ready self.old.ready (event_listen self.old.next channel event (tree arg)))) }
        ensures after { OnOk result (self.new ≡ after_listen self.old (event_listen self.old.next channel event (tree arg))) }
        ensures left { OnOk result (self.old.next < 2 ^ 31) }
        ensures fresh { OnOk result (IsFresh self.old) }
        ensures refused { IfErr result (λ e. e ≢ ClientFault.NoMemory → (e ≡ ClientFault.IdsSpent) × (2 ^ 31 ≤ self.old.next)) }
        ensures same { OnErr result (self.new ≡ self.old) }
    {
        let id = self.next;
        if id >= IDS {
            return Err(ClientFault::IdsSpent);
        }
        is_text(&channel);
        is_text(&event);
        let packet = Packet::EventListen {
            id: id.cast_signed(),
            channel,
            name: event,
            arg,
        };
        let packet = begin(
            &mut self.listeners,
            &mut self.waiting,
            self.ready,
            id,
            packet,
        )?;
        self.next = id + 1;
        Ok(Issued {
            id: id.cast_signed(),
            packet,
        })
    }

    /// Settles the call as cancelled. The packet tells it to the server; there is none where the server is not ready, and then
    /// the request goes unsent. It takes no memory, and is refused exactly where the id is no unsettled call.
    pub fn cancel(&mut self, id: i32) -> Result<Option<Packet>, ClientFault>
        ensures sent { IfOk result (λ out. option_map message out ≡ if_ready self.old.ready (promise_cancel (id_of id))) }
        ensures after { OnOk result (self.new ≡ after_cancel self.old (id_of id)) }
        ensures known { OnOk result (is_in (id_of id) self.old.calls ≡ true) }
        ensures refused { IfErr result (λ e. (e ≡ ClientFault.NoSuchCall id) × (is_in (id_of id) self.old.calls ≡ false)) }
        ensures same { OnErr result (self.new ≡ self.old) }
    {
        if !ids::take(&mut self.calls, id.cast_unsigned()) {
            return Err(ClientFault::NoSuchCall { id });
        }
        waiting::forget(&mut self.waiting, id.cast_unsigned());
        Ok(packet_if(self.ready, Packet::PromiseCancel { id }))
    }

    /// Ends the listener. The packet tells it to the server; there is none where the server is not ready, and then the request
    /// goes unsent. It takes no memory, and is refused exactly where the id is no living listener.
    pub fn dispose(&mut self, id: i32) -> Result<Option<Packet>, ClientFault>
        ensures sent { IfOk result (λ out. option_map message out ≡ if_ready self.old.ready (event_dispose (id_of id))) }
        ensures after { OnOk result (self.new ≡ after_dispose self.old (id_of id)) }
        ensures known { OnOk result (is_in (id_of id) self.old.listeners ≡ true) }
        ensures refused { IfErr result (λ e. (e ≡ ClientFault.NoSuchCall id) × (is_in (id_of id) self.old.listeners ≡ false)) }
        ensures same { OnErr result (self.new ≡ self.old) }
    {
        if !ids::take(&mut self.listeners, id.cast_unsigned()) {
            return Err(ClientFault::NoSuchCall { id });
        }
        waiting::forget(&mut self.waiting, id.cast_unsigned());
        Ok(packet_if(self.ready, Packet::EventDispose { id }))
    }

    /// Takes back the request that was made last, a call or a listen: right behind it, the client is as it was before it, and its
    /// id is given again. It takes no memory.
    pub fn take_back(&mut self)
        requires { 0 < self.old.next }
        ensures state { self.new ≡ taken_back self.old }
        ensures call { (c : Client) (channel name : List ℕ) (arg : Tree) → IsFresh c
            → self.old ≡ after_call c (promise c.next channel name arg) → self.new ≡ c }
        ensures listen { (c : Client) (channel event : List ℕ) (arg : Tree) → IsFresh c
            → self.old ≡ after_listen c (event_listen c.next channel event arg) → self.new ≡ c }
    {
        let id = self.next - 1;
        ids::take(&mut self.calls, id);
        ids::take(&mut self.listeners, id);
        waiting::forget(&mut self.waiting, id);
        self.next = id;
    }
}
