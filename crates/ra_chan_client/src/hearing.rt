//! What a packet of the server does at the client.
ghost use Rattle.std.specs.Prelude.{◌≡◌, IfOk, IfErr, OnOk, OnErr};
ghost use Rattle.ra_values.specs.View.{tree};
ghost use Rattle.ra_ipc.specs.Messages.{initialize, response, event_fire};
ghost use Rattle.ra_ipc.specs.View.{message, id_of, reply};
ghost use Rattle.ra_ipc.specs.ChannelPackets.{after_packet, notice_of};
ghost use Rattle.ra_chan_client.specs.View.{notice, NoticeFits};

use crate::client::ChannelClient;
use crate::fault::ClientFault;
use crate::{ids, waiting};
use ra_ipc::{Answer, Packet};
use ra_values::Value;
use std::alloc::Global;

/// What a packet of the server means to the application.
#[derive(Debug, Drop)]
pub enum Heard {
    /// The server is ready: these requests, which waited for that, are to be sent in this order.
    Ready { packets: Vec<Packet> },
    /// The call was answered.
    Settled { id: i32, answer: Answer },
    /// An event for the listener.
    Fired { id: i32, body: Value },
    /// Nothing: the server was ready before, or the call was settled before, or the listener has ended.
    Ignored,
}

impl ChannelClient {
    /// The server is ready.
    fn initialize(&mut self, alloc: Global) -> Result<Heard, ClientFault>
        ensures notice { IfOk result (λ h. notice h ≡ notice_of self.old initialize) }
        ensures fits { IfOk result NoticeFits }
        ensures after { OnOk result (self.new ≡ after_packet self.old initialize) }
        ensures refused { IfErr result (λ e. e ≡ ClientFault.NoMemory) }
        ensures same { OnErr result (self.new ≡ self.old) }
    {
        if self.ready {
            return Ok(Heard::Ignored);
        }
        let packets = waiting::drain(alloc, &mut self.waiting)?;
        self.ready = true;
        Ok(Heard::Ready { packets })
    }

    /// An answer came.
    fn settle(&mut self, id: i32, answer: Answer) -> Heard
        ensures notice { notice result ≡ notice_of self.old (response (id_of id) (reply answer)) }
        ensures fits { NoticeFits result }
        ensures after { self.new ≡ after_packet self.old (response (id_of id) (reply answer)) }
    {
        if !ids::take(&mut self.calls, id.cast_unsigned()) {
            return Heard::Ignored;
        }
        Heard::Settled { id, answer }
    }

    /// An event came.
    fn hand_up(&self, id: i32, body: Value) -> Heard
        ensures notice { notice result ≡ notice_of self.now (event_fire (id_of id) (tree body)) }
        ensures fits { NoticeFits result }
    {
        if !ids::has(&self.listeners, id.cast_unsigned()) {
            return Heard::Ignored;
        }
        Heard::Fired { id, body }
    }

    /// Takes a packet of the server; one of a client is ignored. It is refused for want of memory alone, where the server is
    /// ready for the first time.
    pub fn on_packet(&mut self, alloc: Global, packet: Packet) -> Result<Heard, ClientFault>
        ensures notice { IfOk result (λ h. notice h ≡ notice_of self.old (message packet)) }
        ensures fits { IfOk result NoticeFits }
        ensures after { OnOk result (self.new ≡ after_packet self.old (message packet)) }
        ensures refused { IfErr result (λ e. e ≡ ClientFault.NoMemory) }
        ensures same { OnErr result (self.new ≡ self.old) }
    {
        match packet {
            Packet::Initialize => self.initialize(alloc),
            Packet::PromiseSuccess { id, body } => Ok(self.settle(id, Answer::Success { body })),
            Packet::PromiseError { id, body } => Ok(self.settle(id, Answer::Error { body })),
            Packet::PromiseErrorObj { id, body } => Ok(self.settle(id, Answer::ErrorObj { body })),
            Packet::EventFire { id, body } => Ok(self.hand_up(id, body)),
            Packet::Promise { .. }
            | Packet::PromiseCancel { .. }
            | Packet::EventListen { .. }
            | Packet::EventDispose { .. } => Ok(Heard::Ignored),
        }
    }
}
