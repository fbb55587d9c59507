//! Moments that pass, and the end of a session by its own end.
ghost use Rattle.std.specs.Prelude.{◌≡◌, ◌-◌, false, None, length, map, nat_lt, IfOk, IfErr, OnOk, OnErr};
ghost use Rattle.std.specs.List.{list_any};
ghost use Rattle.ra_model.specs.Calls.{leave, times_out};
ghost use Rattle.ra_model.specs.Endpoints.{Endpoint as AbstractEndpoint, shown};
ghost use Rattle.ra_model.specs.Frames.{last_id};
ghost use Rattle.ra_model.specs.EndpointStates.{StandsFor};
ghost use Rattle.ra_proto.specs.Links.{SameLink};
ghost use Rattle.ra_ipc.specs.Packets.{message_bytes};
ghost use Rattle.ra_ipc.specs.ChannelServers.{is_timed_out, ticked, timeout_answers};
ghost use Rattle.ra_session.specs.SessionCalls as calls;
ghost use Rattle.ra_session.specs.SessionRefusals.{Refuses, tick_refusal, leave_refusal};
ghost use Rattle.ra_session.specs.Moments.{timeout_of, AdmitsTick, IsTicked, TickRefused};
ghost use Rattle.ra_session.specs.SessionStates.{OfEachSession, SessionBecomes};

use crate::packets::bodies_of;
use crate::session::{Session, running};
use crate::values::SessionFault;
use ra_base::{Cause, Message, Moment};
use ra_chan_server::ChannelServer;
use ra_ipc::Packet;
use ra_model::EndFault;
use ra_proto::{Endpoint, Ticked};
use ra_values::NoMemory;
use std::alloc::Global;

/// The server after the calls that waited too long were answered, and the bodies of the answers.
fn ticked_server(
    alloc: Global,
    server: &ChannelServer,
    now: Moment,
) -> Result<(ChannelServer, Vec<Message>), NoMemory>
    ensures server { IfOk result (λ r. r.0 ≡ ticked server.now now) }
    ensures bodies { IfOk result (λ r. r.1.items ≡ map message_bytes (timeout_answers server.now now)) }
{
    let mut server = server.copy(alloc)?;
    let answers = server.tick(alloc, now.millis())?;
    let bodies = bodies_of(alloc, &answers)?;
    Ok((server, bodies))
}

/// The endpoint after its alarms and then these messages, and what the alarms tell.
fn ticked_endpoint(
    alloc: Global,
    endpoint: &Endpoint,
    bodies: Vec<Message>,
    now: Moment,
) -> Result<(Endpoint, Ticked), EndFault>
    ensures stands { IfOk result (λ r. IsTicked endpoint.now r.0 bodies.items now) }
    ensures link { IfOk result (λ r. SameLink endpoint.now r.0) }
    ensures timeout { IfOk result (λ r. (e : AbstractEndpoint) → StandsFor endpoint.now e → r.1.timed_out ≡ times_out now e) }
    ensures refused { IfErr result (λ fault. TickRefused fault endpoint.now bodies.items now) }
{
    let mut copy = endpoint.copy(alloc)?;
    let ticked = copy.tick(now)?;
    copy.say_all(bodies, now)?;
    Ok((copy, ticked))
}

impl Session {
    /// Whether fewer ids are left than there are calls that waited too long. It takes no memory.
    fn lacks_ids(&self, now: Moment) -> bool
        ensures { result ≡ nat_lt (last_id - self.now.endpoint.sent) (length (timeout_answers self.now.server now)) }
    {
        let left = u64::MAX - self.endpoint.marks().sent;
        left < self.server.late_calls(now.millis()) as u64
    }

    /// The alarms of the endpoint, where no call waited too long.
    fn tick_endpoint(&mut self, now: Moment) -> Result<Ticked, SessionFault>
        requires going { self.old.cause ≡ None }
        requires none { list_any (is_timed_out now) self.old.server.active ≡ false }
        ensures admitted { OfEachSession self.old (λ s. tick_refusal now s ≡ None) }
        ensures timeout { IfOk result (λ ticked. OfEachSession self.old (λ s. ticked.timed_out ≡ timeout_of now s)) }
        ensures stands { OnOk result (SessionBecomes self.old self.new (calls.tick_session now)) }
        ensures refused { OfEachSession self.old (λ s. Refuses result (tick_refusal now s)) }
        ensures same { OnErr result (self.new ≡ self.old) }
    {
        let ticked = self.endpoint.tick(now)?;
        Ok(ticked)
    }

    /// The alarms of the endpoint, and then the answers to the calls that waited too long.
    fn tick_calls(&mut self, alloc: Global, now: Moment) -> Result<Ticked, SessionFault>
        requires going { self.old.cause ≡ None }
        ensures timeout { IfOk result (λ ticked. OfEachSession self.old (λ s. ticked.timed_out ≡ timeout_of now s)) }
        ensures stands { OnOk result (SessionBecomes self.old self.new (calls.tick_session now)) }
        ensures refused { OfEachSession self.old (λ s. Refuses result (tick_refusal now s)) }
        ensures same { OnErr result (self.new ≡ self.old) }
    {
        let Ok((server, bodies)) = ticked_server(alloc, &self.server, now) else {
            return Err(SessionFault::NoMemory);
        };
        let (endpoint, ticked) = ticked_endpoint(alloc, &self.endpoint, bodies, now)?;
        self.server = server;
        self.endpoint = endpoint;
        Ok(ticked)
    }

    /// A moment comes: the alarms of the endpoint that are due are served, and then the calls that waited too long for their channel
    /// are answered. Nothing is done where the session has ended. Answers whether the peer is silent for too long. Memory may run
    /// out only where the session has not ended and ids are left for the answers.
    pub fn tick(&mut self, alloc: Global, now: Moment) -> Result<Ticked, SessionFault>
        ensures timeout { IfOk result (λ ticked. OfEachSession self.old (λ s. ticked.timed_out ≡ timeout_of now s)) }
        ensures stands { OnOk result (SessionBecomes self.old self.new (calls.tick_session now)) }
        ensures refused { OfEachSession self.old (λ s. Refuses result (tick_refusal now s)) }
        ensures short { IfErr result (λ fault. fault ≡ SessionFault.NoMemory → AdmitsTick now self.old) }
        ensures same { OnErr result (self.new ≡ self.old) }
    {
        if self.cause.is_some() {
            return Ok(Ticked { timed_out: false });
        }
        if !self.server.has_late(now.millis()) {
            return self.tick_endpoint(now);
        }
        if self.lacks_ids(now) {
            return Err(SessionFault::IdsSpent);
        }
        self.tick_calls(alloc, now)
    }

    /// The session is left: the peer is told, where there is a link. Answers the bytes that are to be put on it.
    pub fn leave(&mut self) -> Result<Message, SessionFault>
        ensures out { IfOk result (λ out. OfEachSession self.old (λ s. out ≡ shown (leave s.peer.endpoint))) }
        ensures stands { OnOk result (SessionBecomes self.old self.new calls.leave_session) }
        ensures refused { OfEachSession self.old (λ s. Refuses result (leave_refusal s)) }
        ensures same { OnErr result (self.new ≡ self.old) }
    {
        running(self.cause)?;
        self.endpoint.disconnect()?;
        self.cause = Some(Cause::Disconnected);
        Ok(self.endpoint.take_out())
    }
}
