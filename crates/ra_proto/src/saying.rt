//! What is said and asked of the peer.
ghost use Rattle.std.specs.Prelude.{◌≡◌, ◌≢◌, ◌+◌, ◌≤◌, ◌<◌, false, length, OnOk, OnErr, IfOk, IfErr};
ghost use Rattle.ra_model.specs.EndpointStates.{StandsFor};
ghost use Rattle.ra_model.specs.Endpoints.{Endpoint as AbstractEndpoint, is_ended};
ghost use Rattle.ra_model.specs.Frames.{body_limit, last_id};
ghost use Rattle.ra_model.specs.Refusals.{say_fault, control_fault, ask_fault};
ghost use Rattle.ra_model.specs.Calls.{say, control, ask_pause, ask_resume};
ghost use Rattle.ra_proto.specs.Links.{SameLink};

use crate::endpoint::{Endpoint, later};
use crate::writing::{enqueue, waits, written_at};
use ra_base::{Message, Moment};
use ra_model::{EndFault, Entry};
use ra_timer::alarms::watched;

/// The most bytes of a body.
pub(crate) const BODY_LIMIT: usize = 268_435_456;

/// A say that was refused.
#[derive(Debug, Drop)]
pub struct SayFault {
    pub body: Message,
    pub fault: EndFault,
}

impl Endpoint {
    ghost use Rattle.ra_proto.specs.Refused.{RefusedBy, SayRefusedBy};

    /// A message is said: it gets the next id and waits for its acknowledgement, and is written where the link is up.
    /// At a fault the body comes back.
    pub fn say(&mut self, body: Message, now: Moment) -> Result<u64, SayFault>
        ensures stands { OnOk result ((e : AbstractEndpoint) → StandsFor self.old e → StandsFor self.new (say body now e)) }
        ensures id { IfOk result (λ id. id ≡ self.old.sent + 1) }
        ensures sent { IfOk result (λ id. self.new.sent ≡ id) }
        ensures link { OnOk result (SameLink self.old self.new) }
        ensures refused { SayRefusedBy result (say_fault self.old.phase self.old.sent (length body)) }
        ensures body { IfErr result (λ refused. refused.body ≡ body) }
        ensures err { OnErr result (self.new ≡ self.old) }
    {
        match self.check_say(body.len()) {
            Err(fault) => Err(SayFault { body, fault }),
            Ok(()) => self.say_checked(body, now),
        }
    }

    /// A message that may be said.
    fn say_checked(&mut self, body: Message, now: Moment) -> Result<u64, SayFault>
        requires going { is_ended self.old.phase ≡ false }
        requires limit { length body ≤ body_limit }
        requires ids { self.old.sent < last_id }
        ensures stands { OnOk result ((e : AbstractEndpoint) → StandsFor self.old e → StandsFor self.new (say body now e)) }
        ensures id { IfOk result (λ id. id ≡ self.old.sent + 1) }
        ensures sent { IfOk result (λ id. self.new.sent ≡ id) }
        ensures link { OnOk result (SameLink self.old self.new) }
        ensures memory { IfErr result (λ refused. refused.fault ≡ EndFault.NoMemory) }
        ensures body { IfErr result (λ refused. refused.body ≡ body) }
        ensures err { OnErr result (self.new ≡ self.old) }
    {
        let id = self.sent + 1;
        let now = later(now, self.timing.latest);
        let is_up = self.phase.is_up();
        let entry = Entry {
            id,
            ack: self.received,
            body,
            written: written_at(is_up, now),
        };
        enqueue(&mut self.queue, &mut self.unwritten, is_up, entry)?;
        self.sent = id;
        self.told = self.received;
        self.timing.latest = now;
        self.timing = watched(
            waits(is_up, self.acknowledged, id),
            self.queue.oldest_written(),
            now,
            self.timing,
        );
        Ok(id)
    }

    /// Whether a message of this many bytes may be said.
    fn check_say(&self, len: usize) -> Result<(), EndFault>
        ensures refused { RefusedBy result (say_fault self.now.phase self.now.sent len) }
        ensures fault { IfErr result (λ fault. fault ≢ EndFault.NoMemory) }
        ensures limit { OnOk result (len ≤ body_limit) }
        ensures ids { OnOk result (self.now.sent < last_id) }
        ensures going { OnOk result (is_ended self.now.phase ≡ false) }
    {
        if self.phase.is_ended() {
            return Err(EndFault::Ended);
        }
        if len > BODY_LIMIT {
            return Err(EndFault::TooLarge { len: len as u64 });
        }
        if self.sent == u64::MAX {
            return Err(EndFault::IdsSpent);
        }
        Ok(())
    }

    /// A frame of the session layer is written: it has no id, and is not written again.
    pub fn control(&mut self, body: &[u8]) -> Result<(), EndFault>
        ensures stands { OnOk result ((e : AbstractEndpoint) → StandsFor self.old e → StandsFor self.new (control body.now e)) }
        ensures refused { RefusedBy result (control_fault self.old.phase (length body.now)) }
        ensures link { OnOk result (SameLink self.old self.new) }
        ensures err { OnErr result (self.new ≡ self.old) }
    {
        if self.phase.is_ended() {
            return Err(EndFault::Ended);
        }
        if !self.phase.is_linked() {
            return Err(EndFault::NoLink);
        }
        if body.len() > BODY_LIMIT {
            return Err(EndFault::TooLarge {
                len: body.len() as u64,
            });
        }
        self.unwritten.append(2, 0, 0, body)?;
        Ok(())
    }

    /// The peer is asked to write nothing.
    pub fn ask_pause(&mut self) -> Result<(), EndFault>
        ensures stands { OnOk result ((e : AbstractEndpoint) → StandsFor self.old e → StandsFor self.new (ask_pause e)) }
        ensures refused { RefusedBy result (ask_fault self.old.phase) }
        ensures link { OnOk result (SameLink self.old self.new) }
        ensures err { OnErr result (self.new ≡ self.old) }
    {
        if self.phase.is_ended() {
            return Err(EndFault::Ended);
        }
        if !self.phase.is_linked() {
            return Err(EndFault::NoLink);
        }
        self.unwritten.append(7, 0, 0, &[])?;
        Ok(())
    }

    /// The peer is asked to go on.
    pub fn ask_resume(&mut self) -> Result<(), EndFault>
        ensures stands { OnOk result ((e : AbstractEndpoint) → StandsFor self.old e → StandsFor self.new (ask_resume e)) }
        ensures refused { RefusedBy result (ask_fault self.old.phase) }
        ensures link { OnOk result (SameLink self.old self.new) }
        ensures err { OnErr result (self.new ≡ self.old) }
    {
        if self.phase.is_ended() {
            return Err(EndFault::Ended);
        }
        if !self.phase.is_linked() {
            return Err(EndFault::NoLink);
        }
        self.unwritten.append(8, 0, 0, &[])?;
        Ok(())
    }
}
