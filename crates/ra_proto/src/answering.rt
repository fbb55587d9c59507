//! A message is taken and messages are said, all or nothing.
ghost use Rattle.std.specs.Prelude.{◌≡◌, ◌+◌, ◌≤◌, ◌<◌, false, None, length, drop, OnOk, OnErr};
ghost use Rattle.ra_model.specs.EndpointStates.{StandsFor};
ghost use Rattle.ra_model.specs.Endpoints.{Endpoint as AbstractEndpoint, is_ended};
ghost use Rattle.ra_model.specs.Frames.{last_id};
ghost use Rattle.ra_model.specs.Taking.{take_frame};
ghost use Rattle.ra_proto.specs.Coming.{IsNextMessage};
ghost use Rattle.ra_proto.specs.Links.{SameLink};
ghost use Rattle.ra_proto.specs.Refused.{RefusedBy};
ghost use Rattle.ra_proto.specs.SayAll.{say_all, say_all_fault, first_large};

use crate::endpoint::{Endpoint, later};
use crate::saying_all::enqueue_all;
use crate::writing::waits;
use ra_base::{Message, Moment, NoMemory};
use ra_model::EndFault;
use ra_timer::alarms::watched;

impl Endpoint {
    /// The next message is taken, as `take_message` does, and then messages are said, as `say_all` does; or nothing is done.
    /// So what is said acknowledges the message. It is refused as `say_all` is.
    pub fn take_and_say(
        &mut self,
        id: u64,
        ack: u64,
        len: usize,
        bodies: Vec<Message>,
        now: Moment,
    ) -> Result<(), EndFault>
        requires next { IsNextMessage id ack len self.old }
        ensures stands { OnOk result ((e : AbstractEndpoint) → StandsFor self.old e → StandsFor self.new (say_all bodies.items now (take_frame now e))) }
        ensures sent { OnOk result (self.new.sent ≡ self.old.sent + length bodies.items) }
        ensures link { OnOk result (SameLink self.old self.new) }
        ensures received { OnOk result (self.new.received ≡ id) }
        ensures unread { OnOk result (self.new.unread ≡ drop len self.old.unread) }
        ensures refused { RefusedBy result (say_all_fault self.old.phase self.old.sent bodies.items) }
        ensures err { OnErr result (self.new ≡ self.old) }
    {
        self.check_say_all(&bodies)?;
        if bodies.is_empty() {
            self.take_message(id, ack, len, now);
            return Ok(());
        }
        self.take_and_say_each(id, ack, len, bodies, now)?;
        Ok(())
    }

    /// The same of messages that may be said, one at least. Memory is taken first; no more counts as acknowledged than was sent
    /// before.
    fn take_and_say_each(
        &mut self,
        id: u64,
        ack: u64,
        len: usize,
        bodies: Vec<Message>,
        now: Moment,
    ) -> Result<(), NoMemory>
        requires next { IsNextMessage id ack len self.old }
        requires some { 0 < length bodies.items }
        requires going { is_ended self.old.phase ≡ false }
        requires sizes { first_large bodies.items ≡ None }
        requires ids { self.old.sent + length bodies.items ≤ last_id }
        ensures stands { OnOk result ((e : AbstractEndpoint) → StandsFor self.old e → StandsFor self.new (say_all bodies.items now (take_frame now e))) }
        ensures sent { OnOk result (self.new.sent ≡ self.old.sent + length bodies.items) }
        ensures link { OnOk result (SameLink self.old self.new) }
        ensures received { OnOk result (self.new.received ≡ id) }
        ensures unread { OnOk result (self.new.unread ≡ drop len self.old.unread) }
        ensures err { OnErr result (self.new ≡ self.old) }
    {
        let count = bodies.len() as u64;
        let moment = later(now, self.timing.latest);
        let is_up = self.phase.is_up();
        let acknowledged = ack.min(self.sent);
        enqueue_all(
            &mut self.queue,
            &mut self.unwritten,
            is_up,
            self.sent,
            id,
            moment,
            bodies,
        )?;
        self.sent += count;
        self.receive(id, acknowledged, now);
        self.unread.skip(len);
        self.told = id;
        self.timing = watched(
            waits(is_up, self.acknowledged, self.sent),
            self.queue.oldest_written(),
            moment,
            self.timing,
        );
        Ok(())
    }
}
