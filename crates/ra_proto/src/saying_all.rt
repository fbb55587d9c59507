//! Messages that are said one after the other, all or none.
ghost use Rattle.std.specs.Prelude.{◌≡◌, ◌≢◌, ◌+◌, ◌≤◌, ◌<◌, ◌++◌, false, cond, All, Some, None, length, drop, OnOk, OnErr, IfErr};
ghost use Rattle.ra_model.specs.EndpointStates.{StandsFor};
ghost use Rattle.ra_model.specs.Endpoints.{Endpoint as AbstractEndpoint, is_ended};
ghost use Rattle.ra_model.specs.Frames.{body_limit, joined, last_id};
ghost use Rattle.ra_proto.specs.Coming.{SameReading};
ghost use Rattle.ra_proto.specs.Links.{SameLink};
ghost use Rattle.ra_proto.specs.Refused.{RefusedBy};
ghost use Rattle.ra_proto.specs.SayAll.{say_all, say_all_fault, first_large, said_entries, frames_when};

use crate::endpoint::{Endpoint, later};
use crate::saying::BODY_LIMIT;
use crate::unwritten::Unwritten;
use crate::writing::{append_rest, waits, written_at};
use ra_base::{Message, Moment, NoMemory};
use ra_model::{EndFault, Entry};
use ra_queue::Unacked;
use ra_timer::alarms::watched;

/// Whether each body fits a frame.
fn check_sizes(bodies: &[Message]) -> Result<(), EndFault>
    ensures refused { RefusedBy result (first_large bodies.now) }
    ensures fault { IfErr result (λ fault. fault ≢ EndFault.NoMemory) }
    ensures fit { OnOk result (first_large bodies.now ≡ None) }
{
    for body in bodies {
        if body.len() > BODY_LIMIT {
            return Err(EndFault::TooLarge {
                len: body.len() as u64,
            });
        }
    }
    Ok(())
}

/// Puts messages behind the others, with the ids behind `last`. There must be room for them.
fn push_all(queue: &mut Unacked, last: u64, ack: u64, written: Option<u64>, bodies: Vec<Message>)
    requires room { length bodies.items ≤ queue.old.spare }
    requires ids { last + length bodies.items ≤ last_id }
    ensures { queue.new.entries ≡ queue.old.entries ++ said_entries last ack written bodies.items }
{
    let mut id = last;
    for body in bodies {
        id += 1;
        queue.push(Entry {
            id,
            ack,
            body,
            written,
        });
    }
}

/// Adds the bytes of all in the queue behind the first n where the link is up, or nothing.
fn append_rest_when(
    is_up: bool,
    queue: &Unacked,
    n: usize,
    out: &mut Unwritten,
) -> Result<(), NoMemory>
    requires n { n ≤ length queue.now.entries }
    requires fits { All (λ entry. length entry.body ≤ body_limit) queue.now.entries }
    ensures ok { OnOk result (out.new ≡ out.old ++ joined (frames_when is_up (drop n queue.now.entries))) }
    ensures err { OnErr result (out.new ≡ out.old) }
{
    if is_up {
        append_rest(queue, n, out)?;
    }
    Ok(())
}

/// Puts messages into the queue, and writes them where the link is up; or changes nothing.
pub(crate) fn enqueue_all(
    queue: &mut Unacked,
    unwritten: &mut Unwritten,
    is_up: bool,
    last: u64,
    ack: u64,
    now: u64,
    bodies: Vec<Message>,
) -> Result<(), NoMemory>
    requires fits { All (λ entry. length entry.body ≤ body_limit) queue.old.entries }
    requires sizes { first_large bodies.items ≡ None }
    requires ids { last + length bodies.items ≤ last_id }
    ensures queue { OnOk result (queue.new.entries ≡ queue.old.entries ++ said_entries last ack (cond is_up (Some now) None) bodies.items) }
    ensures unwritten { OnOk result (unwritten.new ≡ unwritten.old ++ joined (frames_when is_up (said_entries last ack (cond is_up (Some now) None) bodies.items))) }
    ensures err { OnErr result ((queue.new.entries ≡ queue.old.entries) × (unwritten.new ≡ unwritten.old)) }
{
    let before = queue.len();
    queue.reserve(bodies.len())?;
    push_all(queue, last, ack, written_at(is_up, now), bodies);
    if append_rest_when(is_up, queue, before, unwritten).is_err() {
        queue.truncate(before);
        return Err(NoMemory);
    }
    Ok(())
}

impl Endpoint {
    /// Messages are said in this order, each as `say` does, or none is. The first cause counts: the end; the first body that is
    /// too large; fewer ids left than messages.
    pub fn say_all(&mut self, bodies: Vec<Message>, now: Moment) -> Result<(), EndFault>
        ensures stands { OnOk result ((e : AbstractEndpoint) → StandsFor self.old e → StandsFor self.new (say_all bodies.items now e)) }
        ensures sent { OnOk result (self.new.sent ≡ self.old.sent + length bodies.items) }
        ensures link { OnOk result (SameLink self.old self.new) }
        ensures reading { OnOk result (SameReading self.old self.new) }
        ensures refused { RefusedBy result (say_all_fault self.old.phase self.old.sent bodies.items) }
        ensures err { OnErr result (self.new ≡ self.old) }
    {
        self.check_say_all(&bodies)?;
        if bodies.is_empty() {
            return Ok(());
        }
        self.say_each(bodies, now)?;
        Ok(())
    }

    /// Whether these messages may be said.
    pub(crate) fn check_say_all(&self, bodies: &[Message]) -> Result<(), EndFault>
        ensures refused { RefusedBy result (say_all_fault self.now.phase self.now.sent bodies.now) }
        ensures going { OnOk result (is_ended self.now.phase ≡ false) }
        ensures sizes { OnOk result (first_large bodies.now ≡ None) }
        ensures ids { OnOk result (self.now.sent + length bodies.now ≤ last_id) }
    {
        if self.phase.is_ended() {
            return Err(EndFault::Ended);
        }
        check_sizes(bodies)?;
        if u64::MAX - self.sent < bodies.len() as u64 {
            return Err(EndFault::IdsSpent);
        }
        Ok(())
    }

    /// Messages that may be said, one at least.
    fn say_each(&mut self, bodies: Vec<Message>, now: Moment) -> Result<(), NoMemory>
        requires some { 0 < length bodies.items }
        requires going { is_ended self.old.phase ≡ false }
        requires sizes { first_large bodies.items ≡ None }
        requires ids { self.old.sent + length bodies.items ≤ last_id }
        ensures stands { OnOk result ((e : AbstractEndpoint) → StandsFor self.old e → StandsFor self.new (say_all bodies.items now e)) }
        ensures sent { OnOk result (self.new.sent ≡ self.old.sent + length bodies.items) }
        ensures link { OnOk result (SameLink self.old self.new) }
        ensures reading { OnOk result (SameReading self.old self.new) }
        ensures err { OnErr result (self.new ≡ self.old) }
    {
        let count = bodies.len() as u64;
        let now = later(now, self.timing.latest);
        let is_up = self.phase.is_up();
        enqueue_all(
            &mut self.queue,
            &mut self.unwritten,
            is_up,
            self.sent,
            self.received,
            now,
            bodies,
        )?;
        self.sent += count;
        self.told = self.received;
        self.timing.latest = now;
        self.timing = watched(
            waits(is_up, self.acknowledged, self.sent),
            self.queue.oldest_written(),
            now,
            self.timing,
        );
        Ok(())
    }
}
