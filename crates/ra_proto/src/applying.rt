//! Frames that come.
ghost use Rattle.std.specs.Prelude.{◌≡◌, ◌==◌, ◌≢◌, ◌<◌, ◌&&◌, not, true, false, cond, max, if◌then◌else◌, Some, OnOk, OnErr, IfOk, IfErr, [], suc, nat_lt};
ghost use Rattle.ra_model.specs.EndpointStates.{StandsFor, IsConsistent};
ghost use Rattle.ra_model.specs.Endpoints.{Endpoint as AbstractEndpoint, is_linked, is_ended};
ghost use Rattle.ra_model.specs.FrameKinds.{frame_kind};
ghost use Rattle.ra_model.specs.FrameKinds.FrameKind.{Regular, Disconnect, ReplayRequest, Pause, Resume};
ghost use Rattle.ra_model.specs.Calls.{moment};
ghost use Rattle.ra_model.specs.Refusals.{take_fault};
ghost use Rattle.ra_model.specs.Taking.{take_frame, delivery, delivery_of};
ghost use Rattle.ra_model.specs.HeardPlaces.{applied};
ghost use Rattle.ra_model.specs.Timing.{asked_lately};
ghost use Rattle.ra_proto.specs.Passed.{passed, received};
ghost use Rattle.ra_proto.specs.Refused.{RefusedBy};

use crate::endpoint::{Endpoint, later};
use crate::writing::{append_rest, waits};
use ra_base::Moment;
use ra_frame::FrameFault;
use ra_model::{EndFault, Frame, Phase, Timing, Up};
use ra_timer::alarms::{asked_lately, heard_where, watched};

/// The next message.
pub(crate) fn is_next(id: u64, received: u64) -> bool
    ensures { result ≡ (id == suc received) }
{
    id > received && id - received == 1
}

/// A message behind the next one, and no replay was asked for lately.
fn is_gap(id: u64, received: u64, now: u64, timing: Timing) -> bool
    ensures { result ≡ (nat_lt (suc received) id && not (asked_lately now timing)) }
{
    id > received && id - received > 1 && !asked_lately(now, timing)
}

impl Endpoint {
    /// The ack of a frame counts.
    fn pass(&mut self, ack: u64, now: Moment)
        ensures passed { self.new ≡ passed ack now self.old }
        ensures consistent { IsConsistent self.old }
    {
        let upto = self.acknowledged.max(ack.min(self.sent));
        self.queue.acknowledge(upto);
        self.acknowledged = upto;
        self.timing.latest = later(now, self.timing.latest);
    }

    /// The next message counts as handed up, and the ack of its frame counts.
    pub(crate) fn receive(&mut self, id: u64, ack: u64, now: Moment)
        requires { id ≡ suc self.old.received }
        ensures received { self.new ≡ received id ack now self.old }
        ensures consistent { IsConsistent self.old }
    {
        self.pass(ack, now);
        self.received = id;
        self.timing = heard_where(self.phase.is_up(), self.timing.latest, self.timing);
    }

    /// The next message.
    fn apply_message(&mut self, frame: Frame, now: Moment) -> Up
        requires kind { frame_kind frame.kind ≡ Regular }
        requires in_order { frame.id ≡ suc self.old.received }
        ensures stands { (e : AbstractEndpoint) → StandsFor self.old e → StandsFor self.new (applied (moment now e) frame e) }
        ensures handed { (e : AbstractEndpoint) → StandsFor self.old e → result ≡ delivery_of (frame_kind frame.kind) frame e }
        ensures unread { self.new.unread ≡ self.old.unread }
        ensures epoch { self.new.epoch ≡ self.old.epoch }
    {
        self.receive(frame.id, frame.ack, now);
        Up::Message {
            id: frame.id,
            body: frame.body,
        }
    }

    /// A message behind the next one: a replay is asked for.
    fn apply_gap(&mut self, frame: &Frame, now: Moment) -> Result<(), EndFault>
        requires kind { frame_kind frame.now.kind ≡ Regular }
        requires gap { (nat_lt (suc self.old.received) frame.now.id && not (asked_lately (max now self.old.timing.latest) self.old.timing)) ≡ true }
        requires other { frame.now.id ≢ suc self.old.received }
        ensures stands { OnOk result ((e : AbstractEndpoint) → StandsFor self.old e → StandsFor self.new (applied (moment now e) frame.now e)) }
        ensures unread { OnOk result (self.new.unread ≡ self.old.unread) }
        ensures epoch { OnOk result (self.new.epoch ≡ self.old.epoch) }
        ensures memory { IfErr result (λ fault. fault ≡ EndFault.NoMemory) }
        ensures err { OnErr result (self.new ≡ self.old) }
    {
        self.unwritten.append(6, 0, 0, &[])?;
        self.pass(frame.ack, now);
        self.timing.asked = Some(self.timing.latest);
        Ok(())
    }

    /// All that is owed is written again.
    fn apply_replay_request(&mut self, frame: &Frame, now: Moment) -> Result<(), EndFault>
        requires kind { frame_kind frame.now.kind ≡ ReplayRequest }
        ensures stands { OnOk result ((e : AbstractEndpoint) → StandsFor self.old e → StandsFor self.new (applied (moment now e) frame.now e)) }
        ensures unread { OnOk result (self.new.unread ≡ self.old.unread) }
        ensures epoch { OnOk result (self.new.epoch ≡ self.old.epoch) }
        ensures memory { IfErr result (λ fault. fault ≡ EndFault.NoMemory) }
        ensures err { OnErr result (self.new ≡ self.old) }
    {
        let upto = self.acknowledged.max(frame.ack.min(self.sent));
        let gone = (upto - self.acknowledged) as usize;
        append_rest(&self.queue, gone, &mut self.unwritten)?;
        self.pass(frame.ack, now);
        let now = self.timing.latest;
        self.queue.mark_written(now);
        self.timing = watched(
            waits(self.phase.is_up(), self.acknowledged, self.sent),
            self.queue.oldest_written(),
            now,
            self.timing,
        );
        Ok(())
    }

    /// The peer has left.
    fn apply_disconnect(&mut self, frame: &Frame, now: Moment)
        requires kind { frame_kind frame.now.kind ≡ Disconnect }
        ensures stands { (e : AbstractEndpoint) → StandsFor self.old e → StandsFor self.new (applied (moment now e) frame.now e) }
        ensures unread { self.new.unread ≡ [] }
        ensures epoch { self.new.epoch ≡ self.old.epoch }
    {
        self.pass(frame.ack, now);
        self.phase = Phase::Ended;
        self.unread.clear();
        self.unwritten.clear();
    }

    /// The peer asks for nothing more.
    fn apply_pause(&mut self, frame: &Frame, now: Moment)
        requires kind { frame_kind frame.now.kind ≡ Pause }
        ensures stands { (e : AbstractEndpoint) → StandsFor self.old e → StandsFor self.new (applied (moment now e) frame.now e) }
        ensures unread { self.new.unread ≡ self.old.unread }
        ensures epoch { self.new.epoch ≡ self.old.epoch }
    {
        self.pass(frame.ack, now);
        self.paused = true;
    }

    /// The peer goes on.
    fn apply_resume(&mut self, frame: &Frame, now: Moment)
        requires kind { frame_kind frame.now.kind ≡ Resume }
        ensures stands { (e : AbstractEndpoint) → StandsFor self.old e → StandsFor self.new (applied (moment now e) frame.now e) }
        ensures unread { self.new.unread ≡ self.old.unread }
        ensures epoch { self.new.epoch ≡ self.old.epoch }
    {
        self.pass(frame.ack, now);
        self.paused = false;
    }

    fn apply_regular(&mut self, frame: Frame, now: Moment) -> Result<Up, EndFault>
        requires kind { frame_kind frame.kind ≡ Regular }
        ensures stands { OnOk result ((e : AbstractEndpoint) → StandsFor self.old e → StandsFor self.new (applied (moment now e) frame e)) }
        ensures handed { IfOk result (λ up. (e : AbstractEndpoint) → StandsFor self.old e → up ≡ delivery_of (frame_kind frame.kind) frame e) }
        ensures unread { OnOk result (self.new.unread ≡ self.old.unread) }
        ensures epoch { OnOk result (self.new.epoch ≡ self.old.epoch) }
        ensures memory { IfErr result (λ fault. fault ≡ EndFault.NoMemory) }
        ensures err { OnErr result (self.new ≡ self.old) }
    {
        if is_next(frame.id, self.received) {
            return Ok(self.apply_message(frame, now));
        }
        let moment = later(now, self.timing.latest);
        if is_gap(frame.id, self.received, moment, self.timing) {
            self.apply_gap(&frame, now)?;
            return Ok(Up::Quiet);
        }
        self.pass(frame.ack, now);
        Ok(Up::Quiet)
    }

    /// Applies a frame that was read elsewhere: it is not taken from the unread bytes. A Disconnect discards these.
    pub fn apply(&mut self, frame: Frame, now: Moment) -> Result<Up, EndFault>
        requires { is_linked self.old.phase ≡ true }
        ensures stands { OnOk result ((e : AbstractEndpoint) → StandsFor self.old e → StandsFor self.new (applied (moment now e) frame e)) }
        ensures handed { IfOk result (λ up. (e : AbstractEndpoint) → StandsFor self.old e → up ≡ delivery_of (frame_kind frame.kind) frame e) }
        ensures unread { OnOk result (self.new.unread ≡ (if frame.kind == 5 then [] else self.old.unread)) }
        ensures epoch { OnOk result (self.new.epoch ≡ self.old.epoch) }
        ensures memory { IfErr result (λ fault. fault ≡ EndFault.NoMemory) }
        ensures err { OnErr result (self.new ≡ self.old) }
    {
        match frame.kind {
            1 => self.apply_regular(frame, now),
            2 => {
                self.pass(frame.ack, now);
                Ok(Up::Control { body: frame.body })
            }
            5 => {
                self.apply_disconnect(&frame, now);
                Ok(Up::Ended)
            }
            6 => {
                self.apply_replay_request(&frame, now)?;
                Ok(Up::Quiet)
            }
            7 => {
                self.apply_pause(&frame, now);
                Ok(Up::Quiet)
            }
            8 => {
                self.apply_resume(&frame, now);
                Ok(Up::Quiet)
            }
            _ => {
                self.pass(frame.ack, now);
                Ok(Up::Quiet)
            }
        }
    }

    /// The next frame of the unread bytes is applied, where a whole one is there.
    pub fn next(&mut self, now: Moment) -> Result<Option<Up>, EndFault>
        ensures stands { OnOk result ((e : AbstractEndpoint) → StandsFor self.old e → StandsFor self.new (take_frame now e)) }
        ensures handed { IfOk result (λ up. (e : AbstractEndpoint) → StandsFor self.old e → up ≡ delivery e) }
        ensures epoch { OnOk result (self.new.epoch ≡ self.old.epoch) }
        ensures going { IfOk result (λ up. up ≢ Some Up.Ended → is_ended self.old.phase ≡ false → is_ended self.new.phase ≡ false) }
        ensures refused { RefusedBy result (take_fault self.old.phase self.old.unread) }
        ensures err { OnErr result (self.new ≡ self.old) }
    {
        if !self.phase.is_linked() {
            return Ok(None);
        }
        let alloc = self.unwritten.allocator();
        match self.unread.peek(alloc) {
            Ok(None) => Ok(None),
            Ok(Some((frame, len))) => {
                let leaves = frame.kind == 5;
                let up = self.apply(frame, now)?;
                if leaves {
                    return Ok(Some(up));
                }
                self.unread.skip(len);
                Ok(Some(up))
            }
            Err(FrameFault::TooLong { stated }) => Err(EndFault::TooLong { stated }),
            Err(FrameFault::NoMemory) => Err(EndFault::NoMemory),
        }
    }
}
