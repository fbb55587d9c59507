//! A link that begins and is joined at once, all or nothing.
ghost use Rattle.std.specs.Prelude.{◌≡◌, ◌≤◌, ◌++◌, true, length, map, All, IfOk, OnOk, OnErr};
ghost use Rattle.ra_model.specs.Calls.{begin, when};
ghost use Rattle.ra_model.specs.EndpointStates.{StandsFor};
ghost use Rattle.ra_model.specs.Endpoints.{Endpoint as AbstractEndpoint, entry_frame, is_linked};
ghost use Rattle.ra_model.specs.FrameKinds.{ack_frame, resume_frame};
ghost use Rattle.ra_model.specs.Frames as frames;
ghost use Rattle.ra_model.specs.Refusals.{begin_fault};
ghost use Rattle.ra_proto.specs.Joining.{joined};
ghost use Rattle.ra_proto.specs.Refused.{RefusedBy};

use crate::endpoint::{Endpoint, later};
use crate::unwritten::Unwritten;
use crate::writing::{append_if, append_replay, told_after, waits};
use ra_base::{Moment, NoMemory};
use ra_frame::FrameReader;
use ra_model::{EndFault, Phase};
use ra_queue::Unacked;
use ra_timer::alarms::{link_begun, link_up, watched};
use std::alloc::Global;

/// What is written on a link that begins: an Ack where it is not the first, all that is owed, and a Resume where it is waited for.
fn first_bytes(
    alloc: Global,
    queue: &Unacked,
    again: bool,
    received: u64,
    with_resume: bool,
) -> Result<Unwritten, NoMemory>
    requires { All (λ entry. length entry.body ≤ frames.body_limit) queue.now.entries }
    ensures { IfOk result (λ out. out ≡ (frames.joined (when again (ack_frame received)) ++ frames.joined (map entry_frame queue.now.entries)) ++ frames.joined (when with_resume resume_frame)) }
{
    let mut out = Unwritten::new(alloc);
    if again {
        out.append(3, 0, received, &[])?;
    }
    append_replay(queue, &mut out)?;
    append_if(&mut out, with_resume, 8)?;
    Ok(out)
}

impl Endpoint {
    /// A link begins, as `begin_link` does; where it joins, the reconnection ends, as `end_link` does; and a Resume is written
    /// where it is waited for. Or nothing is done. No message is copied but onto the link.
    pub fn join_link(
        &mut self,
        alloc: Global,
        epoch: u64,
        chunk: &[u8],
        with_resume: bool,
        now: Moment,
    ) -> Result<(), EndFault>
        ensures stands { OnOk result ((e : AbstractEndpoint) → StandsFor self.old e → StandsFor self.new (joined with_resume now (begin epoch chunk.now now e))) }
        ensures refused { RefusedBy result (begin_fault self.old.phase self.old.epoch epoch) }
        ensures linked { OnOk result (is_linked self.new.phase ≡ true) }
        ensures epoch { OnOk result (self.new.epoch ≡ epoch) }
        ensures unread { OnOk result (self.new.unread ≡ chunk.now) }
        ensures err { OnErr result (self.new ≡ self.old) }
    {
        if self.phase.is_ended() {
            return Err(EndFault::Ended);
        }
        if epoch <= self.epoch {
            return Err(EndFault::Stale {
                current: self.epoch,
            });
        }
        let again = self.epoch > 0;
        let mut unread = FrameReader::new(alloc);
        unread.feed(chunk)?;
        let unwritten = first_bytes(alloc, &self.queue, again, self.received, with_resume)?;
        let now = later(now, self.timing.latest);
        self.unread = unread;
        self.unwritten = unwritten;
        self.epoch = epoch;
        self.paused = false;
        self.told = told_after(again, false, self.received, self.told);
        self.queue.mark_written(now);
        self.phase = Phase::Up;
        self.timing = link_up(self.keeps_alive, now, link_begun(now, self.timing));
        self.timing = watched(
            waits(true, self.acknowledged, self.sent),
            self.queue.oldest_written(),
            now,
            self.timing,
        );
        Ok(())
    }
}
