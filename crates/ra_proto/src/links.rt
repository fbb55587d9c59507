//! Links that begin, bring bytes and are lost, and the end of a session.
ghost use Rattle.std.specs.Prelude.{◌≡◌, ◌≤◌, ◌&&◌, ◌==◌, ◌++◌, true, false, ℕ, List, length, take, OnOk, OnErr, IfOk};
ghost use Rattle.ra_model.specs.EndpointStates.{EndpointState, StandsFor};
ghost use Rattle.ra_model.specs.Endpoints.{Endpoint as AbstractEndpoint, is_linked, is_joining};
ghost use Rattle.ra_model.specs.Refusals.{if_ended, begin_fault, finish_fault, feed_fault};
ghost use Rattle.ra_model.specs.Calls.{begin, finish, feed, lose, leave};
ghost use Rattle.ra_proto.specs.FeedMarks.{mark_of, IsTimed};
ghost use Rattle.ra_proto.specs.Refused.{RefusedBy};

use crate::endpoint::{Endpoint, later};
use crate::unwritten::Unwritten;
use crate::writing::{append_if, append_rejoin, append_replay, waits};
use ra_base::Moment;
use ra_frame::FrameReader;
use ra_model::{EndFault, Phase, Timing};
use ra_timer::alarms::{alarms_cleared, fed, link_begun, link_up, watched};

/// What `undo_feed` goes back to.
#[derive(Clone, Copy, Debug, PartialEq, Eq)]
pub struct FeedMark {
    /// How many bytes are unread.
    pub unread: usize,
    /// The alarms, and the moments that are remembered.
    pub timing: Timing,
}

impl Endpoint {
    /// A link begins, with the bytes that were read of it. The first is up at once, and all that is owed is written on it.
    /// True where it is now joining. `Stale` where the number is not above that of the last link.
    pub fn begin_link(&mut self, epoch: u64, chunk: &[u8], now: Moment) -> Result<bool, EndFault>
        ensures stands { OnOk result ((e : AbstractEndpoint) → StandsFor self.old e → StandsFor self.new (begin epoch chunk.now now e)) }
        ensures refused { RefusedBy result (begin_fault self.old.phase self.old.epoch epoch) }
        ensures linked { OnOk result (is_linked self.new.phase ≡ true) }
        ensures joining { IfOk result (λ joins. joins ≡ is_joining self.new.phase) }
        ensures epoch { OnOk result (self.new.epoch ≡ epoch) }
        ensures unread { OnOk result (self.new.unread ≡ chunk.now) }
        ensures err { OnErr result (self.new ≡ self.old) }
    {
        if self.phase.is_ended() {
            return Err(EndFault::Ended);
        }
        if epoch <= self.epoch {
            return Err(EndFault::Stale {
                current: self.epoch,
            });
        }
        let alloc = self.unwritten.allocator();
        let mut unread = FrameReader::new(alloc);
        unread.feed(chunk)?;
        let now = later(now, self.timing.latest);
        if self.epoch > 0 {
            self.unwritten.clear();
            self.unread = unread;
            self.phase = Phase::Joining;
            self.epoch = epoch;
            self.paused = false;
            self.timing = link_begun(now, self.timing);
            return Ok(true);
        }
        let mut unwritten = Unwritten::new(alloc);
        append_replay(&self.queue, &mut unwritten)?;
        self.unread = unread;
        self.unwritten = unwritten;
        self.epoch = epoch;
        self.paused = false;
        self.timing = link_begun(now, self.timing);
        self.queue.mark_written(now);
        self.phase = Phase::Up;
        self.timing = link_up(self.keeps_alive, now, self.timing);
        self.timing = watched(
            waits(true, self.acknowledged, self.sent),
            self.queue.oldest_written(),
            now,
            self.timing,
        );
        Ok(false)
    }

    /// The reconnection ends: what was received is acknowledged, and all that is owed is written again.
    pub fn end_link(&mut self, now: Moment) -> Result<(), EndFault>
        ensures stands { OnOk result ((e : AbstractEndpoint) → StandsFor self.old e → StandsFor self.new (finish now e)) }
        ensures refused { RefusedBy result (finish_fault self.old.phase) }
        ensures linked { OnOk result (is_linked self.new.phase ≡ true) }
        ensures epoch { OnOk result (self.new.epoch ≡ self.old.epoch) }
        ensures err { OnErr result (self.new ≡ self.old) }
    {
        if self.phase.is_ended() {
            return Err(EndFault::Ended);
        }
        if !self.phase.is_joining() {
            return Err(EndFault::NotJoining);
        }
        append_rejoin(&self.queue, self.received, &mut self.unwritten)?;
        let now = later(now, self.timing.latest);
        self.told = self.received;
        self.timing.latest = now;
        self.queue.mark_written(now);
        self.phase = Phase::Up;
        self.timing = link_up(self.keeps_alive, now, self.timing);
        self.timing = watched(
            waits(true, self.acknowledged, self.sent),
            self.queue.oldest_written(),
            now,
            self.timing,
        );
        Ok(())
    }

    /// Bytes come. `Stale` where they are not of the present link.
    pub fn feed(&mut self, epoch: u64, piece: &[u8], now: Moment) -> Result<(), EndFault>
        ensures stands { OnOk result ((e : AbstractEndpoint) → StandsFor self.old e → StandsFor self.new (feed epoch piece.now now e)) }
        ensures refused { RefusedBy result (feed_fault self.old.phase self.old.epoch epoch) }
        ensures linked { OnOk result (is_linked self.new.phase ≡ true) }
        ensures state { OnOk result (self.new ≡ record self.old { unread = self.old.unread ++ piece.now; timing = self.new.timing }) }
        ensures err { OnErr result (self.new ≡ self.old) }
    {
        if self.phase.is_ended() {
            return Err(EndFault::Ended);
        }
        if epoch != self.epoch {
            return Err(EndFault::Stale {
                current: self.epoch,
            });
        }
        if !self.phase.is_linked() {
            return Err(EndFault::NoLink);
        }
        self.unread.feed(piece)?;
        self.timing = fed(piece, later(now, self.timing.latest), self.timing);
        Ok(())
    }

    /// What `undo_feed` needs of the present state.
    pub fn feed_mark(&self) -> FeedMark
        ensures mark { result ≡ mark_of self.now }
        ensures timed { IsTimed result.timing }
    {
        FeedMark {
            unread: self.unread.unread().len(),
            timing: self.timing,
        }
    }

    /// Takes back what was fed since the mark. It takes no memory, and needs that nothing was taken, and no link begun or lost, since.
    pub fn undo_feed(&mut self, mark: FeedMark)
        requires unread { mark.unread ≤ length self.old.unread }
        requires timed { IsTimed mark.timing }
        ensures state { self.new ≡ record self.old { unread = take mark.unread self.old.unread; timing = mark.timing } }
        ensures back { (before : EndpointState) (piece : List ℕ) → mark ≡ mark_of before
            → self.old ≡ record before { unread = before.unread ++ piece; timing = self.old.timing } → self.new ≡ before }
    {
        self.unread.truncate(mark.unread);
        self.timing = mark.timing;
    }

    /// A link is lost. True where it was the present one.
    pub fn lose_link(&mut self, epoch: u64) -> bool
        ensures stands { (e : AbstractEndpoint) → StandsFor self.old e → StandsFor self.new (lose epoch e) }
        ensures answer { result ≡ (is_linked self.old.phase && (epoch == self.old.epoch)) }
        ensures lost { result ≡ true → self.new.phase ≡ Phase.Away }
        ensures other { result ≡ false → self.new ≡ self.old }
    {
        let is_present = self.is_on(epoch);
        if is_present {
            self.phase = Phase::Away;
            self.unread.clear();
            self.unwritten.clear();
            self.timing = alarms_cleared(self.timing);
        }
        is_present
    }

    /// This is the present link.
    fn is_on(&self, epoch: u64) -> bool
        ensures { result ≡ (is_linked self.now.phase && (epoch == self.now.epoch)) }
    {
        self.phase.is_linked() && epoch == self.epoch
    }

    /// The session is left. True where a frame says so to the peer.
    pub fn disconnect(&mut self) -> Result<bool, EndFault>
        ensures stands { OnOk result ((e : AbstractEndpoint) → StandsFor self.old e → StandsFor self.new (leave e)) }
        ensures answer { IfOk result (λ told. told ≡ is_linked self.old.phase) }
        ensures ended { OnOk result (self.new.phase ≡ Phase.Ended) }
        ensures refused { RefusedBy result (if_ended self.old.phase) }
        ensures err { OnErr result (self.new ≡ self.old) }
    {
        if self.phase.is_ended() {
            return Err(EndFault::Ended);
        }
        let is_linked = self.phase.is_linked();
        append_if(&mut self.unwritten, is_linked, 5)?;
        self.phase = Phase::Ended;
        Ok(is_linked)
    }
}
