//! What a dialer does at each event, by how far it is.
ghost use Rattle.std.specs.Prelude.{◌≡◌, ◌+◌, ℕ, true, IfOk, OnOk, OnErr};
ghost use Rattle.ra_dial.specs.Acts.{act_of};
ghost use Rattle.ra_dial.specs.View.{ActFits};
ghost use Rattle.ra_dial.specs.Budget.{is_spent};
ghost use Rattle.ra_dial.specs.Table as spec;
ghost use Rattle.ra_dial.specs.DialerStates.{Steps, StepsByHead};

use crate::dialer::Dialer;
use crate::handshake::Handled;
use crate::stage::Stage;
use crate::values::{DialAct, DialEnd};
use ra_base::{Message, Moment, NoMemory};
use ra_ports::Entropy;
use std::alloc::Global;

impl Dialer {
    /// Time passes.
    pub(crate) fn on_tick(&mut self, alloc: Global, now: Moment) -> Result<DialAct, NoMemory>
        ensures steps { IfOk result (λ act. Steps self.old self.new (act_of act) (λ d. spec.on_tick d.stage now d)) }
        ensures same { OnErr result (self.new ≡ self.old) }
        ensures fits { IfOk result ActFits }
    {
        match &self.stage {
            Stage::Resting { until } => {
                let until = *until;
                Ok(self.tick_resting(until, now))
            }
            Stage::Calling { since } => {
                let since = *since;
                Ok(self.tick_waiting(false, since, now))
            }
            Stage::Shaking { since, .. } => {
                let since = *since;
                Ok(self.tick_waiting(true, since, now))
            }
            Stage::Attached => self.tick_session(alloc, now),
            Stage::Over { .. } => Ok(DialAct::Nothing),
        }
    }

    /// The link is there.
    pub(crate) fn on_linked<E: Entropy>(
        &mut self,
        alloc: Global,
        entropy: &mut E,
    ) -> Result<DialAct, NoMemory>
        ensures steps { IfOk result (λ act. Steps self.old self.new (act_of act) (λ d. spec.on_linked d.stage (E.draw entropy.old) d)) }
        ensures drawn { (n : ℕ) → E.draw entropy.new n ≡ E.draw entropy.old (n + spec.draws_when_linked self.old.stage) }
        ensures same { OnErr result (self.new ≡ self.old) }
        ensures fits { IfOk result ActFits }
    {
        match &self.stage {
            Stage::Calling { since } => {
                let since = *since;
                self.begin(alloc, since, entropy)
            }
            Stage::Resting { .. } | Stage::Shaking { .. } | Stage::Attached | Stage::Over { .. } =>
                Ok(DialAct::Nothing),
        }
    }

    /// There is no link to be had.
    pub(crate) fn on_no_link(&mut self, now: Moment) -> DialAct
        ensures steps { Steps self.old self.new (act_of result) (λ d. spec.on_no_link d.stage now d) }
        ensures fits { ActFits result }
    {
        match &self.stage {
            Stage::Calling { .. } => self.fail(false, now),
            Stage::Resting { .. } | Stage::Shaking { .. } | Stage::Attached | Stage::Over { .. } =>
                DialAct::Nothing,
        }
    }

    /// Bytes of the link come.
    pub(crate) fn on_piece(
        &mut self,
        alloc: Global,
        piece: &[u8],
        now: Moment,
    ) -> Result<DialAct, NoMemory>
        ensures steps { IfOk result (λ act. Steps self.old self.new (act_of act) (λ d. spec.on_piece d.stage piece.now now d)) }
        ensures same { OnErr result (self.new ≡ self.old) }
        ensures budget { is_spent self.old.stage ≡ true → OnOk result ⊥ }
        ensures fits { IfOk result ActFits }
    {
        match &mut self.stage {
            Stage::Shaking { shaking, .. } => {
                shaking.feed(alloc, piece)?;
                Ok(DialAct::Nothing)
            }
            Stage::Attached => self.feed_session(piece, now),
            Stage::Resting { .. } | Stage::Calling { .. } | Stage::Over { .. } => {
                Ok(DialAct::Nothing)
            }
        }
    }

    /// The link is lost.
    pub(crate) fn on_link_lost(&mut self, now: Moment) -> DialAct
        ensures steps { Steps self.old self.new (act_of result) (λ d. spec.on_link_lost d.stage now d) }
        ensures fits { ActFits result }
    {
        match &self.stage {
            Stage::Shaking { .. } => self.fail(false, now),
            Stage::Attached => self.lose(false, now),
            Stage::Resting { .. } | Stage::Calling { .. } | Stage::Over { .. } => {
                DialAct::Nothing
            }
        }
    }

    /// The user stops it.
    pub(crate) fn on_stop(&mut self) -> Result<DialAct, NoMemory>
        ensures steps { IfOk result (λ act. Steps self.old self.new (act_of act) (λ d. spec.on_stop d.stage d)) }
        ensures same { OnErr result (self.new ≡ self.old) }
        ensures fits { IfOk result ActFits }
    {
        match &self.stage {
            Stage::Attached => self.leave(),
            Stage::Resting { .. } | Stage::Calling { .. } | Stage::Shaking { .. } => {
                Ok(self.finish(DialEnd::Stopped, DialEnd::Stopped))
            }
            Stage::Over { .. } => Ok(DialAct::Nothing),
        }
    }

    /// One head or one frame of a handshake is looked at.
    fn look(&mut self, alloc: Global, now: Moment) -> Result<DialAct, NoMemory>
        requires { spec.is_shaking self.old.stage ≡ true }
        ensures steps { IfOk result (λ act. StepsByHead self.old self.new (act_of act) (λ head d. spec.on_frame d.stage head now d)) }
        ensures same { OnErr result (self.new ≡ self.old) }
        ensures budget { is_spent self.old.stage ≡ true → OnOk result ⊥ }
        ensures fits { IfOk result ActFits }
    {
        self.outgoing.reserve(2)?;
        let Stage::Shaking { shaking, .. } = &mut self.stage else {
            unreachable!();
        };
        match shaking.handle(alloc, &self.client)? {
            Handled::Waits => Ok(DialAct::Nothing),
            Handled::GoesOn { header, text } => {
                self.outgoing.put(header);
                self.outgoing.put(text);
                Ok(DialAct::Quiet)
            }
            Handled::Fails => Ok(self.fail(true, now)),
            Handled::Refuses { reason } => {
                let again = Message::copy(alloc, reason.as_slice())?;
                Ok(self.finish(
                    DialEnd::Permanent { reason },
                    DialEnd::Permanent { reason: again },
                ))
            }
            Handled::Accepts { chunk } => self.attach(alloc, chunk.as_slice(), now),
        }
    }

    /// One head or one frame is looked at.
    pub(crate) fn on_frame(&mut self, alloc: Global, now: Moment) -> Result<DialAct, NoMemory>
        ensures steps { IfOk result (λ act. StepsByHead self.old self.new (act_of act) (λ head d. spec.on_frame d.stage head now d)) }
        ensures same { OnErr result (self.new ≡ self.old) }
        ensures budget { is_spent self.old.stage ≡ true → OnOk result ⊥ }
        ensures fits { IfOk result ActFits }
    {
        match &self.stage {
            Stage::Shaking { .. } => self.look(alloc, now),
            Stage::Attached => self.turn(alloc, now),
            Stage::Resting { .. } | Stage::Calling { .. } | Stage::Over { .. } => Ok(
                DialAct::Nothing,
            ),
        }
    }
}
