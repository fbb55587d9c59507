//! A dialer takes an event.
ghost use Rattle.std.specs.Prelude.{◌≡◌, ◌+◌, ℕ, true, false, IfOk, OnOk, OnErr};
ghost use Rattle.ra_dial.specs.Acts.{act_of};
ghost use Rattle.ra_dial.specs.View.{ActFits};
ghost use Rattle.ra_dial.specs.Budget.{is_spent, takes_bytes};
ghost use Rattle.ra_dial.specs.Table as spec;
ghost use Rattle.ra_dial.specs.DialerStates.{FollowsTable};

use crate::attempts::gives_up;
use crate::dialer::Dialer;
use crate::stage::Stage;
use crate::values::{DialAct, DialEnd, DialEvent};
use ra_base::{Moment, NoMemory};
use ra_ports::Entropy;
use std::alloc::Global;

/// Whether it is time to give up.
fn is_late(event: &DialEvent, stage: &Stage, lost: Moment, now: Moment) -> bool
    ensures { result ≡ spec.is_late event.now stage.now lost now }
{
    match event {
        DialEvent::Stop => false,
        DialEvent::Tick
        | DialEvent::Linked
        | DialEvent::NoLink
        | DialEvent::Piece { .. }
        | DialEvent::Frame
        | DialEvent::LinkLost => gives_up(stage, lost, now),
    }
}

impl Dialer {
    /// An event that comes in time.
    fn by_event<E: Entropy>(
        &mut self,
        alloc: Global,
        event: DialEvent,
        entropy: &mut E,
        now: Moment,
    ) -> Result<DialAct, NoMemory>
        ensures steps { IfOk result (λ act. FollowsTable (spec.is_frame event) self.old self.new (act_of act) (λ head d. spec.by_event head (E.draw entropy.old) event now d)) }
        ensures drawn { (n : ℕ) → E.draw entropy.new n ≡ E.draw entropy.old (n + spec.draws_at event self.old.stage) }
        ensures same { OnErr result (self.new ≡ self.old) }
        ensures budget { takes_bytes event ≡ true → is_spent self.old.stage ≡ true → OnOk result ⊥ }
        ensures fits { IfOk result ActFits }
    {
        match event {
            DialEvent::Tick => self.on_tick(alloc, now),
            DialEvent::Linked => self.on_linked(alloc, entropy),
            DialEvent::NoLink => Ok(self.on_no_link(now)),
            DialEvent::Piece { bytes } => self.on_piece(alloc, bytes.as_slice(), now),
            DialEvent::Frame => self.on_frame(alloc, now),
            DialEvent::LinkLost => Ok(self.on_link_lost(now)),
            DialEvent::Stop => self.on_stop(),
        }
    }

    /// An event, where the dialer is not over.
    fn on_event<E: Entropy>(
        &mut self,
        alloc: Global,
        event: DialEvent,
        entropy: &mut E,
        now: Moment,
    ) -> Result<DialAct, NoMemory>
        ensures steps { IfOk result (λ act. FollowsTable (spec.looks_by event now self.old.stage self.old.lost) self.old self.new (act_of act) (λ head d. spec.on_event head (E.draw entropy.old) event now d)) }
        ensures drawn { (n : ℕ) → E.draw entropy.new n ≡ E.draw entropy.old (n + spec.draws_by event now self.old.stage self.old.lost) }
        ensures same { OnErr result (self.new ≡ self.old) }
        ensures budget { spec.is_late event self.old.stage self.old.lost now ≡ false → takes_bytes event ≡ true
            → is_spent self.old.stage ≡ true → OnOk result ⊥ }
        ensures fits { IfOk result ActFits }
    {
        if is_late(&event, &self.stage, self.lost, now) {
            let lost = self.lost.millis();
            let now = now.millis();
            return Ok(self.finish(
                DialEnd::GraceOver { lost, now },
                DialEnd::GraceOver { lost, now },
            ));
        }
        self.by_event(alloc, event, entropy, now)
    }

    /// Takes an event, and tells what is to be done: what the table says. A link that is there takes two draws, also where memory
    /// then runs out. Any other want of memory leaves all as it was. While it shakes hands, a frame whose header states more than a text
    /// of a handshake has is such a want, and so are bytes that come behind that header, until it is time for another attempt.
    pub fn step<E: Entropy>(
        &mut self,
        alloc: Global,
        event: DialEvent,
        entropy: &mut E,
        now: Moment,
    ) -> Result<DialAct, NoMemory>
        ensures steps { IfOk result (λ act. FollowsTable (spec.looks_by event now self.old.stage self.old.lost) self.old self.new (act_of act) (λ head d. spec.step head (E.draw entropy.old) event now d)) }
        ensures drawn { (n : ℕ) → E.draw entropy.new n ≡ E.draw entropy.old (n + spec.draws_by event now self.old.stage self.old.lost) }
        ensures same { OnErr result (self.new ≡ self.old) }
        ensures budget { spec.is_late event self.old.stage self.old.lost now ≡ false → takes_bytes event ≡ true
            → is_spent self.old.stage ≡ true → OnOk result ⊥ }
        ensures fits { IfOk result ActFits }
    {
        if let Stage::Over { end } = &self.stage {
            return Ok(DialAct::End {
                cause: end.copy(alloc)?,
            });
        }
        self.on_event(alloc, event, entropy, now)
    }
}
