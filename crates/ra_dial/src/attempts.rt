//! Attempts: how a dialer waits, and how an attempt begins and fails.
ghost use Rattle.std.specs.Prelude.{◌≡◌, ◌+◌, ◌-◌, ◌<◌, ◌≤◌, ◌^◌, ℕ, nat_le, nat_lt, IfOk, OnErr};
ghost use Rattle.ra_dial.specs.Acts.{act_of};
ghost use Rattle.ra_dial.specs.View.{ActFits};
ghost use Rattle.ra_dial.specs.Attempts as spec;
ghost use Rattle.ra_dial.specs.DialerStates.{Steps};

use crate::dialer::Dialer;
use crate::stage::Stage;
use crate::values::{DialAct, DialEnd};
use ra_base::{Moment, NoMemory};
use ra_ports::Entropy;
use std::alloc::Global;

/// How long a call and its handshake may take, in milliseconds.
const PATIENCE: u64 = 30_000;

/// How long a loss may last, in milliseconds.
const LONG_GRACE: u64 = 10_800_000;

/// The wait before an attempt, counted from 0, in milliseconds.
fn wait_before(attempt: u64) -> u64
    ensures wait { result ≡ spec.wait_before attempt }
    ensures bound { result ≤ 30000 }
{
    match attempt {
        0 => 0,
        1 | 2 => 5_000,
        3..=7 => 10_000,
        _ => 30_000,
    }
}

/// Whether a moment has come.
fn is_due(moment: u64, now: Moment) -> bool
    ensures { result ≡ nat_le moment now }
{
    moment <= now.millis()
}

/// Whether so long a time has passed since a moment; none has where that is still to come.
fn has_passed(span: u64, moment: Moment, now: Moment) -> bool
    ensures { result ≡ nat_le span (now - moment) }
{
    span <= now.millis().saturating_sub(moment.millis())
}

/// A rest until that moment, or the end of the link.
pub(crate) fn rest_or_drop(drops: bool, until: u64) -> DialAct
    ensures act { act_of result ≡ spec.rest_or_drop drops until }
    ensures fits { ActFits result }
{
    if drops {
        DialAct::Drop
    } else {
        DialAct::Rest { until }
    }
}

/// Whether a loss has lasted too long.
pub(crate) fn gives_up(stage: &Stage, lost: Moment, now: Moment) -> bool
    ensures { result ≡ spec.gives_up stage.now lost now }
{
    match stage {
        Stage::Resting { .. } | Stage::Calling { .. } | Stage::Shaking { .. } => {
            has_passed(LONG_GRACE + 1, lost, now)
        }
        Stage::Attached | Stage::Over { .. } => false,
    }
}

impl Dialer {
    /// The dialer is over. The end is given twice, for a copy takes memory.
    pub(crate) fn finish(&mut self, end: DialEnd, again: DialEnd) -> DialAct
        requires { again ≡ end }
        ensures steps { Steps self.old self.new (act_of result) (spec.finishes end) }
        ensures fits { ActFits result }
    {
        self.stage = Stage::Over { end };
        DialAct::End { cause: again }
    }

    /// An attempt failed: the next wait begins.
    pub(crate) fn fail(&mut self, drops: bool, now: Moment) -> DialAct
        ensures steps { Steps self.old self.new (act_of result) (spec.fails drops now) }
        ensures fits { ActFits result }
    {
        self.attempt = self.attempt.saturating_add(1);
        let until = now.millis() + wait_before(self.attempt);
        self.outgoing.clear();
        self.stage = Stage::Resting { until };
        rest_or_drop(drops, until)
    }

    /// Time passes while it rests.
    pub(crate) fn tick_resting(&mut self, until: u64, now: Moment) -> DialAct
        ensures steps { Steps self.old self.new (act_of result) (spec.waits_until until now) }
        ensures fits { ActFits result }
    {
        if is_due(until, now) {
            self.stage = Stage::Calling { since: now };
            DialAct::Connect
        } else {
            DialAct::Rest { until }
        }
    }

    /// Time passes while it calls or shakes hands.
    pub(crate) fn tick_waiting(&mut self, drops: bool, called: Moment, now: Moment) -> DialAct
        ensures steps { Steps self.old self.new (act_of result) (spec.waits_since drops called now) }
        ensures fits { ActFits result }
    {
        if has_passed(PATIENCE, called, now) {
            return self.fail(drops, now);
        }
        DialAct::Rest {
            until: called.millis() + PATIENCE,
        }
    }

    /// A link is there: the request is to be written, with a drawn key.
    pub(crate) fn begin<E: Entropy>(
        &mut self,
        alloc: Global,
        called: Moment,
        entropy: &mut E,
    ) -> Result<DialAct, NoMemory>
        ensures steps { IfOk result (λ act. Steps self.old self.new (act_of act) (spec.begins called (E.draw entropy.old 0) (E.draw entropy.old 1))) }
        ensures drawn { (n : ℕ) → E.draw entropy.new n ≡ E.draw entropy.old (n + 2) }
        ensures same { OnErr result (self.new ≡ self.old) }
        ensures fits { IfOk result ActFits }
    {
        let key = entropy.take();
        let drawn = entropy.take();
        let again = self.session.epoch() > 0;
        let shaking = self.client.shaking(alloc, key, drawn)?;
        let request = self.client.request(alloc, again, key)?;
        self.outgoing.reserve(1)?;
        self.outgoing.put(request);
        self.stage = Stage::Shaking {
            since: called,
            shaking,
        };
        Ok(DialAct::Quiet)
    }
}
