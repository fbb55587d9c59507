//! A dialer on a link: the steps of its handshake, and its attached session.
ghost use Rattle.std.specs.Prelude.{◌≡◌, ◌≢◌, [], Some, option_map, IfSome, IfOk, OnOk, OnErr};
ghost use Rattle.ra_session.specs.Hearing.{HappeningFits};
ghost use Rattle.ra_session.specs.SessionRefusals.{Refusal, IsRefusal};
ghost use Rattle.ra_session.specs.View.{happening_of};
ghost use Rattle.ra_session.specs.declared.values.SessionFault.TheVariants as faults;
ghost use Rattle.ra_dial.specs.Acts.{act_of};
ghost use Rattle.ra_dial.specs.View.{ActFits};
ghost use Rattle.ra_dial.specs.Links as spec;
ghost use Rattle.ra_dial.specs.DialerStates.{Steps};

use crate::attempts::rest_or_drop;
use crate::dialer::Dialer;
use crate::stage::Stage;
use crate::values::{DialAct, DialEnd};
use ra_base::{Cause, Moment, NoMemory};
use ra_session::{Happened, SessionFault, Turn, Work};
use std::alloc::Global;

/// How often an attached session is ticked, in milliseconds.
const TICK_SPAN: u64 = 500;

/// Fails where a call of a session found no memory.
fn judged(fault: SessionFault) -> Result<(), NoMemory>
    ensures { OnOk result (fault ≢ faults.NoMemory) }
{
    match fault {
        SessionFault::NoMemory => Err(NoMemory),
        SessionFault::Ended { .. }
        | SessionFault::Stale { .. }
        | SessionFault::NoLink
        | SessionFault::TooLong { .. }
        | SessionFault::BadIpc { .. }
        | SessionFault::TooLarge { .. }
        | SessionFault::IdsSpent
        | SessionFault::NoSuchCall { .. }
        | SessionFault::WrongKind => Ok(()),
    }
}

/// What a turn means.
fn act_after(took: bool, happened: Option<Happened>) -> DialAct
    requires fits { IfSome happened (λ h. HappeningFits (happening_of h)) }
    ensures act { act_of result ≡ spec.act_after took (option_map happening_of happened) }
    ensures fits { ActFits result }
{
    match happened {
        None => {
            if took {
                DialAct::Quiet
            } else {
                DialAct::Nothing
            }
        }
        Some(
            Happened::Work {
                work: Work::Call { .. },
            },
        ) => DialAct::Quiet,
        Some(
            Happened::Work {
                work: Work::Host { body },
            },
        ) => DialAct::Host { body },
        Some(Happened::Settled { id, outcome }) => DialAct::Settled { id, outcome },
        Some(Happened::Fired { id, body }) => DialAct::Fired { id, body },
    }
}

impl Dialer {
    /// The link of the attached session is lost.
    pub(crate) fn lose(&mut self, drops: bool, now: Moment) -> DialAct
        ensures steps { Steps self.old self.new (act_of result) (spec.loses drops now) }
        ensures fits { ActFits result }
    {
        let epoch = self.session.epoch();
        self.session.lose(epoch);
        self.attempt = 0;
        self.lost = now;
        self.outgoing.clear();
        self.stage = Stage::Resting {
            until: now.millis(),
        };
        rest_or_drop(drops, now.millis())
    }

    /// The server accepted: the session is attached, with its first bytes.
    pub(crate) fn attach(
        &mut self,
        alloc: Global,
        chunk: &[u8],
        now: Moment,
    ) -> Result<DialAct, NoMemory>
        ensures steps { IfOk result (λ act. Steps self.old self.new (act_of act) (spec.attaches chunk.now now)) }
        ensures same { OnErr result (self.new ≡ self.old) }
        ensures fits { IfOk result ActFits }
    {
        let epoch = self.session.epoch().saturating_add(1);
        if let Err(fault) = self.session.attach(alloc, epoch, chunk, now) {
            judged(fault)?;
            return Ok(self.fail(true, now));
        }
        self.attempt = 0;
        self.stage = Stage::Attached;
        Ok(DialAct::Quiet)
    }

    /// Bytes come for the attached session.
    pub(crate) fn feed_session(&mut self, piece: &[u8], now: Moment) -> Result<DialAct, NoMemory>
        ensures steps { IfOk result (λ act. Steps self.old self.new (act_of act) (spec.feeds_attached piece.now now)) }
        ensures same { OnErr result (self.new ≡ self.old) }
        ensures fits { IfOk result ActFits }
    {
        let epoch = self.session.epoch();
        if let Err(fault) = self.session.feed(epoch, piece, now) {
            judged(fault)?;
            return Ok(DialAct::Nothing);
        }
        Ok(DialAct::Nothing)
    }

    /// One frame of the attached session.
    pub(crate) fn turn(&mut self, alloc: Global, now: Moment) -> Result<DialAct, NoMemory>
        ensures steps { IfOk result (λ act. Steps self.old self.new (act_of act) (spec.turns now)) }
        ensures same { OnErr result (self.new ≡ self.old) }
        ensures fits { IfOk result ActFits }
    {
        self.outgoing.reserve(1)?;
        let epoch = self.session.epoch();
        match self.session.turn(alloc, epoch, &[], now) {
            Ok(turn) => {
                let Turn {
                    out,
                    happened,
                    took,
                    again: _,
                    ended,
                } = turn;
                self.outgoing.put(out);
                match ended {
                    Some(cause) => {
                        Ok(self.finish(DialEnd::Ended { cause }, DialEnd::Ended { cause }))
                    }
                    None => Ok(act_after(took, happened)),
                }
            }
            Err(fault) => self.refused(fault, now),
        }
    }

    /// A turn was refused by this fault.
    fn refused(&mut self, fault: SessionFault, now: Moment) -> Result<DialAct, NoMemory>
        ensures steps { IfOk result (λ act. (r : Refusal) → IsRefusal fault (Some r) → Steps self.old self.new (act_of act) (spec.after_refusal r now)) }
        ensures judged { OnOk result (fault ≢ faults.NoMemory) }
        ensures same { OnErr result (self.new ≡ self.old) }
        ensures memory { OnErr result (fault ≡ faults.NoMemory) }
        ensures fits { IfOk result ActFits }
    {
        match fault {
            SessionFault::BadIpc { .. } => {
                let cause = Cause::BadIpc;
                Ok(self.finish(DialEnd::Ended { cause }, DialEnd::Ended { cause }))
            }
            SessionFault::TooLong { .. } => Ok(self.lose(true, now)),
            SessionFault::IdsSpent => Ok(self.finish(DialEnd::IdsSpent, DialEnd::IdsSpent)),
            SessionFault::NoMemory => Err(NoMemory),
            SessionFault::Ended { .. }
            | SessionFault::Stale { .. }
            | SessionFault::NoLink
            | SessionFault::TooLarge { .. }
            | SessionFault::NoSuchCall { .. }
            | SessionFault::WrongKind => Ok(DialAct::Nothing),
        }
    }

    /// Time passes while the session is attached.
    pub(crate) fn tick_session(&mut self, alloc: Global, now: Moment) -> Result<DialAct, NoMemory>
        ensures steps { IfOk result (λ act. Steps self.old self.new (act_of act) (spec.ticks now)) }
        ensures same { OnErr result (self.new ≡ self.old) }
        ensures fits { IfOk result ActFits }
    {
        match self.session.tick(alloc, now) {
            Ok(ticked) => {
                if ticked.timed_out {
                    return Ok(self.lose(true, now));
                }
                Ok(DialAct::Rest {
                    until: now.millis() + TICK_SPAN,
                })
            }
            Err(fault) => {
                judged(fault)?;
                Ok(self.finish(DialEnd::IdsSpent, DialEnd::IdsSpent))
            }
        }
    }

    /// The session leaves, and the dialer is over.
    pub(crate) fn leave(&mut self) -> Result<DialAct, NoMemory>
        ensures steps { IfOk result (λ act. Steps self.old self.new (act_of act) spec.leaves) }
        ensures same { OnErr result (self.new ≡ self.old) }
        ensures fits { IfOk result ActFits }
    {
        self.outgoing.reserve(1)?;
        match self.session.leave() {
            Ok(out) => {
                self.outgoing.put(out);
                Ok(self.finish(DialEnd::Stopped, DialEnd::Stopped))
            }
            Err(fault) => {
                judged(fault)?;
                Ok(self.finish(DialEnd::Stopped, DialEnd::Stopped))
            }
        }
    }
}
