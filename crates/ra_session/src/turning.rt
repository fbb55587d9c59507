//! Turns: bytes come, one frame is applied, and what it means happens.
ghost use Rattle.std.specs.Prelude.{◌≡◌, true, false, None, IfOk, IfErr, OnOk, OnErr};
ghost use Rattle.ra_model.specs.Endpoints.{Endpoint as AbstractEndpoint, is_linked};
ghost use Rattle.ra_model.specs.EndpointStates.{StandsFor};
ghost use Rattle.ra_model.specs.FirstFrame.{is_too_long};
ghost use Rattle.ra_model.specs.Taking.{delivery};
ghost use Rattle.ra_proto.specs.Coming.{is_no_message};
ghost use Rattle.ra_proto.specs.Shown.{shown_of, is_ready};
ghost use Rattle.ra_session.specs.SessionCalls.{emptied};
ghost use Rattle.ra_session.specs.Carried.{TurnCarries};
ghost use Rattle.ra_session.specs.Turns as turns;
ghost use Rattle.ra_session.specs.TurnRefusals.{TurnLeaves, is_bad_ipc, taken_refusal, turn_refusal};
ghost use Rattle.ra_session.specs.SessionRefusals.{Refuses};
ghost use Rattle.ra_session.specs.SessionStates.{OfEachSession, SessionBecomes};
ghost use Rattle.ra_session.specs.View.{turn_of, TurnFits};

use crate::session::{Session, running};
use crate::values::{Happened, SessionFault, Turn};
use ra_base::{Cause, Moment};
use ra_proto::{Coming, Up};
use std::alloc::Global;

/// How the session ends by what is handed up.
fn ended_by(up: Option<Up>) -> Option<Cause>
    ensures { result ≡ turns.ended_by up }
{
    match up {
        Some(Up::Ended) => Some(Cause::Disconnected),
        Some(Up::Message { .. } | Up::Control { .. } | Up::Quiet) | None => None,
    }
}

/// Whether a bad message was heard.
fn is_bad_ipc(fault: &SessionFault) -> bool
    ensures { result ≡ is_bad_ipc fault.now }
{
    match fault {
        SessionFault::BadIpc { .. } => true,
        SessionFault::Ended { .. }
        | SessionFault::Stale { .. }
        | SessionFault::NoLink
        | SessionFault::TooLong { .. }
        | SessionFault::TooLarge { .. }
        | SessionFault::IdsSpent
        | SessionFault::NoSuchCall { .. }
        | SessionFault::WrongKind
        | SessionFault::NoMemory => false,
    }
}

impl Session {
    /// Ends a turn: all that may be put on the link is handed out.
    pub(crate) fn finish(
        &mut self,
        happened: Option<Happened>,
        took: bool,
        ended: Option<Cause>,
    ) -> Turn
        ensures stands { (e : AbstractEndpoint) → StandsFor self.old.endpoint e → StandsFor self.new.endpoint (emptied e) }
        ensures state { self.new ≡ record self.old { endpoint = self.new.endpoint } }
        ensures out { result.out ≡ shown_of self.old.endpoint }
        ensures again { result.again ≡ is_ready self.old.endpoint }
        ensures told { (result.happened ≡ happened) × (result.took ≡ took) × (result.ended ≡ ended) }
    {
        let again = self.endpoint.ready();
        let out = self.endpoint.take_out();
        Turn {
            out,
            happened,
            took,
            again,
            ended,
        }
    }

    /// A frame that is no message is applied.
    fn take_other(&mut self, now: Moment) -> Result<Turn, SessionFault>
        requires going { self.old.cause ≡ None }
        requires linked { is_linked self.old.endpoint.phase ≡ true }
        requires coming { (e : AbstractEndpoint) → StandsFor self.old.endpoint e → is_no_message (delivery e) ≡ true }
        ensures leaves { TurnLeaves result (SessionBecomes self.old self.new (turns.take_turn now)) (self.new ≡ self.old) }
        ensures answered { IfOk result (λ t. OfEachSession self.old (λ s. turn_of t ≡ turns.taken_answer now s)) }
        ensures fits { IfOk result TurnFits }
        ensures carries { IfErr result TurnCarries }
        ensures refused { OfEachSession self.old (λ s. Refuses result (taken_refusal now s)) }
    {
        let up = self.endpoint.next(now)?;
        let ended = ended_by(up);
        self.cause = ended;
        Ok(self.finish(None, true, ended))
    }

    /// One frame is applied, where a whole one is unread.
    fn take_one(&mut self, alloc: Global, now: Moment) -> Result<Turn, SessionFault>
        requires going { self.old.cause ≡ None }
        requires linked { is_linked self.old.endpoint.phase ≡ true }
        ensures leaves { TurnLeaves result (SessionBecomes self.old self.new (turns.take_turn now)) (self.new ≡ self.old) }
        ensures answered { IfOk result (λ t. OfEachSession self.old (λ s. turn_of t ≡ turns.taken_answer now s)) }
        ensures fits { IfOk result TurnFits }
        ensures carries { IfErr result TurnCarries }
        ensures refused { OfEachSession self.old (λ s. Refuses result (taken_refusal now s)) }
    {
        match self.endpoint.peek()? {
            Coming::Nothing => Ok(self.finish(None, false, None)),
            Coming::Other => self.take_other(now),
            Coming::Message { message } => self.take_message(alloc, message, now),
        }
    }

    /// Bytes of the link come, and one frame is applied, where a whole one is unread. What may be put on the link is handed out.
    ///
    /// A message that is no packet, or whose id is active, ends the session: it counts as heard. Any other refusal leaves the
    /// session as it was, without the piece.
    pub fn turn(
        &mut self,
        alloc: Global,
        epoch: u64,
        piece: &[u8],
        now: Moment,
    ) -> Result<Turn, SessionFault>
        ensures leaves { TurnLeaves result (SessionBecomes self.old self.new (turns.turn epoch piece.now now)) (self.new ≡ self.old) }
        ensures answered { IfOk result (λ t. OfEachSession self.old (λ s. turn_of t ≡ turns.turn_answer epoch piece.now now s)) }
        ensures fits { IfOk result TurnFits }
        ensures carries { IfErr result TurnCarries }
        ensures refused { OfEachSession self.old (λ s. Refuses result (turn_refusal epoch piece.now now s)) }
    {
        running(self.cause)?;
        let mark = self.endpoint.feed_mark();
        self.endpoint.feed(epoch, piece, now)?;
        match self.take_one(alloc, now) {
            Ok(turn) => Ok(turn),
            Err(fault) => {
                if is_bad_ipc(&fault) {
                    return Err(fault);
                }
                self.endpoint.undo_feed(mark);
                Err(fault)
            }
        }
    }
}
