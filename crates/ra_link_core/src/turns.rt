//! The turns of a session over a link.
ghost use Rattle.std.specs.Prelude.{◌≡◌, ◌<◌, ◌++◌, ℕ, List, Option, Some, None, IfSome, OnOk, OnErr};
ghost use Rattle.ra_hub.specs.Jobs.{SeenJob};
ghost use Rattle.ra_hub.specs.Faults.{IsOfAttach, IsOfTurn};
ghost use Rattle.ra_session.specs.Hearing.{HappeningFits};
ghost use Rattle.ra_session.specs.View.{TurnFits, happening_of};
ghost use Rattle.ra_session.specs.Carried.{AttachCarries, TurnCarries};
ghost use Rattle.ra_link_core.specs.Carried.{EndCarries, Carries};
ghost use Rattle.ra_link_core.specs.LinkRuns.{Serving, served, turned_again, turn_ended, writes};
ghost use Rattle.ra_link_core.specs.Makes.{Base, IsGoing, Happens, Follows, Makes, RefusesTurn, Holds, Balance, NotUnkept, IsSeated, with_work, going_on, seat_after, step_of, outcome_of, session_end, hub_end};

use crate::ends::CoreEnd;
use ra_base::{Cause, Key, Moment, NoMemory, Seat};
use ra_hub::{Hub, HubFault, Job, JobSink};
use ra_session::{Happened, SessionFault, Turn};
use std::alloc::Global;

/// Where a link stands after a step: the seat that it has, and whether it ended.
#[derive(Drop)]
pub(crate) struct Step {
    pub seat: Option<Seat>,
    pub end: Option<CoreEnd>,
}

/// What a turn came to.
#[derive(Drop)]
pub(crate) enum TurnStep {
    /// One more turn is due.
    Again { seat: Seat },
    /// The link waits for more.
    Waits { seat: Seat },
    /// The link ended, and has this seat.
    Ends { seat: Option<Seat>, end: CoreEnd },
}

fn session_end(fault: SessionFault) -> CoreEnd
    ensures value { result ≡ session_end fault }
    ensures never { NotUnkept (Some result) }
    ensures turned { TurnCarries fault → EndCarries result }
    ensures attached { AttachCarries fault → EndCarries result }
{
    match fault {
        SessionFault::Ended { cause } => CoreEnd::Ended { cause },
        SessionFault::Stale { current } => CoreEnd::Stale { current },
        SessionFault::NoLink => CoreEnd::NoLink,
        SessionFault::TooLong { stated } => CoreEnd::TooLong { stated },
        SessionFault::BadIpc { fault, message } => CoreEnd::BadIpc { fault, message },
        SessionFault::IdsSpent => CoreEnd::IdsSpent,
        SessionFault::TooLarge { len: _ }
        | SessionFault::NoSuchCall { id: _ }
        | SessionFault::WrongKind
        | SessionFault::NoMemory => CoreEnd::NoMemory,
    }
}

/// The end that a fault of a turn or of an attachment makes.
pub(crate) fn hub_end(fault: HubFault) -> CoreEnd
    ensures value { result ≡ hub_end fault }
    ensures never { NotUnkept (Some result) }
    ensures turned { IsOfTurn fault → EndCarries result }
    ensures attached { IsOfAttach fault → EndCarries result }
{
    match fault {
        HubFault::Session { fault } => session_end(fault),
        HubFault::Refused { reason: _ }
        | HubFault::NoSession
        | HubFault::KeepFault
        | HubFault::NoMemory => CoreEnd::NoMemory,
    }
}

/// Adds the bytes, or nothing where there is no memory.
fn write(out: &mut Vec<u8>, bytes: &[u8]) -> Result<(), NoMemory>
    ensures ok { OnOk result (out.new.items ≡ out.old.items ++ bytes.now) }
    ensures err { OnErr result (out.new.items ≡ out.old.items) }
{
    out.extend_from_slice(bytes)?;
    Ok(())
}

/// Puts what happened, if it is work.
fn put_happened<J: JobSink>(jobs: &mut J, key: Key, happened: Happened)
    requires room { 0 < J.room jobs.old }
    requires fits { HappeningFits (happening_of happened) }
    ensures { J.told jobs.new ≡ with_work key (Some happened) (J.told jobs.old) }
{
    match happened {
        Happened::Work { work } => jobs.put(Job::new(key, work)),
        other => drop(other),
    }
}

/// Puts the work that happened, where some did.
fn put_job<J: JobSink>(jobs: &mut J, key: Key, happened: Option<Happened>)
    requires room { 0 < J.room jobs.old }
    requires fits { IfSome happened (λ h. HappeningFits (happening_of h)) }
    ensures { J.told jobs.new ≡ with_work key happened (J.told jobs.old) }
{
    if let Some(happened) = happened {
        put_happened(jobs, key, happened);
    }
}

/// A link whose session goes on.
fn going_on(seat: Seat, again: bool) -> TurnStep
    ensures { result ≡ going_on seat again }
{
    if again {
        TurnStep::Again { seat }
    } else {
        TurnStep::Waits { seat }
    }
}

/// What a turn that was made leaves: a session that its peer left is closed.
fn after_turn<H: Hub>(
    hub: &mut H,
    seat: Seat,
    again: bool,
    ended: Option<Cause>,
    now: Moment,
) -> TurnStep
    requires { 0 < H.seats hub.old seat }
    ensures holds { Holds (H.seats hub.new) (seat_after result) }
    ensures seats { Balance (Some seat) (H.seats hub.old) (seat_after result) (H.seats hub.new) }
    ensures kept { H.keep_faults hub.new ≡ H.keep_faults hub.old }
    ensures never { NotUnkept (step_of result).end }
    ensures carries { Carries (step_of result).end }
    ensures made { (n : ℕ) (jobs : Option (List SeenJob)) (base : Base) (out : List ℕ) (s v u : Serving)
        → IsGoing (Some seat) (H.stands hub.old) jobs base out v → Happens s v
        → turned_again n seat now (turn_ended ended again seat now v) ≡ u
        → Follows result (H.stands hub.new) jobs base out n now s u }
{
    match ended {
        Some(cause) => {
            hub.close(seat, cause, now);
            TurnStep::Ends {
                seat: None,
                end: CoreEnd::Ended { cause },
            }
        }
        None => going_on(seat, again),
    }
}

/// What a refused turn leaves: a session that heard a bad message is closed.
fn refuse_turn<H: Hub>(hub: &mut H, seat: Seat, end: CoreEnd, now: Moment) -> TurnStep
    requires seat { 0 < H.seats hub.old seat }
    requires never { NotUnkept (Some end) }
    requires carries { EndCarries end }
    ensures holds { Holds (H.seats hub.new) (seat_after result) }
    ensures seats { Balance (Some seat) (H.seats hub.old) (seat_after result) (H.seats hub.new) }
    ensures kept { H.keep_faults hub.new ≡ H.keep_faults hub.old }
    ensures never { NotUnkept (step_of result).end }
    ensures carries { Carries (step_of result).end }
    ensures made { RefusesTurn end seat now (H.stands hub.old) (H.stands hub.new) result }
{
    if let CoreEnd::BadIpc { fault, message } = end {
        hub.close(seat, Cause::BadIpc, now);
        return TurnStep::Ends {
            seat: None,
            end: CoreEnd::BadIpc { fault, message },
        };
    }
    TurnStep::Ends {
        seat: Some(seat),
        end,
    }
}

fn no_memory(seat: Seat) -> TurnStep
    ensures { result ≡ TurnStep.Ends (Some seat) CoreEnd.NoMemory }
{
    TurnStep::Ends {
        seat: Some(seat),
        end: CoreEnd::NoMemory,
    }
}

/// A turn that was made: its job is put, and then it is written out.
fn take_turn<H: Hub, J: JobSink>(
    hub: &mut H,
    jobs: &mut J,
    seat: Seat,
    turn: Turn,
    now: Moment,
    out: &mut Vec<u8>,
) -> TurnStep
    requires seat { 0 < H.seats hub.old seat }
    requires room { 0 < J.room jobs.old }
    requires fits { TurnFits turn }
    ensures holds { Holds (H.seats hub.new) (seat_after result) }
    ensures seats { Balance (Some seat) (H.seats hub.old) (seat_after result) (H.seats hub.new) }
    ensures kept { H.keep_faults hub.new ≡ H.keep_faults hub.old }
    ensures never { NotUnkept (step_of result).end }
    ensures carries { Carries (step_of result).end }
    ensures made { (n : ℕ) (base : Base) (s v : Serving)
        → IsGoing (Some seat) (H.stands hub.old) (with_work seat.key turn.happened (J.told jobs.old)) base out.old.items v
        → Happens s v
        → Follows result (H.stands hub.new) (J.told jobs.new) base out.new.items n now s
        (turned_again n seat now (turn_ended turn.ended turn.again seat now (writes turn.out v))) }
{
    let Turn {
        out: bytes,
        happened,
        took: _,
        again,
        ended,
    } = turn;
    put_job(jobs, seat.key.same(), happened);
    match write(out, bytes.as_slice()) {
        Err(_) => no_memory(seat),
        Ok(()) => after_turn(hub, seat, again, ended, now),
    }
}

/// One turn.
fn turn_once<H: Hub, J: JobSink>(
    alloc: Global,
    hub: &mut H,
    jobs: &mut J,
    seat: Seat,
    piece: &[u8],
    now: Moment,
    out: &mut Vec<u8>,
) -> TurnStep
    requires { 0 < H.seats hub.old seat }
    ensures holds { Holds (H.seats hub.new) (seat_after result) }
    ensures seats { Balance (Some seat) (H.seats hub.old) (seat_after result) (H.seats hub.new) }
    ensures kept { H.keep_faults hub.new ≡ H.keep_faults hub.old }
    ensures never { NotUnkept (step_of result).end }
    ensures carries { Carries (step_of result).end }
    ensures made { (n : ℕ) (base : Base) (s v : Serving)
        → IsGoing (Some seat) (H.stands hub.old) (J.told jobs.old) base out.old.items v → Happens s v
        → Follows result (H.stands hub.new) (J.told jobs.new) base out.new.items n now s (served n seat piece.now now v) }
{
    if jobs.reserve().is_err() {
        return no_memory(seat);
    }
    match hub.turn(alloc, &seat, piece, now) {
        Err(fault) => refuse_turn(hub, seat, hub_end(fault), now),
        Ok(turn) => take_turn(hub, jobs, seat, turn, now, out),
    }
}

/// Where a link stands once it makes no more turns.
fn rest(state: TurnStep) -> Step
    ensures value { result ≡ step_of state }
    ensures seated { IsSeated result }
{
    match state {
        TurnStep::Again { seat } | TurnStep::Waits { seat } => Step {
            seat: Some(seat),
            end: None,
        },
        TurnStep::Ends { seat, end } => Step {
            seat,
            end: Some(end),
        },
    }
}

/// One turn with a piece, and up to so many more as long as one more is due.
pub(crate) fn serve_turns<H: Hub, J: JobSink>(
    alloc: Global,
    hub: &mut H,
    jobs: &mut J,
    seat: Seat,
    piece: &[u8],
    more: usize,
    now: Moment,
    out: &mut Vec<u8>,
) -> Step
    requires { 0 < H.seats hub.old seat }
    ensures holds { Holds (H.seats hub.new) result.seat }
    ensures seats { Balance (Some seat) (H.seats hub.old) result.seat (H.seats hub.new) }
    ensures kept { H.keep_faults hub.new ≡ H.keep_faults hub.old }
    ensures never { NotUnkept result.end }
    ensures carries { Carries result.end }
    ensures seated { IsSeated result }
    ensures made { (base : Base) (s v : Serving)
        → IsGoing (Some seat) (H.stands hub.old) (J.told jobs.old) base out.old.items v → Happens s v
        → Makes (outcome_of result.end) result.seat (H.stands hub.new) (J.told jobs.new) base out.new.items s
        (served more seat piece.now now v) }
{
    let mut state = turn_once(alloc, hub, jobs, seat, piece, now, out);
    for turn in 0..more {
        match state {
            TurnStep::Again { seat } => {
                state = turn_once(alloc, hub, jobs, seat, &[], now, out);
            }
            TurnStep::Waits { seat } => {
                return Step {
                    seat: Some(seat),
                    end: None,
                };
            }
            TurnStep::Ends { seat, end } => {
                return Step {
                    seat,
                    end: Some(end),
                };
            }
        }
    }
    rest(state)
}
