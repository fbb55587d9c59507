//! What is done to a session, row by row, and what comes of it.
ghost use Rattle.std.specs.Prelude.{IfOk};
ghost use Rattle.ra_values.specs.Spelling.{Fits, levels};
ghost use Rattle.ra_values.specs.View.{tree};
ghost use Rattle.ra_session.specs.View.{RoleFits};

use crate::fixtures::{at, hi, short};
use ra_base::{Cause, Kind, Message, Moment};
use ra_chan_server::Fire;
use ra_ipc::Answer;
use ra_session::{Happened, Outcome, Role, Session, SessionFault, Tell, Turn, Work};
use ra_values::{Value, append};
use std::alloc::Global;

/// What is done to a session.
pub(crate) enum Act {
    /// A link of this epoch begins.
    Attach(u64),
    /// These bytes come on the link of this epoch, and one frame is taken.
    Turn(u64, &'static [u8]),
    /// These bytes come on the link of this epoch.
    Feed(u64, &'static [u8]),
    /// The link of this epoch is lost.
    Lose(u64),
    Tick,
    /// This name of `tools` is called with `hi`.
    Call(&'static str),
    /// A listener to `said` of `tools` begins.
    Listen,
    Cancel(i32),
    Dispose(i32),
    /// The call of this id is answered: by 2, by `hi`, by nothing, or by nothing behind the event `said`.
    AnswerTwo(i32),
    AnswerHi(i32),
    AnswerNothing(i32),
    AnswerAndFire(i32),
    /// An extension host says `hi`.
    Say,
    Leave,
    /// The session ends, since what was heard is no packet.
    End,
    /// Asks why the session ended, for the epoch of its link, or for the last id that was given.
    Cause,
    Epoch,
    Sent,
}

/// An act, its moment, what comes of it, and the bytes that are written then.
pub(crate) type Row = (Act, u64, (u8, i32), &'static [u8]);

/// Nothing to tell.
pub(crate) const NOTHING: (u8, i32) = (b'-', 0);

/// What the peer wants: W with the id of a call, H.
fn wanted(work: &Work) -> (u8, i32) {
    match work {
        Work::Call { id, .. } => (b'W', *id),
        Work::Host { .. } => (b'H', 0),
    }
}

/// How a call ended: S or C.
fn settled(outcome: &Outcome) -> u8 {
    match outcome {
        Outcome::Answered { .. } => b'S',
        Outcome::Cancelled => b'C',
    }
}

/// What happened: what the peer wants, how the call with this id ended, or F with the id of a listener.
fn happening(happened: &Happened) -> (u8, i32) {
    match happened {
        Happened::Work { work } => wanted(work),
        Happened::Settled { id, outcome } => (settled(outcome), *id),
        Happened::Fired { id, .. } => (b'F', *id),
    }
}

/// What happened in a turn. A plus where nothing did, but a frame was taken and another one is due.
fn seen(turn: &Turn) -> (u8, i32) {
    match &turn.happened {
        Some(happened) => happening(happened),
        None => (if turn.took && turn.again { b'+' } else { b'-' }, 0),
    }
}

/// A small number, and -1 for any other one.
fn small(number: u64) -> i32 {
    if number < 1000 { number as i32 } else { -1 }
}

/// Why it is refused: O for an old link, with the epoch of the present one, N where the call is not there, B for no packet.
fn refused(fault: &SessionFault) -> (u8, i32) {
    match fault {
        SessionFault::Stale { current } => (b'O', small(*current)),
        SessionFault::NoSuchCall { id } => (b'N', *id),
        SessionFault::BadIpc { .. } => (b'B', 0),
        _ => (b'?', 0),
    }
}

/// What happened in a turn; an exclamation mark where it writes other bytes than these.
fn turn(
    alloc: Global,
    session: &mut Session,
    epoch: u64,
    bytes: &[u8],
    now: Moment,
    out: &[u8],
) -> Result<(u8, i32), SessionFault> {
    let turn = session.turn(alloc, epoch, bytes, now)?;
    Ok(if turn.out.as_slice() == out {
        seen(&turn)
    } else {
        (b'!', 0)
    })
}

pub(crate) fn attach(
    alloc: Global,
    session: &mut Session,
    epoch: u64,
    now: Moment,
) -> Result<(u8, i32), SessionFault> {
    session.attach(alloc, epoch, &[], now)?;
    Ok(NOTHING)
}

fn feed(
    session: &mut Session,
    epoch: u64,
    bytes: &[u8],
    now: Moment,
) -> Result<(u8, i32), SessionFault> {
    session.feed(epoch, bytes, now)?;
    Ok(NOTHING)
}

fn lose(session: &mut Session, epoch: u64) -> (u8, i32) {
    (if session.lose(epoch) { b'L' } else { b'-' }, 0)
}

fn tick(alloc: Global, session: &mut Session, now: Moment) -> Result<(u8, i32), SessionFault> {
    let ticked = session.tick(alloc, now)?;
    Ok((if ticked.timed_out { b'T' } else { b'-' }, 0))
}

fn call(
    alloc: Global,
    session: &mut Session,
    name: &str,
    now: Moment,
) -> Result<(u8, i32), SessionFault> {
    let channel = short(alloc, "tools")?;
    let name = short(alloc, name)?;
    let id = session.call(alloc, channel, name, hi(alloc)?, now)?;
    Ok((b'c', id))
}

fn listen(alloc: Global, session: &mut Session, now: Moment) -> Result<(u8, i32), SessionFault> {
    let channel = short(alloc, "tools")?;
    let event = short(alloc, "said")?;
    let id = session.listen(alloc, channel, event, Value::Undefined, now)?;
    Ok((b'l', id))
}

fn cancel(
    alloc: Global,
    session: &mut Session,
    id: i32,
    now: Moment,
) -> Result<(u8, i32), SessionFault> {
    match session.cancel(alloc, id, now)? {
        Outcome::Cancelled => Ok((b'C', id)),
        Outcome::Answered { .. } => Ok((b'S', id)),
    }
}

fn dispose(
    alloc: Global,
    session: &mut Session,
    id: i32,
    now: Moment,
) -> Result<(u8, i32), SessionFault> {
    session.dispose(alloc, id, now)?;
    Ok(NOTHING)
}

/// The call of this id is answered by this value.
fn answer(
    alloc: Global,
    session: &mut Session,
    id: i32,
    body: Value,
    now: Moment,
) -> Result<(u8, i32), SessionFault>
    requires { Fits levels (tree body) }
{
    let answer = Answer::Success { body };
    let fire = None;
    session.tell(alloc, Tell::Answer { id, answer, fire }, now)?;
    Ok(NOTHING)
}

/// The call of this id is answered by nothing, behind the event `said` of `hi`.
fn fire(
    alloc: Global,
    session: &mut Session,
    id: i32,
    now: Moment,
) -> Result<(u8, i32), SessionFault> {
    let channel = short(alloc, "tools")?;
    let event = short(alloc, "said")?;
    let body = hi(alloc)?;
    let fire = Some(Fire {
        channel,
        event,
        body,
    });
    let body = Value::Undefined;
    let answer = Answer::Success { body };
    session.tell(alloc, Tell::Answer { id, answer, fire }, now)?;
    Ok(NOTHING)
}

fn say(alloc: Global, session: &mut Session, now: Moment) -> Result<(u8, i32), SessionFault> {
    let body = Message::copy(alloc, b"hi")?;
    session.tell(alloc, Tell::Say { body }, now)?;
    Ok(NOTHING)
}

/// An exclamation mark where it is left by other bytes than these.
fn leave(session: &mut Session, out: &[u8]) -> Result<(u8, i32), SessionFault> {
    let left = session.leave()?;
    Ok((if left.as_slice() == out { b'-' } else { b'!' }, 0))
}

fn end(session: &mut Session) -> (u8, i32) {
    session.end(Cause::BadIpc);
    NOTHING
}

fn cause(session: &Session) -> (u8, i32) {
    match session.cause() {
        Some(Cause::BadIpc) => (b'B', 0),
        Some(Cause::Disconnected) => (b'D', 0),
        Some(_) => (b'?', 0),
        None => NOTHING,
    }
}

/// What comes of an act.
fn play(
    alloc: Global,
    session: &mut Session,
    act: &Act,
    now: Moment,
    out: &[u8],
) -> Result<(u8, i32), SessionFault> {
    match act {
        Act::Attach(epoch) => attach(alloc, session, *epoch, now),
        Act::Turn(epoch, bytes) => turn(alloc, session, *epoch, bytes, now, out),
        Act::Feed(epoch, bytes) => feed(session, *epoch, bytes, now),
        Act::Lose(epoch) => Ok(lose(session, *epoch)),
        Act::Tick => tick(alloc, session, now),
        Act::Call(name) => call(alloc, session, name, now),
        Act::Listen => listen(alloc, session, now),
        Act::Cancel(id) => cancel(alloc, session, *id, now),
        Act::Dispose(id) => dispose(alloc, session, *id, now),
        Act::AnswerTwo(id) => answer(alloc, session, *id, Value::Int { n: 2 }, now),
        Act::AnswerHi(id) => answer(alloc, session, *id, hi(alloc)?, now),
        Act::AnswerNothing(id) => answer(alloc, session, *id, Value::Undefined, now),
        Act::AnswerAndFire(id) => fire(alloc, session, *id, now),
        Act::Say => say(alloc, session, now),
        Act::Leave => leave(session, out),
        Act::End => Ok(end(session)),
        Act::Cause => Ok(cause(session)),
        Act::Epoch => Ok((b'e', small(session.epoch()))),
        Act::Sent => Ok((b's', small(session.marks().sent))),
    }
}

/// All that the session writes are these bytes.
fn writes(session: &mut Session, bytes: &[u8]) -> bool {
    let out = session.take_out();
    out.as_slice() == bytes
}

/// Whether a row comes to what it says.
fn is_met(alloc: Global, session: &mut Session, row: &Row) -> bool {
    let (act, millis, expected, out) = row;
    let found = match play(alloc, session, act, at(*millis), out) {
        Ok(seen) => seen,
        Err(fault) => refused(&fault),
    };
    let handed_out = matches!(act, Act::Turn(..) | Act::Leave);
    found == *expected && (handed_out || writes(session, out))
}

/// The first row that comes to something else than it says.
fn first_other(alloc: Global, session: &mut Session, rows: &[Row]) -> Option<usize> {
    for (at, row) in rows.iter().enumerate() {
        if !is_met(alloc, session, row) {
            return Some(at);
        }
    }
    None
}

/// The context `window`.
fn window(alloc: Global) -> Result<Role, SessionFault>
    ensures { IfOk result (λ role. RoleFits role) }
{
    let context = Value::Text {
        text: short(alloc, "window")?,
    };
    let mut bytes = Vec::new(alloc);
    append(&context, &mut bytes)?;
    if bytes.len() > 268_435_456 {
        return Err(SessionFault::NoMemory);
    }
    Ok(Role::Dialling { context })
}

/// The first row that comes to something else than it says in the session of a window; the one behind the last where memory is wanting.
pub(crate) fn in_window(alloc: Global, rows: &[Row]) -> Option<usize> {
    let Ok(role) = window(alloc) else {
        return Some(rows.len());
    };
    match Session::new(alloc, Kind::Management, role, Moment::start()) {
        Ok(mut session) => first_other(alloc, &mut session, rows),
        Err(_) => Some(rows.len()),
    }
}

/// The same in a session that is served.
pub(crate) fn in_served(alloc: Global, kind: Kind, rows: &[Row]) -> Option<usize> {
    match Session::new(alloc, kind, Role::Serving, Moment::start()) {
        Ok(mut session) => first_other(alloc, &mut session, rows),
        Err(_) => Some(rows.len()),
    }
}
