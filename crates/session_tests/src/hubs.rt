//! Hubs: sessions that outlive their links and stay apart, how they end, what their keeper keeps, and the jobs of a list.
ghost use Rattle.std.specs.Prelude.{◌≡◌, ◌≢◌, ◌<◌, Some, All, IfOk};
ghost use Rattle.ra_base.specs.declared.kind.Kind.TheVariants as kinds;
ghost use Rattle.ra_session.specs.View.{TellFits};
ghost use Rattle.ra_keep.specs.Causes.{IsOfNoTunnel};

use crate::fixtures::{BAD, CLIENT_3, OPENING, SERVER_1, at};
use ra_base::{Cause, Key, Kind, Message, Reason, Request, Seat, Token};
use ra_hub::{Hub, HubFault, Job, JobList, JobSink, PlainHub, Swept};
use ra_ipc::Answer;
use ra_keep::{Keeper, MemKeeper, Record};
use ra_session::{Happened, SessionFault, Tell, Turn, Work};
use ra_values::Value;
use std::alloc::Global;
use std::test::*;

const LONG: u64 = 10_800_000;

const SHORT: u64 = 300_000;

/// After a reconnection: an Ack of 3, and the answer `2` to the call 0, as message 2.
const ANSWERED: &[u8] =
    b"\x03\0\0\0\0\0\0\0\x03\0\0\0\0\x01\0\0\0\x02\0\0\0\x03\0\0\0\x09\x04\x02\x06\xc9\x01\x06\0\x06\x02";

fn key(text: &str) -> Option<Key> {
    match Token::from_text(text) {
        Ok(token) => Some(Key {
            kind: Kind::Management,
            token,
        }),
        Err(_) => None,
    }
}

fn ask(text: &str, reconnection: bool) -> Result<Request, Fail>
    ensures { IfOk result (λ ask. ask.kind ≢ Some kinds.Tunnel) }
{
    Ok(Request {
        kind: Some(Kind::Management),
        token: Token::from_text(text)?,
        reconnection,
    })
}

/// A new session, or a reconnection.
#[tactic(auto, using(ra_hub::proofs::SeatLemmas::seat_left))]
fn admit<H: Hub>(
    hub: &mut H,
    alloc: Global,
    text: &str,
    reconnection: bool,
    millis: u64,
) -> Result<Seat, Fail>
    ensures seat { IfOk result (λ seat. 0 < H.seats hub.new seat) }
    ensures others { IfOk result (λ seat. (s : Seat) → 0 < H.seats hub.old s → 0 < H.seats hub.new s) }
{
    let ask = ask(text, reconnection)?;
    Ok(hub.admit(alloc, ask, at(millis))?)
}

/// Why a request is refused.
fn refusal<H: Hub>(
    hub: &mut H,
    alloc: Global,
    text: &str,
    reconnection: bool,
    millis: u64,
) -> Result<Option<Reason>, Fail> {
    let ask = ask(text, reconnection)?;
    match hub.admit(alloc, ask, at(millis)) {
        Err(HubFault::Refused { reason }) => Ok(Some(reason)),
        Ok(_) | Err(_) => Ok(None),
    }
}

/// A link begins.
#[tactic(auto, using(ra_hub::proofs::SeatLemmas::seat_stays))]
fn attach<H: Hub>(hub: &mut H, alloc: Global, seat: &Seat) -> bool
    requires { 0 < H.seats hub.old seat.now }
    ensures { (s : Seat) → 0 < H.seats hub.old s → 0 < H.seats hub.new s }
{
    hub.attach(alloc, seat, &[], at(0)).is_ok()
}

/// Bytes come, and one frame is applied.
#[tactic(auto, using(ra_hub::proofs::SeatLemmas::seat_stays))]
fn turn<H: Hub>(hub: &mut H, alloc: Global, seat: &Seat, piece: &[u8]) -> Result<Turn, HubFault>
    requires { 0 < H.seats hub.old seat.now }
    ensures { (s : Seat) → 0 < H.seats hub.old s → 0 < H.seats hub.new s }
{
    hub.turn(alloc, seat, piece, at(0))
}

/// Whether a turn writes these bytes.
fn writes(turn: Result<Turn, HubFault>, bytes: &[u8]) -> bool {
    turn.is_ok_and(|turn| turn.out.as_slice() == bytes)
}

/// Whether the peer calls the call with this id.
fn calls(turn: Result<Turn, HubFault>, wanted: i32) -> bool {
    match turn {
        Ok(
            Turn {
                happened: Some(
                    Happened::Work {
                        work: Work::Call { id, .. },
                    },
                ),
                ..
            },
        ) => id == wanted,
        Ok(_) | Err(_) => false,
    }
}

/// The application answers the call with this id by the number 2.
fn answer<H: Hub>(hub: &mut H, alloc: Global, text: &str, id: i32) -> Result<(), HubFault>
    ensures { (s : Seat) → 0 < H.seats hub.old s → 0 < H.seats hub.new s }
{
    let Some(key) = key(text) else {
        return Err(HubFault::NoMemory);
    };
    let body = Value::Int { n: 2 };
    let answer = Answer::Success { body };
    let fire = None;
    hub.tell(alloc, &key, Tell::Answer { id, answer, fire }, at(0))
}

/// How a session has ended, by what an answer for it is refused with.
fn cause<H: Hub>(hub: &mut H, alloc: Global, text: &str) -> Option<Cause> {
    match answer(hub, alloc, text, 0) {
        Err(
            HubFault::Session {
                fault: SessionFault::Ended { cause },
            },
        ) => Some(cause),
        Ok(()) | Err(_) => None,
    }
}

/// The session hears the context and Initialize, and then a call.
fn is_called<H: Hub>(hub: &mut H, alloc: Global, seat: &Seat) -> bool
    requires { 0 < H.seats hub.old seat.now }
    ensures { (s : Seat) → 0 < H.seats hub.old s → 0 < H.seats hub.new s }
{
    let attached = attach(hub, alloc, seat);
    let greeted = writes(turn(hub, alloc, seat, OPENING), SERVER_1);
    let ready = writes(turn(hub, alloc, seat, &[]), &[]);
    let called = calls(turn(hub, alloc, seat, CLIENT_3), 0);
    attached && greeted && ready && called
}

/// The link is lost.
fn lose<H: Hub>(hub: &mut H, seat: Seat)
    requires { 0 < H.seats hub.old seat }
{
    hub.lost(seat, at(0));
}

/// The call is answered over the second link.
fn answered_later<H: Hub>(hub: &mut H, alloc: Global, text: &str) -> Result<bool, Fail> {
    let second = admit(hub, alloc, text, true, 0)?;
    let attached = attach(hub, alloc, &second);
    let answered = writes(turn(hub, alloc, &second, &[]), ANSWERED);
    lose(hub, second);
    Ok(attached && answered)
}

/// A session is called over its first link.
fn called_first<H: Hub>(hub: &mut H, alloc: Global, text: &str) -> Result<bool, Fail> {
    let first = admit(hub, alloc, text, false, 0)?;
    let called = is_called(hub, alloc, &first);
    lose(hub, first);
    Ok(called)
}

/// Two sessions are called, answered while they have no link, and then hear it.
fn both_outlive<H: Hub>(hub: &mut H, alloc: Global) -> Result<[bool; 6], Fail> {
    Ok([
        called_first(hub, alloc, "t1")?,
        called_first(hub, alloc, "t2")?,
        answer(hub, alloc, "t2", 0).is_ok(),
        answer(hub, alloc, "t1", 0).is_ok(),
        answered_later(hub, alloc, "t1")?,
        answered_later(hub, alloc, "t2")?,
    ])
}

#[test]
fn sessions_outlive_their_links_and_stay_apart(rt: HostRuntime) -> Result<(), Fail> {
    let mut hub = PlainHub::new(rt.alloc(), LONG, SHORT);
    assert_eq!(rt; both_outlive(&mut hub, rt.alloc())?, [true; 6]);
    Ok(())
}

/// Whether link 2 is the present one.
fn is_second(fault: SessionFault) -> bool {
    matches!(fault, SessionFault::Stale { current: 2 })
}

/// Whether a turn is refused since another link is the present one, the second.
fn is_stale(turn: Result<Turn, HubFault>) -> bool {
    match turn {
        Err(HubFault::Session { fault }) => is_second(fault),
        Ok(_) | Err(_) => false,
    }
}

/// Link 2 begins, and link 1 is the present one no more.
fn old_link_is_stale<H: Hub>(hub: &mut H, alloc: Global) -> Result<bool, Fail> {
    let first = admit(hub, alloc, "t1", false, 0)?;
    let second = admit(hub, alloc, "t1", true, 0)?;
    let attached = attach(hub, alloc, &second);
    let stale = is_stale(turn(hub, alloc, &first, OPENING));
    Ok(attached && stale)
}

#[test]
fn an_old_link_is_stale(rt: HostRuntime) -> Result<(), Fail> {
    let mut hub = PlainHub::new(rt.alloc(), LONG, SHORT);
    assert!(rt; old_link_is_stale(&mut hub, rt.alloc())?);
    Ok(())
}

/// Whether the session has no call of this id.
fn is_no_call(told: Result<(), HubFault>, wanted: i32) -> bool {
    match told {
        Err(
            HubFault::Session {
                fault: SessionFault::NoSuchCall { id },
            },
        ) => id == wanted,
        Ok(()) | Err(_) => false,
    }
}

/// An answer is refused where there is no session, and then where nobody made the call.
fn no_such_call<H: Hub>(hub: &mut H, alloc: Global) -> Result<bool, Fail> {
    let missed = matches!(answer(hub, alloc, "t1", 5), Err(HubFault::NoSession));
    admit(hub, alloc, "t1", false, 0)?;
    let refused = is_no_call(answer(hub, alloc, "t1", 5), 5);
    Ok(missed && refused)
}

#[test]
fn nobody_is_told(rt: HostRuntime) -> Result<(), Fail> {
    let mut hub = PlainHub::new(rt.alloc(), LONG, SHORT);
    assert!(rt; no_such_call(&mut hub, rt.alloc())?);
    Ok(())
}

/// A session is closed.
fn close<H: Hub>(hub: &mut H, alloc: Global) -> Result<(), Fail> {
    let seat = admit(hub, alloc, "t1", false, 0)?;
    hub.close(seat, Cause::Disconnected, at(0));
    Ok(())
}

/// A session that was closed has that end, and can't be reconnected.
fn closed<H: Hub>(hub: &mut H, alloc: Global) -> Result<bool, Fail> {
    close(hub, alloc)?;
    Ok(
        cause(hub, alloc, "t1") == Some(Cause::Disconnected)
            && refusal(hub, alloc, "t1", true, 1)? == Some(Reason::SeenBefore),
    )
}

/// A session whose link was lost ends once its grace is over: what a tick just before and one at that moment sweep.
fn expires<H: Hub>(hub: &mut H, alloc: Global) -> Result<(Swept, Swept), Fail> {
    let seat = admit(hub, alloc, "t2", false, 0)?;
    lose(hub, seat);
    let early = hub.tick(alloc, at(LONG - 1));
    Ok((early, hub.tick(alloc, at(LONG))))
}

const NONE: Swept = Swept {
    expired: 0,
    short: 0,
};

const ONE: Swept = Swept {
    expired: 1,
    short: 0,
};

#[test]
fn sessions_end(rt: HostRuntime) -> Result<(), Fail> {
    let mut hub = PlainHub::new(rt.alloc(), LONG, SHORT);
    assert!(rt; closed(&mut hub, rt.alloc())?);
    assert!(rt; expires(&mut hub, rt.alloc())? == (NONE, ONE));
    assert!(rt; cause(&mut hub, rt.alloc(), "t2") == Some(Cause::GraceOver));
    Ok(())
}

/// Whether what was heard is no packet.
fn is_bad_ipc(fault: SessionFault) -> bool {
    matches!(fault, SessionFault::BadIpc { .. })
}

/// Whether a turn is refused since its message is no packet.
fn is_bad(turn: Result<Turn, HubFault>) -> bool {
    match turn {
        Err(HubFault::Session { fault }) => is_bad_ipc(fault),
        Ok(_) | Err(_) => false,
    }
}

/// A message that is no packet ends its session.
fn spoiled<H: Hub>(hub: &mut H, alloc: Global) -> Result<bool, Fail> {
    let seat = admit(hub, alloc, "t1", false, 0)?;
    attach(hub, alloc, &seat);
    let bad = is_bad(turn(hub, alloc, &seat, BAD));
    Ok(bad)
}

#[test]
fn a_bad_message_ends_its_session_alone(rt: HostRuntime) -> Result<(), Fail> {
    let mut hub = PlainHub::new(rt.alloc(), LONG, SHORT);
    assert!(rt; spoiled(&mut hub, rt.alloc())?);
    assert!(rt; cause(&mut hub, rt.alloc(), "t1") == Some(Cause::BadIpc));
    assert!(rt; called_first(&mut hub, rt.alloc(), "t2")?);
    Ok(())
}

/// A hub of so many sessions, and whether one more is admitted.
fn admits_many<H: Hub>(hub: &mut H, alloc: Global, count: usize) -> Result<bool, Fail> {
    for session in 0..count {
        let text = format!(in alloc; "t{session}")?;
        admit(hub, alloc, text.as_str(), false, 0)?;
    }
    admit(hub, alloc, "last", false, 0)?;
    Ok(true)
}

#[test]
fn many_sessions_are_open(rt: HostRuntime) -> Result<(), Fail> {
    let mut hub = PlainHub::new(rt.alloc(), LONG, SHORT);
    assert!(rt; admits_many(&mut hub, rt.alloc(), 1_001)?);
    Ok(())
}

/// A hub whose keeper fails at its third call.
fn failing(alloc: Global) -> Result<PlainHub<MemKeeper>, Fail> {
    let mut at = Vec::new(alloc);
    at.push(3)?;
    let keeper = MemKeeper::with(Vec::new(alloc), at);
    Ok(
        PlainHub::start(alloc, keeper, LONG, SHORT)
            .ok()
            .ok_or("not started")?,
    )
}

/// The keeper fails at the second request, which is not answered by an acceptance.
fn second_is_not_kept(hub: &mut PlainHub<MemKeeper>, alloc: Global) -> Result<bool, Fail> {
    admit(hub, alloc, "t1", false, 0)?;
    let ask = ask("t2", false)?;
    let not_kept = matches!(hub.admit(alloc, ask, at(5)), Err(HubFault::KeepFault));
    admit(hub, alloc, "t2", false, 6)?;
    Ok(not_kept)
}

/// What a hub over the same records answers.
fn starts_again(hub: &mut PlainHub<MemKeeper>, alloc: Global) -> Result<bool, Fail> {
    Ok(
        refusal(hub, alloc, "t1", true, 10)? == Some(Reason::SeenBefore)
            && refusal(hub, alloc, "t1", false, 11)? == Some(Reason::Duplicate)
            && refusal(hub, alloc, "t3", true, 12)? == Some(Reason::NeverSeen)
            && cause(hub, alloc, "t1") == Some(Cause::Stopped),
    )
}

/// The records of the keeper.
fn records(alloc: Global, hub: PlainHub<MemKeeper>) -> Result<Vec<Record>, Fail>
    ensures { IfOk result (λ records. All IsOfNoTunnel records.items) }
{
    Ok(hub.into_keeper().all(alloc).ok().ok_or("not told")?)
}

fn are_kept(records: &[Record]) -> bool {
    records.len() == 2
        && (records[0].epoch, records[0].at) == (1, 0)
        && (records[1].epoch, records[1].at) == (1, 6)
}

/// A hub that starts with these records.
fn again(alloc: Global, kept: Vec<Record>) -> Result<PlainHub<MemKeeper>, Fail>
    requires { All IsOfNoTunnel kept.items }
{
    let keeper = MemKeeper::with(kept, Vec::new(alloc));
    Ok(
        PlainHub::start(alloc, keeper, LONG, SHORT)
            .ok()
            .ok_or("not started")?,
    )
}

/// The records of a hub whose second request was not kept.
fn first_run(alloc: Global) -> Result<Vec<Record>, Fail>
    ensures { IfOk result (λ records. All IsOfNoTunnel records.items) }
{
    let mut hub = failing(alloc)?;
    if second_is_not_kept(&mut hub, alloc)? {
        records(alloc, hub)
    } else {
        Err("answered".into())
    }
}

fn second_run(alloc: Global, kept: Vec<Record>) -> Result<bool, Fail>
    requires { All IsOfNoTunnel kept.items }
{
    let mut hub = again(alloc, kept)?;
    starts_again(&mut hub, alloc)
}

#[test]
fn an_acceptance_is_kept_before_it_is_answered(rt: HostRuntime) -> Result<(), Fail> {
    let kept = first_run(rt.alloc())?;
    assert!(rt; are_kept(kept.as_slice()));
    assert!(rt; second_run(rt.alloc(), kept)?);
    Ok(())
}

/// A job of an extension host.
fn job(alloc: Global, text: &str, body: &[u8]) -> Result<Job, Fail> {
    let body = Message::copy(alloc, body)?;
    let key = key(text).ok_or("no token")?;
    Ok(Job::new(key, Work::Host { body }))
}

fn put(jobs: &mut JobList, job: Job) -> Result<(), Fail> {
    jobs.reserve()?;
    jobs.put(job);
    Ok(())
}

/// The bytes of a job of an extension host.
fn says(job: &Job, bytes: &[u8]) -> bool {
    match job.work() {
        Work::Host { body } => body.as_slice() == bytes,
        Work::Call { .. } => false,
    }
}

fn is_host(work: &Work) -> bool {
    matches!(work, Work::Host { body: _ })
}

#[test]
fn jobs_are_taken_by_their_place(rt: HostRuntime) -> Result<(), Fail> {
    let mut jobs = JobList::new(rt.alloc());
    put(&mut jobs, job(rt.alloc(), "t1", b"a")?)?;
    put(&mut jobs, job(rt.alloc(), "t2", b"b")?)?;
    assert_eq!(rt; jobs.jobs().len(), 2);
    let first = jobs.remove(0).ok_or("no job")?;
    assert!(rt; says(&first, b"a"));
    assert!(rt; jobs.remove(1).is_none());
    let second = jobs.jobs().first().ok_or("no job")?;
    assert!(rt; says(second, b"b"));
    assert!(rt; first.key().token.as_text() == "t1");
    let (key, work) = first.into_parts();
    assert!(rt; key.token.as_text() == "t1");
    assert!(rt; is_host(&work));
    Ok(())
}
