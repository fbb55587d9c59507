//! Served links: one connection, from its first byte to its end, over a link in memory.
use crate::fixtures::{Around, DISCONNECT, FIRST, SECOND, append_control, at, head, make_around};
use ra_base::{Cause, Message, NoMemory, Reason};
use ra_hub::{Hub, JobList, PlainHub};
use ra_keep::MemKeeper;
use ra_link::{LinkEnd, serve_link};
use ra_ports::{LinkStep, MemLink};
use ra_session::{IpcFault, Work};
use ra_upgrade::HeadFault;
use std::alloc::Global;
use std::test::Fail;

const HOST: &[u8] =
    br#"{"commit":"","desiredConnectionType":2,"signedData":"s3","type":"connectionType"}"#;

/// The context `window`, Initialize, and the call `echo` of the text `hi`, as the frames of a client.
pub(crate) const OPENING: &[u8] =
    b"\x01\0\0\0\x01\0\0\0\0\0\0\0\x08\x01\x06window\x01\0\0\0\x02\0\0\0\0\0\0\0\x06\x04\x01\x06\xc8\x01\0\x01\0\0\0\x03\0\0\0\x01\0\0\0\x17\x04\x04\x06\x64\x06\0\x01\x05tools\x01\x04echo\x01\x02hi";

/// How the answer to a head begins that asks for the protocol.
const SWITCHING: &[u8] = b"HTTP/1.1 101 ";

/// The acceptance, and Initialize as the first message of a server.
const ACCEPTED: &[u8] =
    b"\x02\0\0\0\0\0\0\0\0\0\0\0\x0d{\"type\":\"ok\"}\x01\0\0\0\x01\0\0\0\x01\0\0\0\x06\x04\x01\x06\xc8\x01\0";

/// A Pause, the acceptance, and a Resume.
const ACCEPTED_HOST: &[u8] =
    b"\x07\0\0\0\0\0\0\0\0\0\0\0\0\x02\0\0\0\0\0\0\0\0\0\0\0\x02{}\x08\0\0\0\0\0\0\0\0\0\0\0\0";

/// A header that states a body of 268,435,457 bytes.
pub(crate) const LONG: &[u8] = b"\x01\0\0\0\x04\0\0\0\0\x10\0\0\x01";

/// A message that is no packet, as the fourth one.
pub(crate) const BAD: &[u8] = b"\x01\0\0\0\x04\0\0\0\0\0\0\0\x02\x06\x80";

#[derive(Clone, Copy, Debug, PartialEq, Eq)]
pub(crate) enum Ended {
    Closed,
    LinkFault,
    BadHead(HeadFault),
    Refused(Reason),
    TooLong(u32),
    BadIpc,
    ActiveId(i32),
    Stale,
    NoLink,
    Left(Cause),
    IdsSpent,
    TurnsSpent,
    KeepFault,
    NoMemory,
}

fn ended_by(end: &LinkEnd) -> Ended {
    match end {
        LinkEnd::Closed => Ended::Closed,
        LinkEnd::LinkFault => Ended::LinkFault,
        LinkEnd::BadHead { fault } => Ended::BadHead(*fault),
        LinkEnd::Refused { reason } => Ended::Refused(*reason),
        LinkEnd::TooLong { stated } => Ended::TooLong(*stated),
        LinkEnd::BadIpc { fault, .. } => match fault {
            IpcFault::Packet { .. } => Ended::BadIpc,
            IpcFault::ActiveId { id } => Ended::ActiveId(*id),
        },
        LinkEnd::Stale { .. } => Ended::Stale,
        LinkEnd::NoLink => Ended::NoLink,
        LinkEnd::Ended { cause } => Ended::Left(*cause),
        LinkEnd::IdsSpent => Ended::IdsSpent,
        LinkEnd::TurnsSpent => Ended::TurnsSpent,
        LinkEnd::KeepFault => Ended::KeepFault,
        LinkEnd::NoMemory => Ended::NoMemory,
    }
}

/// What one link came to: how it ended, what was sent on it, and how many jobs it gave.
#[derive(Drop)]
pub(crate) struct Outcome {
    pub end: Ended,
    pub sent: Vec<u8>,
    pub jobs: usize,
}

/// How a link ends, how many jobs it gives, and whether what is sent is as it should be.
type Found = Result<(Ended, usize, bool), Fail>;

pub(crate) type ServerHub = PlainHub<MemKeeper>;

fn push_piece(alloc: Global, steps: &mut Vec<LinkStep>, bytes: &[u8]) -> Result<(), Fail> {
    if bytes.is_empty() {
        return Ok(());
    }
    let step = LinkStep::Piece {
        bytes: Message::copy(alloc, bytes)?,
    };
    steps.push(step)?;
    Ok(())
}

/// A link that takes these steps, and those of the second list once it is framed.
fn mem_link(
    alloc: Global,
    before: Vec<LinkStep>,
    after: Vec<LinkStep>,
    failing: Vec<u64>,
) -> Result<MemLink, Fail> {
    let filled = before.iter().all(|step| step.is_filled());
    if filled && after.iter().all(|step| step.is_filled()) {
        Ok(MemLink::new(alloc, before, after, failing))
    } else {
        Err("an empty piece".into())
    }
}

/// A link that gives these bytes, in two pieces with an idle between them.
fn link_of(alloc: Global, bytes: &[u8], cut: usize, failing: Vec<u64>) -> Result<MemLink, Fail> {
    let cut = if cut < bytes.len() { cut } else { bytes.len() };
    let mut steps = Vec::new(alloc);
    push_piece(alloc, &mut steps, &bytes[..cut])?;
    steps.push(LinkStep::Idle)?;
    push_piece(alloc, &mut steps, &bytes[cut..])?;
    mem_link(alloc, steps, Vec::new(alloc), failing)
}

pub(crate) fn hub_with(alloc: Global, failing: Vec<u64>) -> Result<ServerHub, Fail> {
    let keeper = MemKeeper::with(Vec::new(alloc), failing);
    match PlainHub::start(alloc, keeper, 10_800_000, 300_000) {
        Ok(hub) => Ok(hub),
        Err(_) => Err("no hub".into()),
    }
}

/// One link is served by a hub.
fn serve(hub: &mut ServerHub, link: &mut MemLink, around: &mut Around, turns: u64) -> Ended {
    let alloc = around.alloc;
    let (jobs, clock, entropy) = (&mut around.jobs, &mut around.clock, &mut around.entropy);
    let (signer, settings) = (&around.signer, &around.settings);
    let end = serve_link(
        alloc, link, hub, jobs, clock, entropy, signer, settings, turns,
    );
    ended_by(&end)
}

/// What a link comes to.
fn served_outcome(
    alloc: Global,
    hub: &mut ServerHub,
    link: &mut MemLink,
    turns: u64,
) -> Result<Outcome, Fail> {
    let mut around = make_around(alloc)?;
    let end = serve(hub, link, &mut around, turns);
    let sent = Vec::from_slice(alloc, link.sent())?;
    let jobs = around.jobs.jobs().len();
    Ok(Outcome { end, sent, jobs })
}

/// What a link comes to that gives these bytes. Some calls of the link fail.
pub(crate) fn run_on(
    alloc: Global,
    hub: &mut ServerHub,
    bytes: &[u8],
    cut: usize,
    failing: Vec<u64>,
    turns: u64,
) -> Result<Outcome, Fail> {
    let mut link = link_of(alloc, bytes, cut, failing)?;
    served_outcome(alloc, hub, &mut link, turns)
}

/// What a link of a new hub comes to that gives these bytes.
fn run(alloc: Global, bytes: &[u8], cut: usize, turns: u64) -> Result<Outcome, Fail> {
    let mut hub = hub_with(alloc, Vec::new(alloc))?;
    run_on(alloc, &mut hub, bytes, cut, Vec::new(alloc), turns)
}

/// All that a client sends behind its head: its handshake, and these bytes of its session.
fn append_payload(to: &mut Vec<u8>, second: &[u8], frames: &[u8]) -> Result<(), NoMemory> {
    append_control(to, FIRST)?;
    append_control(to, second)?;
    to.extend_from_slice(frames)?;
    Ok(())
}

/// All that the client of a window sends, up to these bytes of its session.
pub(crate) fn window(
    alloc: Global,
    token: &str,
    reconnection: bool,
    frames: &[u8],
) -> Result<Vec<u8>, Fail> {
    let mut bytes = head(alloc, token, reconnection, true)?;
    append_payload(&mut bytes, SECOND, frames)?;
    Ok(bytes)
}

/// All that a client of the token `t1` sends, up to these bytes of its session.
fn client(alloc: Global, second: &[u8], frames: &[u8]) -> Result<Vec<u8>, Fail> {
    let mut bytes = head(alloc, "t1", false, true)?;
    append_payload(&mut bytes, second, frames)?;
    Ok(bytes)
}

/// How a link ends that gives these bytes, how many jobs it gives, and whether what is sent begins and ends so.
fn comes_to(alloc: Global, bytes: &[u8], front: &[u8], back: &[u8]) -> Found {
    let Outcome { end, sent, jobs } = run(alloc, bytes, 0, 100)?;
    Ok((end, jobs, sent.starts_with(front) && sent.ends_with(back)))
}

#[test]
fn a_window_is_served(rt: HostRuntime) -> Result<(), Fail> {
    let bytes = client(rt.alloc(), SECOND, OPENING)?;
    let found = comes_to(rt.alloc(), &bytes, SWITCHING, ACCEPTED)?;
    assert_eq!(rt; found, (Ended::Closed, 1, true));
    Ok(())
}

/// A link that goes over to frames: the head, and then their payload.
fn framed_link(alloc: Global, head: &[u8], payload: &[u8]) -> Result<MemLink, Fail> {
    let mut before = Vec::new(alloc);
    push_piece(alloc, &mut before, head)?;
    let mut after = Vec::new(alloc);
    push_piece(alloc, &mut after, payload)?;
    mem_link(alloc, before, after, Vec::new(alloc))
}

/// All that the client of a window sends behind its head.
fn window_payload(alloc: Global) -> Result<Vec<u8>, NoMemory> {
    let mut payload = Vec::new(alloc);
    append_payload(&mut payload, SECOND, OPENING)?;
    Ok(payload)
}

/// A window's link that goes over to frames. So many bytes of their payload come with the head.
fn framed_window(alloc: Global, early: usize) -> Result<MemLink, Fail> {
    let mut bytes = head(alloc, "t1", false, false)?;
    let payload = window_payload(alloc)?;
    let early = if early < payload.len() {
        early
    } else {
        payload.len()
    };
    bytes.extend_from_slice(&payload[..early])?;
    framed_link(alloc, &bytes, &payload[early..])
}

/// What a window's link comes to that goes over to frames.
fn framed(alloc: Global, early: usize) -> Found {
    let mut hub = hub_with(alloc, Vec::new(alloc))?;
    let mut link = framed_window(alloc, early)?;
    let Outcome { end, sent, jobs } = served_outcome(alloc, &mut hub, &mut link, 100)?;
    Ok((end, jobs, sent.ends_with(ACCEPTED)))
}

/// What comes behind a head in one piece with it is served first.
#[test]
fn a_framed_link_is_served(rt: HostRuntime) -> Result<(), Fail> {
    for early in [0, 1, 13, 60, 1_000] {
        assert_eq!(rt;
            framed(rt.alloc(), early)?,
            (Ended::Closed, 1, true),
            "{early} with the head"
        );
    }
    Ok(())
}

/// An extension host begins paused, and its messages are jobs.
#[test]
fn an_extension_host_is_served(rt: HostRuntime) -> Result<(), Fail> {
    let bytes = client(rt.alloc(), HOST, b"\x01\0\0\0\x01\0\0\0\0\0\0\0\x01x")?;
    let found = comes_to(rt.alloc(), &bytes, SWITCHING, ACCEPTED_HOST)?;
    assert_eq!(rt; found, (Ended::Closed, 1, true));
    Ok(())
}

/// Message 1 of an extension host, of 2,097,152 bytes.
fn large(alloc: Global) -> Result<Vec<u8>, NoMemory> {
    let mut frame = Vec::from_slice(alloc, b"\x01\0\0\0\x01\0\0\0\0\0\x20\0\0")?;
    frame.resize(2_097_165, b'x')?;
    Ok(frame)
}

/// Whether the first job is this message of an extension host.
fn is_first_job(jobs: &JobList, message: &[u8]) -> bool {
    match jobs.jobs().first() {
        Some(job) => match job.work() {
            Work::Host { body } => body.as_slice() == message,
            Work::Call { .. } => false,
        },
        None => false,
    }
}

/// How a link of an extension host ends that brings this frame, and whether its job is what stands behind the header.
fn host_frame(alloc: Global, frame: &[u8]) -> Result<(Ended, bool), Fail> {
    let mut hub = hub_with(alloc, Vec::new(alloc))?;
    let bytes = client(alloc, HOST, frame)?;
    let mut link = link_of(alloc, &bytes, 0, Vec::new(alloc))?;
    let mut around = make_around(alloc)?;
    let end = serve(&mut hub, &mut link, &mut around, 100);
    let is_job = frame.len() > 13 && is_first_job(&around.jobs, &frame[13..]);
    Ok((end, is_job))
}

#[test]
fn a_large_message_is_a_job(rt: HostRuntime) -> Result<(), Fail> {
    let frame = large(rt.alloc())?;
    assert_eq!(rt; host_frame(rt.alloc(), &frame)?, (Ended::Closed, true));
    Ok(())
}

/// How a link ends whose bytes are cut here, how many jobs it gives, and whether just these bytes are sent.
fn cut_at(alloc: Global, bytes: &[u8], cut: usize, all: &[u8]) -> Found {
    let Outcome { end, sent, jobs } = run(alloc, bytes, cut, 100)?;
    Ok((end, jobs, sent.as_slice() == all))
}

/// Wherever the bytes are cut, the same is sent, and the same jobs are given.
#[test]
fn every_cut_gives_the_same(rt: HostRuntime) -> Result<(), Fail> {
    let bytes = client(rt.alloc(), SECOND, OPENING)?;
    let Outcome { sent, jobs, .. } = run(rt.alloc(), &bytes, 0, 100)?;
    for cut in 0..bytes.len() {
        let found = cut_at(rt.alloc(), &bytes, cut, &sent)?;
        assert_eq!(rt; found, (Ended::Closed, jobs, true), "cut at {cut}");
    }
    Ok(())
}

/// What a reconnection of the token `t1` comes to, long after.
fn reconnects_late(alloc: Global, hub: &mut ServerHub) -> Result<Ended, Fail> {
    hub.tick(alloc, at(20_000_000));
    let bytes = window(alloc, "t1", true, b"")?;
    let served = run_on(alloc, hub, &bytes, 0, Vec::new(alloc), 100)?;
    Ok(served.end)
}

/// How a link ends of which a call fails, how a reconnection ends long after, and whether a front of these bytes was sent.
fn fails_at(
    alloc: Global,
    bytes: &[u8],
    call: u64,
    all: &[u8],
) -> Result<(Ended, Ended, bool), Fail> {
    let mut hub = hub_with(alloc, Vec::new(alloc))?;
    let failing = Vec::from_array(alloc, [call])?;
    let Outcome { end, sent, .. } = run_on(alloc, &mut hub, bytes, 300, failing, 100)?;
    let later = reconnects_late(alloc, &mut hub)?;
    Ok((end, later, all.starts_with(sent.as_slice())))
}

/// Whichever call of the link fails, a front of the same is sent. The seat is spent: the session is lost, and over once its grace is
/// over.
#[test]
fn every_call_may_fail(rt: HostRuntime) -> Result<(), Fail> {
    let bytes = client(rt.alloc(), SECOND, OPENING)?;
    let Outcome { sent, .. } = run(rt.alloc(), &bytes, 0, 100)?;
    for call in 1..20 {
        let (end, later, is_front) = fails_at(rt.alloc(), &bytes, call, &sent)?;
        assert!(rt; is_front);
        assert!(rt; end == Ended::LinkFault || end == Ended::Closed);
        assert!(rt;
            later == Ended::Refused(Reason::SeenBefore)
                || later == Ended::Refused(Reason::NeverSeen)
        );
    }
    Ok(())
}

/// How a link ends after so many turns, and whether nothing is sent.
fn turns(alloc: Global, turns: u64) -> Result<(Ended, bool), Fail> {
    let bytes = client(alloc, SECOND, OPENING)?;
    let Outcome { end, sent, .. } = run(alloc, &bytes, 0, turns)?;
    Ok((end, sent.is_empty()))
}

#[test]
fn no_turn_asks_nothing_of_the_link(rt: HostRuntime) -> Result<(), Fail> {
    assert_eq!(rt; turns(rt.alloc(), 0)?, (Ended::TurnsSpent, true));
    let (end, _) = turns(rt.alloc(), 1)?;
    assert_eq!(rt; end, Ended::TurnsSpent);
    Ok(())
}

/// What a client sends behind its acceptance, and how that ends the link.
const BEHIND: [(&[u8], Ended); 5] = [
    (b"", Ended::Closed),
    (b"\x01\0\0\0\x04", Ended::Closed),
    (LONG, Ended::TooLong(268_435_457)),
    (DISCONNECT, Ended::Left(Cause::Disconnected)),
    (BAD, Ended::BadIpc),
];

/// How a link ends that brings these frames behind its opening, and how many jobs it gives.
fn behind(alloc: Global, frames: &[u8]) -> Result<(Ended, usize), Fail> {
    let mut bytes = client(alloc, SECOND, OPENING)?;
    bytes.extend_from_slice(frames)?;
    let Outcome { end, jobs, .. } = run(alloc, &bytes, 0, 100)?;
    Ok((end, jobs))
}

#[test]
fn what_comes_may_end_a_link(rt: HostRuntime) -> Result<(), Fail> {
    for (frames, end) in BEHIND {
        assert_eq!(rt; behind(rt.alloc(), frames)?, (end, 1));
    }
    Ok(())
}

/// 128 brackets, and their ends.
const DEEP: &[u8] =
    b"[[[[[[[[[[[[[[[[[[[[[[[[[[[[[[[[[[[[[[[[[[[[[[[[[[[[[[[[[[[[[[[[[[[[[[[[[[[[[[[[[[[[[[[[[[[[[[[[[[[[[[[[[[[[[[[[[[[[[[[[[[[[[[[[]]]]]]]]]]]]]]]]]]]]]]]]]]]]]]]]]]]]]]]]]]]]]]]]]]]]]]]]]]]]]]]]]]]]]]]]]]]]]]]]]]]]]]]]]]]]]]]]]]]]]]]]]]]]]]]]]]]]]]]]]]]]]]]]";

/// First bodies that are refused.
const REFUSED: [(&[u8], Reason); 4] = [
    (b"{", Reason::MalformedFirst),
    (DEEP, Reason::MalformedFirst),
    (b"[1]", Reason::InvalidFirst),
    (br#"{"type":"auth","auth":"x"}"#, Reason::AuthMismatch),
];

/// How a link ends whose first body is this one, and whether an error is sent.
fn first_body(alloc: Global, body: &[u8]) -> Found {
    let mut bytes = head(alloc, "t1", false, true)?;
    append_control(&mut bytes, body)?;
    comes_to(alloc, &bytes, SWITCHING, br#","type":"error"}"#)
}

#[test]
fn first_bodies_may_be_refused(rt: HostRuntime) -> Result<(), Fail> {
    for (body, reason) in REFUSED {
        let found = first_body(rt.alloc(), body)?;
        assert_eq!(rt; found, (Ended::Refused(reason), 0, true));
    }
    Ok(())
}

/// The head of RFC 6455, for this protocol.
const HEAD: &[u8] =
    b"GET /?reconnectionToken=t1&skipWebSocketFrames=true HTTP/1.1\r\nHost: localhost\r\nUpgrade: websocket\r\nConnection: Upgrade\r\nSec-WebSocket-Key: dGhlIHNhbXBsZSBub25jZQ==\r\nSec-WebSocket-Extensions: permessage-deflate\r\n\r\n";

const NO_KEY: &[u8] =
    b"GET /?reconnectionToken=t1&skipWebSocketFrames=true HTTP/1.1\r\nHost: localhost\r\nUpgrade: websocket\r\nConnection: Upgrade\r\n\r\n";

/// The signature of that head's key.
const SIGNED: &[u8] = b"Sec-WebSocket-Accept: s3pPLMBiTxaQ9kYGzzhZRbK+xOo=\r\n\r\n";

#[test]
fn heads_are_answered(rt: HostRuntime) -> Result<(), Fail> {
    let served = comes_to(rt.alloc(), HEAD, SWITCHING, SIGNED)?;
    assert_eq!(rt; served, (Ended::Closed, 0, true));
    let refused = comes_to(rt.alloc(), NO_KEY, b"HTTP/1.1 400 ", b"")?;
    assert_eq!(rt; refused, (Ended::BadHead(HeadFault::NoKey), 0, true));
    Ok(())
}

/// What the link of a window comes to where the keeper fails at its second call.
fn not_kept(alloc: Global) -> Result<Outcome, Fail> {
    let failing = Vec::from_array(alloc, [2u64])?;
    let mut hub = hub_with(alloc, failing)?;
    let bytes = client(alloc, SECOND, OPENING)?;
    run_on(alloc, &mut hub, &bytes, 0, Vec::new(alloc), 100)
}

/// Where the record of an acceptance is not kept, nothing is sent behind the server's own challenge.
#[test]
fn an_acceptance_is_kept_before_it_is_sent(rt: HostRuntime) -> Result<(), Fail> {
    let Outcome { end, sent, jobs } = not_kept(rt.alloc())?;
    let is_last = sent.ends_with(br#","type":"sign"}"#.as_slice());
    assert_eq!(rt; (end, jobs, is_last), (Ended::KeepFault, 0, true));
    Ok(())
}
