//! Sessions: a window and its server over two links, byte by byte, and what a session refuses.
use crate::fixtures::{BAD, CLIENT_3, OPENING, SERVER_1};
use crate::session_acts::{Act, NOTHING, Row, attach, in_served, in_window};
use ra_base::{Kind, Message, Moment};
use ra_session::{Happened, Role, Session, SessionFault, Turn, Work};
use ra_values::NoMemory;
use std::alloc::Global;
use std::test::*;

const SERVER_2: &[u8] = b"\x01\0\0\0\x02\0\0\0\x03\0\0\0\x0b\x04\x02\x06\xc9\x01\x06\0\x01\x02hi";

const CLIENT_4: &[u8] =
    b"\x01\0\0\0\x04\0\0\0\x01\0\0\0\x14\x04\x04\x06\x66\x06\x01\x01\x05tools\x01\x04said\0";

const ACK_0: &[u8] = b"\x03\0\0\0\0\0\0\0\0\0\0\0\0";

const ACK_2: &[u8] = b"\x03\0\0\0\0\0\0\0\x02\0\0\0\0";

const ACK_4: &[u8] = b"\x03\0\0\0\0\0\0\0\x04\0\0\0\0";

const KEEP_ALIVE_2: &[u8] = b"\x09\0\0\0\0\0\0\0\x02\0\0\0\0";

const CLIENT_5: &[u8] =
    b"\x01\0\0\0\x05\0\0\0\x02\0\0\0\x19\x04\x04\x06\x64\x06\x02\x01\x05tools\x01\x06length\x01\x02hi";

/// An Ack of 2, and client message 5.
const ACK_AND_5: &[u8] =
    b"\x03\0\0\0\0\0\0\0\x02\0\0\0\0\x01\0\0\0\x05\0\0\0\x02\0\0\0\x19\x04\x04\x06\x64\x06\x02\x01\x05tools\x01\x06length\x01\x02hi";

const SERVER_3: &[u8] = b"\x01\0\0\0\x03\0\0\0\x05\0\0\0\x09\x04\x02\x06\xc9\x01\x06\x02\x06\x02";

/// The cancel of call 0, as client message 4.
const CANCEL_4: &[u8] = b"\x01\0\0\0\x04\0\0\0\x01\0\0\0\x07\x04\x02\x06\x65\x06\0\0";

const CLIENT_6: &[u8] =
    b"\x01\0\0\0\x06\0\0\0\x03\0\0\0\x16\x04\x04\x06\x64\x06\x03\x01\x05tools\x01\x03say\x01\x02hi";

/// Server messages 4 and 5: the event, and the answer.
const SERVER_4_5: &[u8] =
    b"\x01\0\0\0\x04\0\0\0\x06\0\0\0\x0b\x04\x02\x06\xcc\x01\x06\x01\x01\x02hi\x01\0\0\0\x05\0\0\0\x06\0\0\0\x08\x04\x02\x06\xc9\x01\x06\x03\0";

const CLIENT_7: &[u8] = b"\x01\0\0\0\x07\0\0\0\x05\0\0\0\x07\x04\x02\x06\x67\x06\x01\0";

/// A call of a channel that is not there, as client message 3.
const CALL_X: &[u8] =
    b"\x01\0\0\0\x03\0\0\0\x01\0\0\0\x10\x04\x04\x06\x64\x06\0\x01\x01x\x01\x04echo\0";

/// Its answer, as server message 2.
const NO_X: &[u8] =
    b"\x01\0\0\0\x02\0\0\0\x03\0\0\0\x57\x04\x02\x06\xca\x01\x06\0\x05\x4e{\"message\":\"Channel name 'x' timed out after 1000ms\",\"name\":\"Unknown channel\"}";

const DISCONNECT: &[u8] = b"\x05\0\0\0\0\0\0\0\0\0\0\0\0";

const RESUME: &[u8] = b"\x08\0\0\0\0\0\0\0\0\0\0\0\0";

/// Message 1 of an extension host, and of its peer.
const HOST_1: &[u8] = b"\x01\0\0\0\x01\0\0\0\0\0\0\0\x02hi";

const PEER_1: &[u8] = b"\x01\0\0\0\x01\0\0\0\x01\0\0\0\x02ho";

const WINDOW: &[Row] = &[
    (Act::Attach(1), 0, NOTHING, OPENING),
    (Act::Turn(1, SERVER_1), 0, NOTHING, &[]),
    (Act::Call("echo"), 0, (b'c', 0), CLIENT_3),
    (Act::Listen, 0, (b'l', 1), CLIENT_4),
    (Act::Turn(1, SERVER_2), 0, (b'S', 0), &[]),
    // it acknowledges, is acknowledged, and keeps its link alive
    (Act::Tick, 2_004, NOTHING, &[]),
    (Act::Tick, 2_005, NOTHING, ACK_2),
    (Act::Turn(1, ACK_4), 2_005, NOTHING, &[]),
    (Act::Tick, 5_000, NOTHING, KEEP_ALIVE_2),
    (Act::Tick, 10_000, NOTHING, KEEP_ALIVE_2),
    // a call while there is no link
    (Act::Lose(1), 10_000, (b'L', 0), &[]),
    (Act::Call("length"), 10_000, (b'c', 2), &[]),
    (Act::Attach(2), 10_000, NOTHING, ACK_AND_5),
    (Act::Turn(2, SERVER_3), 10_000, (b'S', 2), &[]),
    // an event before an answer
    (Act::Call("say"), 10_000, (b'c', 3), CLIENT_6),
    (Act::Turn(2, SERVER_4_5), 10_000, (b'F', 1), &[]),
    (Act::Turn(2, &[]), 10_000, (b'S', 3), &[]),
    (Act::Dispose(1), 10_000, NOTHING, CLIENT_7),
];

#[test]
fn a_window_over_two_links(rt: HostRuntime) {
    assert_eq!(rt; in_window(rt.alloc(), WINDOW), None);
}

const SERVER: &[Row] = &[
    (Act::Attach(1), 0, NOTHING, &[]),
    (Act::Turn(1, OPENING), 0, (b'+', 0), SERVER_1),
    (Act::Turn(1, &[]), 0, NOTHING, &[]),
    (Act::Turn(1, CLIENT_3), 0, (b'W', 0), &[]),
    (Act::AnswerHi(0), 0, NOTHING, SERVER_2),
    (Act::Turn(1, CLIENT_4), 0, NOTHING, &[]),
    // it acknowledges, and is acknowledged
    (Act::Tick, 2_005, NOTHING, ACK_4),
    (Act::Turn(1, ACK_2), 2_005, NOTHING, &[]),
    // the second link
    (Act::Lose(1), 10_000, (b'L', 0), &[]),
    (Act::Attach(2), 10_000, NOTHING, ACK_4),
    (Act::Turn(2, ACK_2), 10_000, NOTHING, &[]),
    (Act::Turn(2, CLIENT_5), 10_000, (b'W', 2), &[]),
    (Act::AnswerTwo(2), 10_000, NOTHING, SERVER_3),
    // an event before an answer
    (Act::Turn(2, CLIENT_6), 10_000, (b'W', 3), &[]),
    (Act::AnswerAndFire(3), 10_000, NOTHING, SERVER_4_5),
];

#[test]
fn a_server_over_two_links(rt: HostRuntime) {
    assert_eq!(rt; in_served(rt.alloc(), Kind::Management, SERVER), None);
}

const CANCELLED: &[Row] = &[
    (Act::Attach(1), 0, NOTHING, OPENING),
    (Act::Turn(1, SERVER_1), 0, NOTHING, &[]),
    (Act::Call("echo"), 0, (b'c', 0), CLIENT_3),
    (Act::Cancel(0), 0, (b'C', 0), CANCEL_4),
    (Act::Turn(1, SERVER_2), 0, NOTHING, &[]),
    (Act::Cancel(0), 0, (b'N', 0), &[]),
];

#[test]
fn a_cancelled_call_stays_cancelled(rt: HostRuntime) {
    assert_eq!(rt; in_window(rt.alloc(), CANCELLED), None);
}

/// Link 2 begins, and link 1 is the present one no more.
const OLD_LINK: &[Row] = &[
    (Act::Attach(1), 0, NOTHING, &[]),
    (Act::Attach(2), 0, NOTHING, ACK_0),
    (Act::Turn(1, OPENING), 0, (b'O', 2), &[]),
    (Act::Feed(1, OPENING), 0, (b'O', 2), &[]),
    (Act::Epoch, 0, (b'e', 2), &[]),
];

#[test]
fn an_old_link_is_stale(rt: HostRuntime) {
    assert_eq!(rt; in_served(rt.alloc(), Kind::Management, OLD_LINK), None);
}

const UNASKED: &[Row] = &[
    (Act::AnswerNothing(5), 0, (b'N', 5), &[]),
    (Act::Sent, 0, (b's', 0), &[]),
];

#[test]
fn an_answer_that_nobody_awaits_is_refused(rt: HostRuntime) {
    assert_eq!(rt; in_served(rt.alloc(), Kind::Management, UNASKED), None);
}

/// An extension host is asked to resume, says `hi` and hears `ho`.
const HOST: &[Row] = &[
    (Act::Attach(1), 0, NOTHING, RESUME),
    (Act::Say, 0, NOTHING, HOST_1),
    (Act::Turn(1, PEER_1), 0, (b'H', 0), &[]),
];

#[test]
fn an_extension_host_says_bytes(rt: HostRuntime) {
    assert_eq!(rt; in_served(rt.alloc(), Kind::ExtensionHost, HOST), None);
}

const SPOILED: &[Row] = &[
    (Act::Attach(1), 0, NOTHING, &[]),
    (Act::Turn(1, BAD), 0, (b'B', 0), &[]),
    (Act::Cause, 0, (b'B', 0), &[]),
];

#[test]
fn a_message_that_is_no_packet_ends_the_session(rt: HostRuntime) {
    assert_eq!(rt; in_served(rt.alloc(), Kind::Management, SPOILED), None);
}

const LEFT: &[Row] = &[
    (Act::Attach(1), 0, NOTHING, &[]),
    (Act::Leave, 0, NOTHING, DISCONNECT),
    (Act::End, 0, NOTHING, &[]),
    (Act::Cause, 0, (b'D', 0), &[]),
];

#[test]
fn a_session_is_left_and_ends_once(rt: HostRuntime) {
    assert_eq!(rt; in_served(rt.alloc(), Kind::Management, LEFT), None);
}

const FED: &[Row] = &[
    (Act::Attach(1), 0, NOTHING, &[]),
    (Act::Feed(1, OPENING), 0, NOTHING, &[]),
    (Act::Turn(1, &[]), 0, (b'+', 0), SERVER_1),
];

#[test]
fn what_was_fed_is_taken_by_a_turn(rt: HostRuntime) {
    assert_eq!(rt; in_served(rt.alloc(), Kind::Management, FED), None);
}

/// A call waits a second for its channel, and is answered then.
const LATE: &[Row] = &[
    (Act::Attach(1), 0, NOTHING, &[]),
    (Act::Turn(1, OPENING), 0, (b'+', 0), SERVER_1),
    (Act::Turn(1, &[]), 0, NOTHING, &[]),
    (Act::Turn(1, CALL_X), 0, NOTHING, &[]),
    (Act::Tick, 999, NOTHING, &[]),
    (Act::Tick, 1_000, NOTHING, NO_X),
];

#[test]
fn a_call_of_no_channel_is_answered_by_a_tick(rt: HostRuntime) {
    assert_eq!(rt; in_served(rt.alloc(), Kind::Management, LATE), None);
}

/// Message 1 of the peer of an extension host, of 2,097,152 bytes.
fn large(alloc: Global) -> Result<Vec<u8>, NoMemory> {
    let mut bytes = Vec::from_slice(alloc, b"\x01\0\0\0\x01\0\0\0\0\0\x20\0\0")?;
    bytes.resize(2_097_165, b'x')?;
    Ok(bytes)
}

fn is_same(body: &Message, bytes: &[u8]) -> bool {
    body.as_slice() == bytes
}

/// Whether an extension host said these bytes.
fn is_said(work: &Work, bytes: &[u8]) -> bool {
    match work {
        Work::Host { body } => is_same(body, bytes),
        Work::Call { .. } => false,
    }
}

/// Whether that is what happened.
fn is_host(happened: &Happened, bytes: &[u8]) -> bool {
    match happened {
        Happened::Work { work } => is_said(work, bytes),
        Happened::Settled { .. } | Happened::Fired { .. } => false,
    }
}

fn hands_up(turn: &Turn, bytes: &[u8]) -> bool {
    match &turn.happened {
        Some(happened) => is_host(happened, bytes),
        None => false,
    }
}

/// A session of an extension host hears these bytes, and hands up those behind the header of a frame.
fn hands_on(alloc: Global, frame: &[u8]) -> Result<bool, SessionFault> {
    let now = Moment::start();
    let mut session = Session::new(alloc, Kind::ExtensionHost, Role::Serving, now)?;
    attach(alloc, &mut session, 1, now)?;
    let turn = session.turn(alloc, 1, frame, now)?;
    Ok(frame.len() > 13 && hands_up(&turn, &frame[13..]))
}

#[test]
fn a_large_message_is_handed_up(rt: HostRuntime) -> Result<(), Fail> {
    let frame = large(rt.alloc())?;
    assert!(rt; hands_on(rt.alloc(), &frame).unwrap_or(false));
    Ok(())
}
