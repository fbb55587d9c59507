//! Tests of ra_opening: what a server does on a head and the first frames behind it, and how it answers.

use ra_base::{Kind, Message, NoMemory, Reason, Token};
use ra_frame::append_written;
use ra_opening::{Opening, OpeningEnd, OpeningStep, write_acceptance, write_refusal};
use ra_ports::MemEntropy;
use ra_shake::ShakeSettings;
use ra_sign::Keyed;
use ra_upgrade::{HeadFault, request};
use std::alloc::Global;
use std::process::Abort;
use std::test::Fail;

const FIRST: &[u8] = br#"{"auth":"s3","data":"c","type":"auth"}"#;

const SECOND: &[u8] = br#"{"desiredConnectionType":1,"signedData":"s3","type":"connectionType"}"#;

/// A header that states a body of 268,435,457 bytes.
const LONG: [u8; 13] = [1, 0, 0, 0, 1, 0, 0, 0, 0, 16, 0, 0, 1];

#[derive(Clone, Copy, Debug, PartialEq, Eq)]
enum Outcome {
    Waits,
    Asks(Option<Kind>),
    Ends(OpeningEnd),
}

fn outcome_of(step: &OpeningStep) -> Outcome {
    match step {
        OpeningStep::Waits => Outcome::Waits,
        OpeningStep::Ask { request } => Outcome::Asks(request.kind),
        OpeningStep::End { end } => Outcome::Ends(*end),
    }
}

/// The opening of one link at a server with the connection token `s3`.
#[derive(Drop)]
struct Server {
    opening: Opening,
    entropy: MemEntropy,
    signer: Keyed,
    settings: ShakeSettings,
    out: Vec<u8>,
}

fn settings(alloc: Global) -> Result<ShakeSettings, NoMemory> {
    Ok(ShakeSettings {
        secret: Some(Message::copy(alloc, b"s3")?),
        commit: Message::empty(alloc),
    })
}

fn make_server(rt: &impl Abort, alloc: Global) -> Result<Server, Fail> {
    let key = Message::copy(alloc, b"key")?;
    let settings = settings(alloc)?;
    let draws = Vec::from_array(alloc, [[7u8; 16]])?;
    assert!(rt; !draws.is_empty());
    Ok(Server {
        opening: Opening::new(alloc),
        entropy: MemEntropy::new(draws),
        signer: Keyed::new(key),
        settings,
        out: Vec::new(alloc),
    })
}

fn take(rt: &impl Abort, alloc: Global, server: &mut Server, piece: &[u8]) -> Outcome {
    let Server {
        opening,
        entropy,
        signer,
        settings,
        out,
    } = server;
    assert!(rt; !opening.is_over());
    let step = opening.piece(alloc, entropy, signer, settings, piece, out);
    outcome_of(&step)
}

/// A request, and then one control frame.
fn head_and(alloc: Global, skip_frames: bool, body: &[u8]) -> Result<Vec<u8>, Fail> {
    let token = Token::from_text("t1")?;
    let head = request(alloc, "localhost", &token, false, skip_frames, [1; 16])?;
    let mut bytes = head.into_vec();
    append_control(&mut bytes, body)?;
    Ok(bytes)
}

fn append_control(to: &mut Vec<u8>, body: &[u8]) -> Result<(), NoMemory> {
    if body.len() < 1000 {
        append_written(to, 2, 0, 0, body)
    } else {
        Err(NoMemory)
    }
}

/// A request, both messages of a client, and these bytes.
fn asking(alloc: Global, rest: &[u8]) -> Result<Vec<u8>, Fail> {
    let mut bytes = head_and(alloc, true, FIRST)?;
    append_control(&mut bytes, SECOND)?;
    bytes.extend_from_slice(rest)?;
    Ok(bytes)
}

#[test]
fn a_client_asks_by_two_messages(rt: HostRuntime) -> Result<(), Fail> {
    let mut server = make_server(&rt, rt.alloc())?;
    let bytes = asking(rt.alloc(), b"rest")?;
    let outcome = take(&rt, rt.alloc(), &mut server, &bytes);
    assert_eq!(rt; outcome, Outcome::Asks(Some(Kind::Management)));
    assert_eq!(rt; server.opening.unread(), b"rest".as_slice());
    assert!(rt; server.opening.is_over());
    Ok(())
}

#[test]
fn pieces_of_one_byte_come_to_the_same(rt: HostRuntime) -> Result<(), Fail> {
    let mut server = make_server(&rt, rt.alloc())?;
    let bytes = asking(rt.alloc(), b"")?;
    let mut outcome = Outcome::Waits;
    for byte in &bytes {
        assert_eq!(rt; outcome, Outcome::Waits);
        outcome = take(&rt, rt.alloc(), &mut server, &[*byte]);
    }
    assert_eq!(rt; outcome, Outcome::Asks(Some(Kind::Management)));
    Ok(())
}

/// What a server comes to on these bytes behind a head.
fn behind_head(rt: &impl Abort, alloc: Global, frames: &[u8]) -> Result<Outcome, Fail> {
    let mut server = make_server(rt, alloc)?;
    let mut bytes = head_and(alloc, true, FIRST)?;
    bytes.extend_from_slice(frames)?;
    Ok(take(rt, alloc, &mut server, &bytes))
}

const BEHIND: [(&[u8], Outcome); 8] = [
    // a text of as many bytes as one may have, and of one more; and a frame of another type that states so many
    (&[2, 0, 0, 0, 0, 0, 0, 0, 0, 0, 16, 0, 0], Outcome::Waits),
    (
        &[2, 0, 0, 0, 0, 0, 0, 0, 0, 0, 16, 0, 1],
        Outcome::Ends(OpeningEnd::NoMemory),
    ),
    (
        &[1, 0, 0, 0, 1, 0, 0, 0, 0, 0, 16, 0, 1],
        Outcome::Ends(OpeningEnd::NoMemory),
    ),
    (&[], Outcome::Waits),
    // a message of the protocol, and a frame of another type
    (&[1, 0, 0, 0, 1, 0, 0, 0, 0, 0, 0, 0, 0], Outcome::Waits),
    (
        &[5, 0, 0, 0, 0, 0, 0, 0, 0, 0, 0, 0, 0],
        Outcome::Ends(OpeningEnd::Left),
    ),
    (
        &LONG,
        Outcome::Ends(OpeningEnd::TooLong {
            stated: 268_435_457,
        }),
    ),
    (
        &[2, 0, 0, 0, 0, 0, 0, 0, 0, 0, 0, 0, 1, b'{'],
        Outcome::Ends(OpeningEnd::Refused {
            reason: Reason::MalformedSecond,
        }),
    ),
];

#[test]
fn other_frames_end_it_or_are_passed_over(rt: HostRuntime) -> Result<(), Fail> {
    for (frames, outcome) in BEHIND {
        assert_eq!(rt; behind_head(&rt, rt.alloc(), frames)?, outcome);
    }
    Ok(())
}

#[test]
fn a_bad_head_is_answered(rt: HostRuntime) -> Result<(), Fail> {
    let mut server = make_server(&rt, rt.alloc())?;
    let outcome = take(&rt, rt.alloc(), &mut server, b"GET\r\n\r\n");
    let end = OpeningEnd::BadHead {
        fault: HeadFault::BadHead,
    };
    assert_eq!(rt; outcome, Outcome::Ends(end));
    assert!(rt;
        server
            .out
            .starts_with(b"HTTP/1.1 400 Bad Request\r\n".as_slice())
    );
    Ok(())
}

/// What the server comes to on one control frame.
fn take_control(
    rt: &impl Abort,
    alloc: Global,
    server: &mut Server,
    body: &[u8],
) -> Result<Outcome, Fail> {
    let mut frames = Vec::new(alloc);
    append_control(&mut frames, body)?;
    Ok(take(rt, alloc, server, &frames))
}

/// What stands behind the head is discarded where the link is framed, and read from the frames again.
#[test]
fn a_link_is_framed_behind_its_head(rt: HostRuntime) -> Result<(), Fail> {
    let mut server = make_server(&rt, rt.alloc())?;
    let bytes = head_and(rt.alloc(), false, b"{")?;
    assert_eq!(rt; take(&rt, rt.alloc(), &mut server, &bytes), Outcome::Waits);
    assert_eq!(rt; server.opening.unread().len(), 14);
    assert!(rt; server.opening.needs_framing());
    server.opening.set_framed();
    assert!(rt; server.opening.unread().is_empty());
    let outcome = take_control(&rt, rt.alloc(), &mut server, FIRST)?;
    assert_eq!(rt; outcome, Outcome::Waits);
    Ok(())
}

#[test]
fn verdicts_are_written(rt: HostRuntime) -> Result<(), Fail> {
    let mut out = Vec::new(rt.alloc());
    write_refusal(rt.alloc(), Reason::Duplicate, &mut out)?;
    assert_eq!(rt; out.len(), 13 + 56);
    write_acceptance(rt.alloc(), Kind::Management, &mut out)?;
    assert!(rt; out.ends_with(br#"{"type":"ok"}"#.as_slice()));
    let before = out.len();
    write_acceptance(rt.alloc(), Kind::ExtensionHost, &mut out)?;
    assert_eq!(rt; out.len(), before + 13 + 15);
    Ok(())
}
