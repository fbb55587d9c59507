//! Tests of ra_shake: what a server answers to first and second messages of every kind.
ghost use Rattle.std.specs.Prelude.{◌≡◌, IfOk};
ghost use Rattle.ra_shake.specs.declared.server.Stage.TheVariants as stages;

use ra_base::{Kind, Message, Reason, Token};
use ra_shake::{ServerShake, ShakeSettings, ShakeStep, refuse_text};
use ra_sign::Keyed;
use std::alloc::Global;
use std::test::Fail;

#[derive(Clone, Copy, Debug, PartialEq, Eq)]
enum Outcome {
    Says,
    Asks(Option<Kind>),
    Refuses(Reason),
}

fn outcome_of(step: &ShakeStep) -> Outcome {
    match step {
        ShakeStep::Say { .. } => Outcome::Says,
        ShakeStep::Ask { request } => Outcome::Asks(request.kind),
        ShakeStep::Refuse { reason } => Outcome::Refuses(*reason),
    }
}

/// A server with the connection token `s3` and this commit.
fn server(alloc: Global, commit: &[u8]) -> Result<ServerShake, Fail>
    ensures { IfOk result (λ s. s.stage ≡ stages.First) }
{
    let settings = ShakeSettings {
        secret: Some(Message::copy(alloc, b"s3")?),
        commit: Message::copy(alloc, commit)?,
    };
    let challenge = Message::empty(alloc);
    Ok(ServerShake::new(settings, Token::from_text("t1")?, false, challenge))
}

/// What the server does on this first message.
fn on_first(alloc: Global, body: &[u8]) -> Result<Outcome, Fail> {
    let signer = Keyed::new(Message::copy(alloc, b"key")?);
    let mut server = server(alloc, b"")?;
    let step = server.on_control(alloc, &signer, body)?;
    Ok(outcome_of(&step))
}

/// A server with this commit that has taken a good first message.
fn server_with_first(alloc: Global, signer: &Keyed, commit: &[u8]) -> Result<ServerShake, Fail> {
    let mut server = server(alloc, commit)?;
    let good = br#"{"auth":"s3","type":"auth"}"#;
    let _said = server.on_control(alloc, signer, good)?;
    Ok(server)
}

/// What the server does on this second message.
fn on_second(alloc: Global, commit: &[u8], body: &[u8]) -> Result<Outcome, Fail> {
    let signer = Keyed::new(Message::copy(alloc, b"key")?);
    let mut server = server_with_first(alloc, &signer, commit)?;
    if server.is_over() {
        return Err("over too soon".into());
    }
    let step = server.on_control(alloc, &signer, body)?;
    Ok(outcome_of(&step))
}

const FIRST_MESSAGES: [(&[u8], Outcome); 11] = [
    (b"{", Outcome::Refuses(Reason::MalformedFirst)),
    (b"", Outcome::Refuses(Reason::MalformedFirst)),
    // not UTF-8
    (b"\"\xff\"", Outcome::Refuses(Reason::MalformedFirst)),
    (b"[1]", Outcome::Refuses(Reason::InvalidFirst)),
    (br#"{"type":1}"#, Outcome::Refuses(Reason::InvalidFirst)),
    (
        br#"{"type":"auth","auth":"x"}"#,
        Outcome::Refuses(Reason::AuthMismatch),
    ),
    (
        br#"{"type":"auth","auth":3}"#,
        Outcome::Refuses(Reason::AuthMismatch),
    ),
    (
        br#"{"type":"auth"}"#,
        Outcome::Refuses(Reason::AuthMismatch),
    ),
    // of equal names the last one counts
    (br#"{"type":"x","type":"auth","auth":"s3"}"#, Outcome::Says),
    // no text as data
    (br#"{"type":"auth","auth":"s3","data":[]}"#, Outcome::Says),
    // spaces, an escape and a further member
    (
        br#" { "x":1.5e3, "auth" : "s3" , "type":"\u0061uth" } "#,
        Outcome::Says,
    ),
];

#[test]
fn first_messages(rt: HostRuntime) -> Result<(), Fail> {
    for (body, expected) in FIRST_MESSAGES {
        assert_eq!(rt; on_first(rt.alloc(), body)?, expected);
    }
    Ok(())
}

/// Arrays within arrays, so many.
fn nested(alloc: Global, levels: usize) -> Result<Vec<u8>, Fail> {
    let mut body = vec![in alloc; b'['; levels]?;
    let closing = vec![in alloc; b']'; levels]?;
    body.extend_from_slice(&closing)?;
    Ok(body)
}

#[test]
fn nested_first_messages(rt: HostRuntime) -> Result<(), Fail> {
    let alloc = rt.alloc();
    let deepest = on_first(alloc, &nested(alloc, 127)?)?;
    assert_eq!(rt; deepest, Outcome::Refuses(Reason::InvalidFirst));
    let deeper = on_first(alloc, &nested(alloc, 128)?)?;
    assert_eq!(rt; deeper, Outcome::Refuses(Reason::MalformedFirst));
    Ok(())
}

/// A commit of the server, a second message and the outcome.
const SECOND_MESSAGES: [(&[u8], &[u8], Outcome); 10] = [
    (b"", b"nul", Outcome::Refuses(Reason::MalformedSecond)),
    (b"", b"null", Outcome::Refuses(Reason::InvalidSecond)),
    (
        b"",
        br#"{"type":"auth","signedData":"s3"}"#,
        Outcome::Refuses(Reason::InvalidSecond),
    ),
    (
        b"a",
        br#"{"type":"connectionType","signedData":1,"commit":"b"}"#,
        Outcome::Refuses(Reason::SecondField),
    ),
    (
        b"a",
        br#"{"type":"connectionType","signedData":"x","commit":"b"}"#,
        Outcome::Refuses(Reason::Version),
    ),
    (
        b"",
        br#"{"type":"connectionType","signedData":"x","commit":"b"}"#,
        Outcome::Refuses(Reason::Unauthorized),
    ),
    // one commit is empty, is no text, or is missing
    (
        b"a",
        br#"{"type":"connectionType","signedData":"s3","commit":""}"#,
        Outcome::Asks(None),
    ),
    (
        b"a",
        br#"{"type":"connectionType","signedData":"s3","commit":1}"#,
        Outcome::Asks(None),
    ),
    (
        b"",
        br#"{"commit":"","desiredConnectionType":1,"signedData":"s3","type":"connectionType"}"#,
        Outcome::Asks(Some(Kind::Management)),
    ),
    // the signature of the empty challenge under the key `key`
    (
        b"a",
        br#"{"commit":"a","desiredConnectionType":2,"signedData":"XV0TlWPJW1lnub2ajJsjOp3ttFByeUzSMtwbdIMmB9A=","type":"connectionType","args":[]}"#,
        Outcome::Asks(Some(Kind::ExtensionHost)),
    ),
];

#[test]
fn second_messages(rt: HostRuntime) -> Result<(), Fail> {
    for (commit, body, expected) in SECOND_MESSAGES {
        assert_eq!(rt; on_second(rt.alloc(), commit, body)?, expected);
    }
    Ok(())
}

/// What stands for the connection type, and the kind that it means.
const CONNECTION_TYPES: [(&[u8], Option<Kind>); 8] = [
    (b"1", Some(Kind::Management)),
    (b"2", Some(Kind::ExtensionHost)),
    (b"3", None),
    (b"1.0", None),
    (b"1e0", None),
    (b"-1", None),
    (b"\"1\"", None),
    // of equal names the last one counts
    (b"2,\"desiredConnectionType\":1", Some(Kind::Management)),
];

fn with_connection_type(alloc: Global, number: &[u8]) -> Result<Vec<u8>, Fail> {
    let mut body = Vec::new(alloc);
    body.extend_from_slice(
        br#"{"signedData":"s3","type":"connectionType","desiredConnectionType":"#,
    )?;
    body.extend_from_slice(number)?;
    body.push(b'}')?;
    Ok(body)
}

#[test]
fn connection_types(rt: HostRuntime) -> Result<(), Fail> {
    let alloc = rt.alloc();
    for (number, kind) in CONNECTION_TYPES {
        let body = with_connection_type(alloc, number)?;
        assert_eq!(rt; on_second(alloc, b"", &body)?, Outcome::Asks(kind));
    }
    Ok(())
}

#[test]
fn a_refusal_has_its_reason(rt: HostRuntime) -> Result<(), Fail> {
    let text = refuse_text(rt.alloc(), Reason::AuthMismatch)?;
    assert_eq!(rt;
        text.as_slice(),
        br#"{"reason":"Unauthorized client refused: auth mismatch","type":"error"}"#.as_slice()
    );
    Ok(())
}
