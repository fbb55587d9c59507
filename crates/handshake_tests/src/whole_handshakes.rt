//! Tests of ra_shake: a whole handshake over one key, with each text as it stands on the link, and what a client does on other
//! texts.
ghost use Rattle.std.specs.Prelude.{◌≡◌, ◌≢◌, IfOk, IsUtf8};
ghost use Rattle.ra_base.specs.declared.kind.Kind.TheVariants as kinds;
ghost use Rattle.ra_shake.specs.declared.server.Stage.TheVariants as stages;

use ra_base::{Kind, Message, NoMemory, Token};
use ra_shake::{
    ClientShake, ClientStep, Request, ServerShake, ShakeSettings, ShakeStep, accept_text, made,
};
use ra_sign::Keyed;
use std::alloc::Global;
use std::test::Fail;

fn text(alloc: Global, text: &str) -> Result<Message, NoMemory>
    ensures { IfOk result IsUtf8 }
{
    Message::copy(alloc, text.as_bytes())
}

fn challenge(alloc: Global, bytes: [u8; 16]) -> Result<Message, NoMemory>
    ensures { IfOk result IsUtf8 }
{
    let token = made(bytes)?;
    text(alloc, token.as_text())
}

fn client(alloc: Global, kind: Kind) -> Result<ClientShake, Fail>
    requires { kind ≢ kinds.Tunnel }
{
    let settings = ShakeSettings {
        secret: Some(text(alloc, "s3")?),
        commit: text(alloc, "")?,
    };
    let challenge = challenge(alloc, [1; 16])?;
    Ok(ClientShake::new(settings, kind, challenge))
}

fn server(alloc: Global) -> Result<ServerShake, Fail>
    ensures { IfOk result (λ s. s.stage ≡ stages.First) }
{
    let settings = ShakeSettings {
        secret: Some(text(alloc, "s3")?),
        commit: text(alloc, "")?,
    };
    let challenge = challenge(alloc, [2; 16])?;
    Ok(ServerShake::new(settings, Token::from_text("t1")?, true, challenge))
}

const AUTH: &[u8] = br#"{"auth":"s3","data":"01010101-0101-4101-8101-010101010101","type":"auth"}"#;

const SIGN: &[u8] =
    br#"{"data":"02020202-0202-4202-8202-020202020202","signedData":"z1l2uuiuvQKwR4iqhle63XzhaoygJ9wWnuYMg6nnRvY=","type":"sign"}"#;

const CONNECTION: &[u8] =
    br#"{"commit":"","desiredConnectionType":1,"signedData":"Dqnw6KOljpuXT/YhExHK6LPys4x8XzbOebMJCUS0738=","type":"connectionType"}"#;

const ACCEPTED: &[u8] = br#"{"type":"ok"}"#;

/// The server says this text on the first message of the client.
fn server_says(
    alloc: Global,
    signer: &Keyed,
    server: &mut ServerShake,
    expected: &[u8],
) -> Result<bool, Fail> {
    if server.is_over() {
        return Ok(false);
    }
    match server.on_control(alloc, signer, AUTH)? {
        ShakeStep::Say { text } => Ok(text.as_slice() == expected),
        _ => Ok(false),
    }
}

fn asked(step: ShakeStep) -> Option<Request> {
    if let ShakeStep::Ask { request } = step {
        return Some(request);
    }
    None
}

/// What the server asks on the second message of the client.
fn server_asks(
    alloc: Global,
    signer: &Keyed,
    server: &mut ServerShake,
) -> Result<Option<Request>, Fail> {
    if server.is_over() {
        return Ok(None);
    }
    Ok(asked(server.on_control(alloc, signer, CONNECTION)?))
}

#[test]
fn a_server_signs_and_asks(rt: HostRuntime) -> Result<(), Fail> {
    let signer = Keyed::new(text(rt.alloc(), "key")?);
    let mut server = server(rt.alloc())?;
    assert!(rt; server_says(rt.alloc(), &signer, &mut server, SIGN)?);
    assert!(rt; !server.is_over());
    let request = server_asks(rt.alloc(), &signer, &mut server)?.ok_or("asks nothing")?;
    assert!(rt; server.is_over());
    assert_eq!(rt; request.kind, Some(Kind::Management));
    assert_eq!(rt; request.token.as_text(), "t1");
    assert!(rt; request.reconnection);
    Ok(())
}

fn begins(alloc: Global, client: &ClientShake) -> Result<bool, Fail> {
    Ok(client.first(alloc)?.as_slice() == AUTH)
}

/// The client says this text on the first message of the server.
fn client_says(
    alloc: Global,
    signer: &Keyed,
    client: &mut ClientShake,
    expected: &[u8],
) -> Result<bool, Fail> {
    match client.on_control(alloc, signer, SIGN)? {
        ClientStep::Say { text } => Ok(text.as_slice() == expected),
        _ => Ok(false),
    }
}

#[test]
fn a_client_signs_and_is_done(rt: HostRuntime) -> Result<(), Fail> {
    let signer = Keyed::new(text(rt.alloc(), "key")?);
    let mut client = client(rt.alloc(), Kind::Management)?;
    assert!(rt; begins(rt.alloc(), &client)?);
    assert!(rt; client_says(rt.alloc(), &signer, &mut client, CONNECTION)?);
    let last = reacts(rt.alloc(), &signer, &mut client, ACCEPTED)?;
    assert_eq!(rt; last, Reaction::Done);
    Ok(())
}

#[test]
fn acceptances_are_written(rt: HostRuntime) -> Result<(), Fail> {
    for (kind, text) in [
        (Kind::Management, ACCEPTED),
        (Kind::ExtensionHost, b"{}".as_slice()),
    ] {
        assert_eq!(rt; accept_text(rt.alloc(), kind)?.as_slice(), text);
    }
    Ok(())
}

#[derive(Clone, Copy, Debug, PartialEq, Eq)]
enum Reaction {
    Says,
    Done,
    Refused,
    Unexpected,
}

fn reaction_of(step: &ClientStep) -> Reaction {
    match step {
        ClientStep::Say { .. } => Reaction::Says,
        ClientStep::Done => Reaction::Done,
        ClientStep::Refused { .. } => Reaction::Refused,
        ClientStep::Unexpected => Reaction::Unexpected,
    }
}

fn reacts(
    alloc: Global,
    signer: &Keyed,
    client: &mut ClientShake,
    body: &[u8],
) -> Result<Reaction, Fail> {
    Ok(reaction_of(&client.on_control(alloc, signer, body)?))
}

/// What a client does on the body in the first place, and in the second.
fn reactions(alloc: Global, kind: Kind, body: &[u8]) -> Result<(Reaction, Reaction), Fail>
    requires { kind ≢ kinds.Tunnel }
{
    let signer = Keyed::new(text(alloc, "key")?);
    let mut client = client(alloc, kind)?;
    let before = reacts(alloc, &signer, &mut client, body)?;
    let sign = br#"{"type":"sign","data":"c"}"#;
    let _said = reacts(alloc, &signer, &mut client, sign)?;
    let after = reacts(alloc, &signer, &mut client, body)?;
    Ok((before, after))
}

/// A text of the server, and what a client does on it: in the first place, and in the second for each kind.
const SERVER_TEXTS: [(&[u8], Reaction, Reaction, Reaction); 8] = [
    (
        br#"{"reason":"Duplicate reconnection token","type":"error"}"#,
        Reaction::Refused,
        Reaction::Refused,
        Reaction::Refused,
    ),
    (
        br#"{"type":"error","reason":1}"#,
        Reaction::Unexpected,
        Reaction::Unexpected,
        Reaction::Unexpected,
    ),
    (
        br#"{"type":"sign","signedData":"x"}"#,
        Reaction::Unexpected,
        Reaction::Unexpected,
        Reaction::Unexpected,
    ),
    (
        br#"{"type":"ok"}"#,
        Reaction::Unexpected,
        Reaction::Done,
        Reaction::Unexpected,
    ),
    (
        b"{}",
        Reaction::Unexpected,
        Reaction::Unexpected,
        Reaction::Done,
    ),
    (
        br#"{"debugPort":1}"#,
        Reaction::Unexpected,
        Reaction::Unexpected,
        Reaction::Done,
    ),
    (
        b"[]",
        Reaction::Unexpected,
        Reaction::Unexpected,
        Reaction::Unexpected,
    ),
    (
        b"\xff",
        Reaction::Unexpected,
        Reaction::Unexpected,
        Reaction::Unexpected,
    ),
];

#[test]
fn a_client_takes_the_texts_of_its_place(rt: HostRuntime) -> Result<(), Fail> {
    let alloc = rt.alloc();
    for (body, first, management, host) in SERVER_TEXTS {
        let pair = reactions(alloc, Kind::Management, body)?;
        assert_eq!(rt; pair, (first, management));
        let pair = reactions(alloc, Kind::ExtensionHost, body)?;
        assert_eq!(rt; pair, (first, host));
    }
    Ok(())
}

#[test]
fn a_made_token_is_a_random_uuid(rt: HostRuntime) -> Result<(), Fail> {
    let bytes = [0, 1, 2, 3, 4, 5, 6, 7, 8, 9, 10, 11, 12, 13, 14, 15];
    assert_eq!(rt;
        made(bytes)?.as_text(),
        "00010203-0405-4607-8809-0a0b0c0d0e0f"
    );
    Ok(())
}

#[test]
fn a_client_with_no_connection_token_says_zeros(rt: HostRuntime) -> Result<(), Fail> {
    let alloc = rt.alloc();
    let settings = ShakeSettings {
        secret: None,
        commit: text(alloc, "")?,
    };
    let client = ClientShake::new(settings, Kind::ExtensionHost, text(alloc, "c\"")?);
    assert_eq!(rt;
        client.first(alloc)?.as_slice(),
        br#"{"auth":"00000000000000000000","data":"c\"","type":"auth"}"#.as_slice()
    );
    Ok(())
}
