//! Dialers over links in memory: what they do at each thing that happens, where the server's texts and frames are written out.
ghost use Rattle.std.specs.Prelude.{◌≢◌, IfSome, IsUtf8};
ghost use Rattle.ra_base.specs.declared.kind.Kind.TheVariants as kinds;
ghost use Rattle.ra_values.specs.Spelling.{Fits, levels};
ghost use Rattle.ra_values.specs.Tree.{text};
ghost use Rattle.ra_session.specs.View.{RoleFits};
ghost use Rattle.ra_session.specs.declared.values.Role.TheVariants as roles;
ghost use Rattle.ra_dial.specs.Clients.{CanDial};
ghost use Rattle.ra_dial.specs.View.{settings_of};

use crate::fixtures::{DISCONNECT, SERVER_1, at};
use ra_base::{Key, Kind, Message, Token};
use ra_dial::{DialAct, DialEnd, DialEvent, DialSettings, Dialer};
use ra_ports::MemEntropy;
use ra_shake::ShakeSettings;
use ra_upgrade::{answer, read_head};
use ra_values::{Text, Value, append};
use std::alloc::Global;
use std::test::*;

/// The server signs.
const SIGN: &[u8] =
    b"\x02\0\0\0\0\0\0\0\0\0\0\0*{\"data\":\"c\",\"signedData\":\"\",\"type\":\"sign\"}";

/// The server accepts a window.
const ACCEPT: &[u8] = b"\x02\0\0\0\0\0\0\0\0\0\0\0\x0d{\"type\":\"ok\"}";

/// The server asks for a pause, and accepts an extension host.
const ACCEPT_HOST: &[u8] = b"\x07\0\0\0\0\0\0\0\0\0\0\0\0\x02\0\0\0\0\0\0\0\0\0\0\0\x02{}";

/// The server refuses.
const REFUSE: &[u8] =
    b"\x02\0\0\0\0\0\0\0\0\0\0\08{\"reason\":\"Duplicate reconnection token\",\"type\":\"error\"}";

const RESUME: &[u8] = b"\x08\0\0\0\0\0\0\0\0\0\0\0\0";

/// Message 1 of an extension host.
const HOST_MESSAGE: &[u8] = b"\x01\0\0\0\x01\0\0\0\0\0\0\0\x02hi";

/// The text `tools`.
fn tools(alloc: Global) -> Option<Text>
    ensures { IfSome result (λ t. Fits levels (text t)) }
{
    Text::of(alloc, "tools").ok()
}

/// A text as a message.
fn message(alloc: Global, text: &str) -> Option<Message>
    ensures { IfSome result IsUtf8 }
{
    Message::copy(alloc, text.as_bytes()).ok()
}

/// What the session says first.
fn context(alloc: Global) -> Option<Value>
    ensures { IfSome result (λ v. RoleFits (roles.Dialling v)) }
{
    let context = Value::Undefined;
    let mut bytes = Vec::new(alloc);
    if !context.fits() || append(&context, &mut bytes).is_err() || bytes.len() > 268_435_456 {
        return None;
    }
    Some(context)
}

fn settings(alloc: Global, kind: Kind, skip_frames: bool) -> Option<DialSettings>
    requires { kind ≢ kinds.Tunnel }
    ensures dials { IfSome result (λ s. CanDial (settings_of s)) }
    ensures context { IfSome result (λ s. RoleFits (roles.Dialling s.context)) }
{
    let token = Token::from_text("t1").ok()?;
    let shake = ShakeSettings {
        secret: None,
        commit: Message::empty(alloc),
    };
    Some(DialSettings {
        shake,
        sign_key: message(alloc, "s3")?,
        key: Key { kind, token },
        host: message(alloc, "localhost")?,
        skip_frames,
        context: context(alloc)?,
    })
}

/// A dialer that was made at moment 0.
fn make_dialer(alloc: Global, kind: Kind, skip_frames: bool) -> Option<Dialer>
    requires { kind ≢ kinds.Tunnel }
{
    let settings = settings(alloc, kind, skip_frames)?;
    Dialer::new(alloc, settings, at(0)).ok()
}

/// A dialer, and its draws.
#[derive(Drop)]
struct Connection {
    dialer: Dialer,
    entropy: MemEntropy,
    alloc: Global,
}

fn make_client(alloc: Global, kind: Kind, skip_frames: bool) -> Option<Connection>
    requires { kind ≢ kinds.Tunnel }
{
    let mut draws = Vec::new(alloc);
    draws.push([7; 16]).ok()?;
    let dialer = make_dialer(alloc, kind, skip_frames)?;
    let entropy = MemEntropy::new(draws);
    Some(Connection {
        dialer,
        entropy,
        alloc,
    })
}

/// An act: its letter, and its moment. The letters of ends are P, G, E, I and T, in the order of `DialEnd`.
fn seen(act: &DialAct) -> (u8, u64) {
    match act {
        DialAct::Nothing => (b'N', 0),
        DialAct::Quiet => (b'Q', 0),
        DialAct::Rest { until } => (b'R', *until),
        DialAct::Connect => (b'C', 0),
        DialAct::Drop => (b'D', 0),
        DialAct::Settled { .. } => (b'S', 0),
        DialAct::Fired { .. } => (b'F', 0),
        DialAct::Host { .. } => (b'H', 0),
        DialAct::End { cause } => match cause {
            DialEnd::Permanent { .. } => (b'P', 0),
            DialEnd::GraceOver { now, .. } => (b'G', *now),
            DialEnd::Ended { .. } => (b'E', 0),
            DialEnd::IdsSpent => (b'I', 0),
            DialEnd::Stopped => (b'T', 0),
        },
    }
}

/// The server's answer to this request.
fn answer_to(alloc: Global, request: &[u8]) -> Option<Message> {
    match read_head(alloc, request) {
        Ok(Some((upgrade, _))) => answer(alloc, &upgrade).ok(),
        Ok(None) | Err(_) => None,
    }
}

impl Connection {
    fn step(&mut self, event: DialEvent, millis: u64) -> Option<(u8, u64)> {
        let now = at(millis);
        let act = self.dialer.step(self.alloc, event, &mut self.entropy, now);
        Some(seen(&act.ok()?))
    }

    /// Bytes come, and one head or frame of them is looked at.
    fn hear(&mut self, bytes: &[u8], millis: u64) -> Option<(u8, u64)> {
        let bytes = Message::copy(self.alloc, bytes).ok()?;
        self.step(DialEvent::Piece { bytes }, millis)?;
        self.step(DialEvent::Frame, millis)
    }

    /// A link comes at once, and the server's answer on it.
    fn link(&mut self, millis: u64) -> Option<(u8, u64)> {
        self.step(DialEvent::Tick, millis)?;
        self.step(DialEvent::Linked, millis)?;
        let request = self.dialer.take_out();
        let head = answer_to(self.alloc, request.as_slice())?;
        self.hear(head.as_slice(), millis)
    }
}

/// What the server sends, by a letter.
fn sent(letter: u8) -> &'static [u8] {
    match letter {
        b'1' => SIGN,
        b'2' => ACCEPT,
        b'3' => ACCEPT_HOST,
        b'4' => REFUSE,
        b'5' => SERVER_1,
        b'6' => RESUME,
        b'7' => HOST_MESSAGE,
        _ => DISCONNECT,
    }
}

/// What happens, by a letter: `l` is a link with its answer, and a digit is what the server sends.
fn play(client: &mut Connection, letter: u8, millis: u64) -> Option<(u8, u64)> {
    match letter {
        b't' => client.step(DialEvent::Tick, millis),
        b'n' => client.step(DialEvent::NoLink, millis),
        b'f' => client.step(DialEvent::Frame, millis),
        b'x' => client.step(DialEvent::LinkLost, millis),
        b's' => client.step(DialEvent::Stop, millis),
        b'l' => client.link(millis),
        _ => client.hear(sent(letter), millis),
    }
}

/// What happens, its moment, and the act at it.
type Row = (u8, u64, (u8, u64));

/// The first row at which the act is another one.
fn first_other(client: &mut Connection, rows: &[Row]) -> Option<usize> {
    for (at, (letter, millis, act)) in rows.iter().enumerate() {
        if play(client, *letter, *millis) != Some(*act) {
            return Some(at);
        }
    }
    None
}

/// The same at a new dialer; the one behind the last where memory is wanting.
fn at_new(alloc: Global, kind: Kind, rows: &[Row]) -> Option<usize>
    requires { kind ≢ kinds.Tunnel }
{
    match make_client(alloc, kind, true) {
        Some(mut client) => first_other(&mut client, rows),
        None => Some(rows.len()),
    }
}

const FAILS: &[Row] = &[
    (b't', 0, (b'C', 0)),
    (b'n', 100, (b'R', 5100)),
    (b't', 5099, (b'R', 5100)),
    (b't', 5100, (b'C', 0)),
];

#[test]
fn waits_after_a_failure(rt: HostRuntime) {
    assert!(rt; at_new(rt.alloc(), Kind::Management, FAILS) == None);
}

const IS_REFUSED: &[Row] = &[
    (b'l', 0, (b'Q', 0)),
    (b'1', 0, (b'Q', 0)),
    (b'4', 0, (b'P', 0)),
    (b't', 1, (b'P', 0)),
];

#[test]
fn is_over_after_a_refusal(rt: HostRuntime) {
    assert!(rt; at_new(rt.alloc(), Kind::Management, IS_REFUSED) == None);
}

const LOSES: &[Row] = &[
    (b'l', 0, (b'Q', 0)),
    (b'1', 0, (b'Q', 0)),
    (b'2', 0, (b'Q', 0)),
    (b'x', 10_000, (b'R', 10_000)),
    (b't', 10_000, (b'C', 0)),
    (b't', 10_810_000, (b'R', 10_815_000)),
    (b't', 10_810_001, (b'G', 10_810_001)),
];

#[test]
fn gives_up_when_a_loss_lasts(rt: HostRuntime) {
    assert!(rt; at_new(rt.alloc(), Kind::Management, LOSES) == None);
}

const HEARS: &[Row] = &[
    (b'l', 0, (b'Q', 0)),
    (b'1', 0, (b'Q', 0)),
    (b'2', 0, (b'Q', 0)),
    (b'5', 5, (b'Q', 0)),
    (b'f', 5, (b'N', 0)),
    (b't', 10, (b'R', 510)),
    (b'8', 20, (b'E', 0)),
];

#[test]
fn is_attached_until_a_disconnect(rt: HostRuntime) {
    assert!(rt; at_new(rt.alloc(), Kind::Management, HEARS) == None);
}

/// The Pause and the acceptance are two frames, and the Pause is the session's first.
const HOSTS: &[Row] = &[
    (b'l', 0, (b'Q', 0)),
    (b'1', 0, (b'Q', 0)),
    (b'3', 0, (b'Q', 0)),
    (b'f', 0, (b'Q', 0)),
    (b'6', 1, (b'Q', 0)),
    (b'f', 1, (b'Q', 0)),
    (b'7', 1, (b'H', 0)),
];

#[test]
fn begins_an_extension_host_paused(rt: HostRuntime) {
    assert!(rt; at_new(rt.alloc(), Kind::ExtensionHost, HOSTS) == None);
}

const STOPS: &[Row] = &[
    (b'l', 0, (b'Q', 0)),
    (b'1', 0, (b'Q', 0)),
    (b'2', 0, (b'Q', 0)),
    (b's', 1, (b'T', 0)),
    (b't', 2, (b'T', 0)),
];

#[test]
fn stops(rt: HostRuntime) {
    assert!(rt; at_new(rt.alloc(), Kind::Management, STOPS) == None);
}

/// What followed the answer of a link that is not framed yet, and what is left then.
fn rests(alloc: Global) -> Option<(bool, bool)> {
    let mut client = make_client(alloc, Kind::Management, false)?;
    play(&mut client, b'l', 0)?;
    play(&mut client, b'1', 0)?;
    let first = client.dialer.framed().is_some();
    Some((first, client.dialer.framed().is_some()))
}

#[test]
fn hands_out_what_followed_the_answer(rt: HostRuntime) {
    assert!(rt; rests(rt.alloc()) == Some((true, false)));
}

/// The id of a call and whether it was cancelled.
fn called(alloc: Global, dialer: &mut Dialer) -> Option<(i32, bool)> {
    let channel = tools(alloc)?;
    let name = tools(alloc)?;
    let id = dialer
        .call(alloc, channel, name, Value::Undefined, at(0))
        .ok()?;
    Some((id, dialer.cancel(alloc, id, at(0)).is_ok()))
}

/// The id of a listener and whether it ended.
fn listened(alloc: Global, dialer: &mut Dialer) -> Option<(i32, bool)> {
    let channel = tools(alloc)?;
    let event = tools(alloc)?;
    let id = dialer
        .listen(alloc, channel, event, Value::Undefined, at(0))
        .ok()?;
    Some((id, dialer.dispose(alloc, id, at(0)).is_ok()))
}

/// A call, and then a listener.
fn both(alloc: Global) -> Option<((i32, bool), (i32, bool))> {
    let mut dialer = make_dialer(alloc, Kind::Management, true)?;
    let call = called(alloc, &mut dialer)?;
    Some((call, listened(alloc, &mut dialer)?))
}

#[test]
fn calls_and_listens(rt: HostRuntime) {
    assert!(rt; both(rt.alloc()) == Some(((0, true), (1, true))));
}

/// Whether an extension host may say a message.
fn said(alloc: Global) -> Option<bool> {
    let mut dialer = make_dialer(alloc, Kind::ExtensionHost, true)?;
    let body = message(alloc, "hi")?;
    Some(dialer.say(alloc, body, at(0)).is_ok())
}

#[test]
fn says(rt: HostRuntime) {
    assert!(rt; said(rt.alloc()) == Some(true));
}
