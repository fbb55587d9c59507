//! Moments, frames and texts that several of these tests begin with, and what a server has beside its hub.
ghost use Rattle.std.specs.Prelude.{◌≡◌, IfOk};
ghost use Rattle.ra_base.specs.declared.kind.Kind.TheVariants.{Management};

use ra_base::{Key, Kind, Message, Moment, NoMemory, Token};
use ra_frame::append_written;
use ra_hub::JobList;
use ra_link::Settings;
use ra_ports::{MemClock, MemEntropy};
use ra_shake::ShakeSettings;
use ra_sign::Keyed;
use ra_upgrade::request;
use std::alloc::Global;
use std::test::Fail;

/// A client's first message of its handshake.
pub(crate) const FIRST: &[u8] = br#"{"auth":"s3","data":"c","type":"auth"}"#;

/// Its second one, where it is a window.
pub(crate) const SECOND: &[u8] =
    br#"{"commit":"","desiredConnectionType":1,"signedData":"s3","type":"connectionType"}"#;

/// The context `window` and Initialize: messages 1 and 2 of a client, as frames.
pub(crate) const GREETING: &[u8] =
    b"\x01\0\0\0\x01\0\0\0\0\0\0\0\x08\x01\x06window\x01\0\0\0\x02\0\0\0\0\0\0\0\x06\x04\x01\x06\xc8\x01\0";

/// Initialize: message 1 of a server.
pub(crate) const SERVER_1: &[u8] = b"\x01\0\0\0\x01\0\0\0\x01\0\0\0\x06\x04\x01\x06\xc8\x01\0";

pub(crate) const ACK_2: &[u8] = b"\x03\0\0\0\0\0\0\0\x02\0\0\0\0";

pub(crate) const DISCONNECT: &[u8] = b"\x05\0\0\0\0\0\0\0\0\0\0\0\0";

/// This moment, or the first one where there is none.
pub(crate) fn at(millis: u64) -> Moment {
    match Moment::of_millis(millis) {
        Some(moment) => moment,
        None => Moment::start(),
    }
}

/// The key of a window with the token `t1`.
pub(crate) fn key() -> Result<Key, Fail>
    ensures { IfOk result (λ key. key.kind ≡ Management) }
{
    Ok(Key {
        kind: Kind::Management,
        token: Token::from_text("t1")?,
    })
}

/// The head by which a client of this token asks for frames, or for bytes alone.
pub(crate) fn head(
    alloc: Global,
    token: &str,
    reconnection: bool,
    skip_frames: bool,
) -> Result<Vec<u8>, Fail> {
    let token = Token::from_text(token)?;
    let head = request(
        alloc,
        "localhost",
        &token,
        reconnection,
        skip_frames,
        [1; 16],
    )?;
    Ok(head.into_vec())
}

/// A short body, as a control frame.
pub(crate) fn append_control(to: &mut Vec<u8>, body: &[u8]) -> Result<(), NoMemory> {
    if body.len() < 1000 {
        append_written(to, 2, 0, 0, body)
    } else {
        Err(NoMemory)
    }
}

/// What a server has beside its hub.
#[derive(Drop)]
pub(crate) struct Around {
    pub alloc: Global,
    pub now: Moment,
    pub jobs: JobList,
    pub clock: MemClock,
    pub entropy: MemEntropy,
    pub signer: Keyed,
    pub settings: Settings,
}

/// A clock that stands.
fn clock(alloc: Global) -> Result<MemClock, Fail> {
    let mut moments = Vec::new(alloc);
    moments.push(Moment::start())?;
    Ok(MemClock::new(moments))
}

fn entropy(alloc: Global) -> Result<MemEntropy, Fail> {
    let mut draws = Vec::new(alloc);
    draws.push([7; 16])?;
    Ok(MemEntropy::new(draws))
}

fn settings(alloc: Global) -> Result<Settings, NoMemory> {
    let secret = Some(Message::copy(alloc, b"s3")?);
    let commit = Message::empty(alloc);
    Ok(Settings {
        shake: ShakeSettings { secret, commit },
    })
}

pub(crate) fn make_around(alloc: Global) -> Result<Around, Fail> {
    Ok(Around {
        alloc,
        now: Moment::start(),
        jobs: JobList::new(alloc),
        clock: clock(alloc)?,
        entropy: entropy(alloc)?,
        signer: Keyed::new(Message::copy(alloc, b"key")?),
        settings: settings(alloc)?,
    })
}
