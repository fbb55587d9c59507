//! A load for a served connection: messages of an extension host that come in pieces.
ghost use Rattle.std.specs.Prelude.{◌<◌};

use ra_base::{Message, Moment, NoMemory, Token};
use ra_frame::append_written;
use ra_hub::{JobList, PlainHub};
use ra_link::{Settings, serve_link};
use ra_ports::{LinkStep, MemClock, MemEntropy, MemLink};
use ra_shake::ShakeSettings;
use ra_sign::Keyed;
use ra_upgrade::request;
use std::alloc::Global;

const FIRST: &[u8] = br#"{"auth":"s3","data":"c","type":"auth"}"#;

const SECOND: &[u8] =
    br#"{"commit":"","desiredConnectionType":2,"signedData":"s3","type":"connectionType"}"#;

/// How long each message is.
const BODY: usize = 1_000;

/// A frame of that type and id, with a body.
fn append(to: &mut Vec<u8>, kind: u8, id: u64, body: &[u8]) -> Result<(), NoMemory> {
    if body.len() <= BODY && kind < 128 {
        append_written(to, kind, id, 0, body)
    } else {
        Err(NoMemory)
    }
}

/// What a client sends to have an extension host's session.
fn opening(alloc: Global) -> Result<Vec<u8>, NoMemory> {
    let Ok(token) = Token::from_text("t1") else {
        return Err(NoMemory);
    };
    let head = request(alloc, "localhost", &token, false, true, [1; 16])?;
    let mut bytes = head.into_vec();
    append(&mut bytes, 2, 0, FIRST)?;
    append(&mut bytes, 2, 0, SECOND)?;
    Ok(bytes)
}

/// The same, and then so many messages.
fn sent(alloc: Global, messages: u64) -> Result<Vec<u8>, NoMemory> {
    let mut bytes = opening(alloc)?;
    let body = vec![in alloc; 120; BODY]?;
    for n in 0..messages {
        append(&mut bytes, 1, n + 1, body.as_slice())?;
    }
    Ok(bytes)
}

/// The bytes in pieces of so many.
fn pieces(alloc: Global, bytes: &[u8], size: usize) -> Result<Vec<LinkStep>, NoMemory>
    requires { 0 < size }
{
    let mut steps = Vec::new(alloc);
    for piece in bytes.chunks(size) {
        steps.push(LinkStep::Piece {
            bytes: Message::copy(alloc, piece)?,
        })?;
    }
    Ok(steps)
}

fn settings(alloc: Global) -> Result<Settings, NoMemory> {
    Ok(Settings {
        shake: ShakeSettings {
            secret: Some(Message::copy(alloc, b"s3")?),
            commit: Message::empty(alloc),
        },
    })
}

/// A connection that gives these steps is served to its end. How many jobs it gave is told.
fn serve(alloc: Global, steps: Vec<LinkStep>) -> Result<usize, NoMemory> {
    let draws = Vec::from_array(alloc, [[7u8; 16]])?;
    let moments = Vec::from_array(alloc, [Moment::start()])?;
    if draws.is_empty() || moments.is_empty() || !steps.iter().all(|step| step.is_filled()) {
        return Ok(0);
    }
    let mut link = MemLink::new(alloc, steps, Vec::new(alloc), Vec::new(alloc));
    let mut entropy = MemEntropy::new(draws);
    let mut clock = MemClock::new(moments);
    let mut jobs = JobList::new(alloc);
    let mut hub = PlainHub::new(alloc, 10_800_000, 300_000);
    let signer = Keyed::new(Message::copy(alloc, b"key")?);
    let settings = settings(alloc)?;
    serve_link(
        alloc,
        &mut link,
        &mut hub,
        &mut jobs,
        &mut clock,
        &mut entropy,
        &signer,
        &settings,
        u64::MAX,
    );
    Ok(jobs.jobs().len())
}

/// So many messages come over one connection, in pieces of so many bytes. How many of them became jobs is told.
pub fn run(alloc: Global, messages: u64, size: usize) -> Result<usize, NoMemory> {
    if messages > 1_000_000 || size == 0 {
        return Ok(0);
    }
    let bytes = sent(alloc, messages)?;
    let steps = pieces(alloc, bytes.as_slice(), size)?;
    serve(alloc, steps)
}
