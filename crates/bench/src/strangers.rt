//! A load of strangers: links whose clients have not been accepted, each with a frame in its handshake that wants much memory.
use ra_base::{Message, NoMemory, Token};
use ra_frame::append_written;
use ra_opening::Opening;
use ra_ports::MemEntropy;
use ra_shake::ShakeSettings;
use ra_sign::Keyed;
use ra_upgrade::request;
use std::alloc::Global;

/// JSON that makes a large tree of few bytes.
const UNIT: &[u8] = br#"{"":{"":{"":0}}},"#;

/// The most bytes of a body.
const MOST: usize = 268_000_000;

/// The first byte of an array, and then so many of its objects.
fn body(alloc: Global, units: u32) -> Result<Vec<u8>, NoMemory> {
    let mut bytes = Vec::new(alloc);
    bytes.push(b'[')?;
    for _ in 0..units {
        bytes.extend_from_slice(UNIT)?;
    }
    bytes.push(b']')?;
    Ok(bytes)
}

/// The frame with that body. A frame of the type 2 is a text of the handshake, and one of the type 1 is passed over.
fn frame(alloc: Global, kind: u8, units: u32) -> Result<Vec<u8>, NoMemory> {
    let body = body(alloc, units)?;
    let mut bytes = Vec::new(alloc);
    if body.len() <= MOST && kind < 128 {
        append_written(&mut bytes, kind, 0, 0, body.as_slice())?;
    }
    Ok(bytes)
}

fn head(alloc: Global) -> Result<Message, NoMemory> {
    let Ok(token) = Token::from_text("t1") else {
        return Err(NoMemory);
    };
    request(alloc, "localhost", &token, false, true, [1; 16])
}

fn settings(alloc: Global) -> Result<ShakeSettings, NoMemory> {
    Ok(ShakeSettings {
        secret: Some(Message::copy(alloc, b"s3")?),
        commit: Message::empty(alloc),
    })
}

/// One link, on which these bytes come in pieces of 65,536 until it is over.
fn stranger(
    alloc: Global,
    signer: &Keyed,
    settings: &ShakeSettings,
    head: &[u8],
    frame: &[u8],
) -> Result<Opening, NoMemory> {
    let draws = Vec::from_array(alloc, [[7u8; 16]])?;
    if draws.is_empty() {
        return Err(NoMemory);
    }
    let mut entropy = MemEntropy::new(draws);
    let mut opening = Opening::new(alloc);
    let mut out = Vec::new(alloc);
    if !opening.is_over() {
        opening.piece(alloc, &mut entropy, signer, settings, head, &mut out);
    }
    for piece in frame.chunks(65_536) {
        if opening.is_over() {
            break;
        }
        opening.piece(alloc, &mut entropy, signer, settings, piece, &mut out);
    }
    Ok(opening)
}

/// So many links, each with the frame of that type and so many objects, without its last bytes. How many of them wait is told.
pub fn run(
    alloc: Global,
    links: u32,
    kind: u8,
    units: u32,
    missing: usize,
) -> Result<usize, NoMemory> {
    let signer = Keyed::new(Message::copy(alloc, b"key")?);
    let settings = settings(alloc)?;
    let head = head(alloc)?;
    let frame = frame(alloc, kind, units)?;
    let sent = &frame[..frame.len().saturating_sub(missing)];
    let mut openings = Vec::new(alloc);
    for _ in 0..links {
        let opening = stranger(alloc, &signer, &settings, head.as_slice(), sent)?;
        openings.push(opening)?;
    }
    Ok(openings.iter().filter(|opening| !opening.is_over()).count())
}
