//! Tests of ra_frame: how frames are written, and how they are read from pieces, copied and skipped.
ghost use Rattle.std.specs.Prelude.{◌<◌};

use crate::bodies::{LONG, long_body};
use ra_base::{Message, NoMemory};
use ra_frame::{Frame, FrameFault, FrameReader, append, append_written, header, header_wide};
use std::alloc::Global;
use std::test::Fail;

const HI: [u8; 15] = [1, 0, 0, 0, 1, 0, 0, 0, 0, 0, 0, 0, 2, 104, 105];

const WIDE_HI: [u8; 23] = [
    129, 0, 0, 0, 1, 0, 0, 0, 0, 0, 0, 0, 0, 0, 0, 0, 7, 0, 0, 0, 2, 104, 105,
];

/// A part of a header, and headers that state the longest body and one byte more, with the fault that each has.
const HEADERS: [(&[u8], Option<FrameFault>); 3] = [
    (&[1, 0, 0, 0, 1, 0, 0, 0, 0, 0, 0, 0], None),
    (&[1, 0, 0, 0, 1, 0, 0, 0, 0, 16, 0, 0, 0], None),
    (
        &[1, 0, 0, 0, 1, 0, 0, 0, 0, 16, 0, 0, 1],
        Some(FrameFault::TooLong {
            stated: 268_435_457,
        }),
    ),
];

/// What a frame says: its type, whether it is wide, its id, its ack, and whether it has the body that is awaited.
type Said = (u8, bool, u64, u64, bool);

fn said_by(frame: &Frame, body: &[u8]) -> Said {
    let has_body = frame.body.as_slice() == body;
    (frame.kind, frame.wide, frame.id, frame.ack, has_body)
}

fn reader_of(alloc: Global, bytes: &[u8]) -> Result<FrameReader, NoMemory> {
    let mut reader = FrameReader::new(alloc);
    reader.feed(bytes)?;
    Ok(reader)
}

/// What the next frame says.
fn next(alloc: Global, reader: &mut FrameReader, body: &[u8]) -> Result<Option<Said>, FrameFault> {
    match reader.next(alloc)? {
        Some(frame) => Ok(Some(said_by(&frame, body))),
        None => Ok(None),
    }
}

#[test]
fn a_frame_is_read_and_nothing_is_left(rt: HostRuntime) -> Result<(), Fail> {
    let mut reader = reader_of(rt.alloc(), &HI)?;
    assert!(rt; reader.ready());
    let said = next(rt.alloc(), &mut reader, b"hi")?;
    assert_eq!(rt; said, Some((1, false, 1, 0, true)));
    assert_eq!(rt; next(rt.alloc(), &mut reader, b"")?, None);
    assert_eq!(rt; reader.rest_len(), 0);
    Ok(())
}

/// A reader of these bytes is ready where it has a fault. It gives the fault or no frame, and keeps the bytes.
fn gives_no_frame(
    alloc: Global,
    bytes: &[u8],
    fault: Option<FrameFault>,
) -> Result<bool, NoMemory> {
    let mut reader = reader_of(alloc, bytes)?;
    let is_ready = reader.ready();
    let found = match next(alloc, &mut reader, b"") {
        Ok(Some(_)) => return Ok(false),
        Ok(None) => None,
        Err(found) => Some(found),
    };
    Ok(is_ready == fault.is_some() && found == fault && reader.unread() == bytes)
}

#[test]
fn headers_alone_give_no_frame(rt: HostRuntime) -> Result<(), Fail> {
    for (bytes, fault) in HEADERS {
        assert!(rt; gives_no_frame(rt.alloc(), bytes, fault)?, "{fault:?}");
    }
    Ok(())
}

/// The bytes are fed in pieces of this length, and no frame comes before the last piece.
fn feeds_in_pieces(
    alloc: Global,
    reader: &mut FrameReader,
    bytes: &[u8],
    len: usize,
) -> Result<bool, Fail>
    requires { 0 < len }
{
    for piece in bytes.chunks(len) {
        if reader.next(alloc)?.is_some() {
            return Ok(false);
        }
        reader.feed(piece)?;
    }
    Ok(true)
}

#[test]
fn a_wide_frame_comes_back_from_single_bytes(rt: HostRuntime) -> Result<(), Fail> {
    let mut reader = FrameReader::new(rt.alloc());
    assert!(rt; feeds_in_pieces(rt.alloc(), &mut reader, &WIDE_HI, 1)?);
    let said = next(rt.alloc(), &mut reader, b"hi")?;
    assert_eq!(rt; said, Some((1, true, 4_294_967_296, 7, true)));
    assert_eq!(rt; reader.rest_len(), 0);
    Ok(())
}

/// Adds a frame of `hi`, and gives its header.
fn append_hi(alloc: Global, to: &mut Vec<u8>) -> Result<[u8; 13], NoMemory> {
    let frame = Frame {
        kind: 1,
        wide: false,
        id: 1,
        ack: 0,
        body: Message::copy(alloc, b"hi")?,
    };
    append(&frame, to)?;
    Ok(header(&frame))
}

/// Adds a wide frame of `hi`, and gives its header.
fn append_wide_hi(alloc: Global, to: &mut Vec<u8>) -> Result<[u8; 21], NoMemory> {
    let frame = Frame {
        kind: 1,
        wide: true,
        id: 4_294_967_296,
        ack: 7,
        body: Message::copy(alloc, b"hi")?,
    };
    append(&frame, to)?;
    Ok(header_wide(&frame))
}

#[test]
fn frames_are_written(rt: HostRuntime) -> Result<(), Fail> {
    let mut bytes = Vec::new(rt.alloc());
    let header = append_hi(rt.alloc(), &mut bytes)?;
    assert!(rt; HI.starts_with(&header));
    assert_eq!(rt; bytes.as_slice(), HI.as_slice());
    let header = append_wide_hi(rt.alloc(), &mut bytes)?;
    assert!(rt; WIDE_HI.starts_with(&header));
    assert_eq!(rt; bytes.len(), 38);
    assert!(rt; bytes.starts_with(&HI) && bytes.ends_with(&WIDE_HI));
    Ok(())
}

#[test]
fn a_frame_is_written_wide_where_its_id_needs_it(rt: HostRuntime) -> Result<(), Fail> {
    let mut bytes = Vec::new(rt.alloc());
    append_written(&mut bytes, 1, 4_294_967_296, 7, b"hi")?;
    assert_eq!(rt; bytes.as_slice(), WIDE_HI.as_slice());
    Ok(())
}

/// The next frame is seen and then skipped: what it says, and how many bytes there were.
fn skip_one(alloc: Global, reader: &mut FrameReader) -> Result<Option<(Said, usize)>, FrameFault> {
    let Some((frame, len)) = reader.peek(alloc)? else {
        return Ok(None);
    };
    let unread = reader.unread().len();
    reader.skip(len);
    Ok(Some((said_by(&frame, b"hi"), unread)))
}

/// A copy of the rest and a copy of the reader, which is then cleared, have these bytes.
fn copies_and_clears(
    alloc: Global,
    reader: &mut FrameReader,
    bytes: &[u8],
) -> Result<(bool, bool), NoMemory> {
    let has_rest = reader.copy_rest(alloc)?.as_slice() == bytes;
    let copied = reader.copy(alloc)?;
    reader.clear();
    Ok((has_rest, copied.unread() == bytes))
}

#[test]
fn the_rest_is_copied_and_discarded(rt: HostRuntime) -> Result<(), Fail> {
    let mut reader = reader_of(rt.alloc(), &HI)?;
    reader.feed(b"rest")?;
    let said = skip_one(rt.alloc(), &mut reader)?;
    assert_eq!(rt; said, Some(((1, false, 1, 0, true), 19)));
    let same = copies_and_clears(rt.alloc(), &mut reader, b"rest")?;
    assert_eq!(rt; same, (true, true));
    assert_eq!(rt; reader.rest_len(), 0);
    Ok(())
}

#[test]
fn a_piece_is_taken_back(rt: HostRuntime) -> Result<(), Fail> {
    let mut reader = reader_of(rt.alloc(), &HI)?;
    reader.feed(b"rest")?;
    assert!(rt; skip_one(rt.alloc(), &mut reader)?.is_some());
    let kept = reader.unread().len().min(2);
    reader.truncate(kept);
    assert_eq!(rt; reader.unread(), b"re".as_slice());
    Ok(())
}

/// A message with this body.
fn framed(alloc: Global, body: &[u8]) -> Result<Vec<u8>, NoMemory> {
    let mut bytes = Vec::new(alloc);
    if body.len() > LONG as usize {
        return Err(NoMemory);
    }
    append_written(&mut bytes, 1, 1, 0, body)?;
    Ok(bytes)
}

#[test]
fn a_long_frame_comes_back_from_pieces(rt: HostRuntime) -> Result<(), Fail> {
    let body = long_body(rt.alloc())?;
    let bytes = framed(rt.alloc(), &body)?;
    assert_eq!(rt; bytes.len(), 13 + 2_097_152);
    let mut reader = FrameReader::new(rt.alloc());
    assert!(rt; feeds_in_pieces(rt.alloc(), &mut reader, &bytes, 65_536)?);
    let said = next(rt.alloc(), &mut reader, &body)?;
    assert_eq!(rt; said, Some((1, false, 1, 0, true)));
    assert_eq!(rt; reader.rest_len(), 0);
    Ok(())
}
