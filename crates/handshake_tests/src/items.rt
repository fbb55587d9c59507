//! Tests of ra_items: a head and then frames, as a server and a client read them from pieces.

use ra_base::{Message, NoMemory, Token};
use ra_frame::{FrameFault, append_written};
use ra_items::ItemReader;
use ra_model::Frame;
use ra_upgrade::{AnswerFault, HeadFault, Upgrade, answer, request};
use std::alloc::Global;
use std::process::Abort;
use std::test::Fail;

const KEY: [u8; 16] = *b"the sample nonce";

/// A header that states a body of 268,435,457 bytes.
const LONG: [u8; 13] = [1, 0, 0, 0, 1, 0, 0, 0, 0, 16, 0, 0, 1];

fn request_bytes(alloc: Global) -> Result<Message, Fail> {
    let token = Token::from_text("t1")?;
    Ok(request(alloc, "localhost", &token, false, true, KEY)?)
}

fn reader_of(alloc: Global, bytes: &[u8]) -> Result<ItemReader, NoMemory> {
    let mut reader = ItemReader::new(alloc);
    reader.feed(bytes)?;
    Ok(reader)
}

fn request_in(
    rt: &impl Abort,
    alloc: Global,
    reader: &mut ItemReader,
) -> Result<Option<Upgrade>, HeadFault> {
    assert!(rt; !reader.is_behind_head());
    reader.next_request(alloc)
}

fn answer_in(rt: &impl Abort, alloc: Global, reader: &mut ItemReader) -> Result<bool, AnswerFault> {
    assert!(rt; !reader.is_behind_head());
    reader.next_answer(alloc, KEY)
}

fn frame_in(
    rt: &impl Abort,
    alloc: Global,
    reader: &mut ItemReader,
) -> Result<Option<Frame>, FrameFault> {
    assert!(rt; reader.is_behind_head());
    reader.next_frame(alloc)
}

/// A reader that has read a request.
fn behind_request(rt: &impl Abort, alloc: Global) -> Result<ItemReader, Fail> {
    let mut reader = reader_of(alloc, request_bytes(alloc)?.as_slice())?;
    let upgrade = request_in(rt, alloc, &mut reader)?.ok_or("no request")?;
    assert!(rt; upgrade.skip_frames);
    Ok(reader)
}

/// The answer to the request.
fn answer_bytes(rt: &impl Abort, alloc: Global) -> Result<Message, Fail> {
    let mut reader = reader_of(alloc, request_bytes(alloc)?.as_slice())?;
    let upgrade = request_in(rt, alloc, &mut reader)?.ok_or("no request")?;
    Ok(answer(alloc, &upgrade)?)
}

#[test]
fn a_server_waits_for_the_last_byte_of_a_request(rt: HostRuntime) -> Result<(), Fail> {
    let text = request_bytes(rt.alloc())?;
    let bytes = text.as_slice();
    assert!(rt; bytes.len() > 9);
    let mut reader = reader_of(rt.alloc(), &bytes[..9])?;
    assert!(rt; request_in(&rt, rt.alloc(), &mut reader)?.is_none());
    reader.feed(&bytes[9..])?;
    assert!(rt; request_in(&rt, rt.alloc(), &mut reader)?.is_some());
    assert!(rt; reader.unread().is_empty());
    Ok(())
}

#[test]
fn frames_follow_a_request(rt: HostRuntime) -> Result<(), Fail> {
    let mut reader = behind_request(&rt, rt.alloc())?;
    let mut bytes = Vec::new(rt.alloc());
    append_written(&mut bytes, 1, 7, 0, b"hi")?;
    reader.feed(&bytes)?;
    let frame = frame_in(&rt, rt.alloc(), &mut reader)?.ok_or("no frame")?;
    assert_eq!(rt; frame.id, 7);
    assert_eq!(rt; frame.body.as_slice(), b"hi".as_slice());
    Ok(())
}

#[test]
fn a_header_that_states_too_much_stays_unread(rt: HostRuntime) -> Result<(), Fail> {
    let mut reader = behind_request(&rt, rt.alloc())?;
    reader.feed(&LONG)?;
    let fault = frame_in(&rt, rt.alloc(), &mut reader).err();
    assert_eq!(rt;
        fault,
        Some(FrameFault::TooLong {
            stated: 268_435_457
        })
    );
    assert_eq!(rt; reader.unread(), LONG.as_slice());
    Ok(())
}

#[test]
fn a_client_waits_for_the_last_byte_of_an_answer(rt: HostRuntime) -> Result<(), Fail> {
    let text = answer_bytes(&rt, rt.alloc())?;
    let bytes = text.as_slice();
    assert!(rt; bytes.len() > 9);
    let mut reader = reader_of(rt.alloc(), &bytes[..9])?;
    assert_eq!(rt; answer_in(&rt, rt.alloc(), &mut reader), Ok(false));
    reader.feed(&bytes[9..])?;
    assert_eq!(rt; answer_in(&rt, rt.alloc(), &mut reader), Ok(true));
    assert!(rt; frame_in(&rt, rt.alloc(), &mut reader)?.is_none());
    Ok(())
}

#[test]
fn refused_heads_stay_unread(rt: HostRuntime) -> Result<(), Fail> {
    let mut reader = reader_of(rt.alloc(), b"GET\r\n\r\n")?;
    let fault = request_in(&rt, rt.alloc(), &mut reader).err();
    assert_eq!(rt; fault, Some(HeadFault::BadHead));
    assert_eq!(rt;
        answer_in(&rt, rt.alloc(), &mut reader),
        Err(AnswerFault::BadHead)
    );
    assert_eq!(rt; reader.unread(), b"GET\r\n\r\n".as_slice());
    Ok(())
}
