//! Tests of ra_proto: what an endpoint says, hears, asks for and writes, over one link and over the next one.

use crate::bodies::{LONG, long_body};
use ra_base::{Message, Moment};
use ra_model::Frame;
use ra_proto::{Coming, EndFault, Endpoint, NextMessage, Phase, Up};
use std::alloc::Global;
use std::test::Fail;

fn at(millis: u64) -> Result<Moment, Fail> {
    Ok(Moment::of_millis(millis).ok_or("no moment")?)
}

/// An endpoint that is up on link 1.
fn up(alloc: Global) -> Result<Endpoint, Fail> {
    let mut endpoint = Endpoint::new(alloc, at(0)?, false);
    endpoint.begin_link(1, &[], at(0)?)?;
    Ok(endpoint)
}

fn say(alloc: Global, endpoint: &mut Endpoint, body: &[u8]) -> Result<u64, Fail> {
    Ok(endpoint.say(Message::copy(alloc, body)?, at(0)?)?)
}

/// A frame with this type and this ack alone.
fn bare(kind: u8, ack: u8) -> [u8; 13] {
    [kind, 0, 0, 0, 0, 0, 0, 0, ack, 0, 0, 0, 0]
}

/// A message of one byte, with this id and this ack.
fn letter(id: u8, ack: u8, body: u8) -> [u8; 14] {
    [1, 0, 0, 0, id, 0, 0, 0, ack, 0, 0, 0, 1, body]
}

/// The bytes come at this moment, and one frame of them is taken.
fn hear(endpoint: &mut Endpoint, bytes: &[u8], millis: u64) -> Result<Option<Up>, Fail> {
    endpoint.feed(endpoint.epoch(), bytes, at(millis)?)?;
    Ok(endpoint.next(at(millis)?)?)
}

/// The same, where the frame hands nothing up.
fn hear_quiet(endpoint: &mut Endpoint, bytes: &[u8], millis: u64) -> Result<bool, Fail> {
    Ok(matches!(hear(endpoint, bytes, millis)?, Some(Up::Quiet)))
}

/// The first frame that is shown has this type alone, and is put on the link.
fn writes_bare(endpoint: &mut Endpoint, kind: u8) -> bool {
    let out = endpoint.out();
    if out.len() < 13 {
        return false;
    }
    let is_it = out.starts_with(&bare(kind, 0));
    endpoint.wrote(13);
    is_it
}

/// All that is shown, which is put on the link, begins and ends with these bytes, and has no others.
fn writes(endpoint: &mut Endpoint, first: &[u8], last: &[u8]) -> bool {
    let out = endpoint.take_out();
    let bytes = out.as_slice();
    bytes.len() == first.len() + last.len() && bytes.starts_with(first) && bytes.ends_with(last)
}

/// A Control frame that was read elsewhere hands its body up.
fn applies_control(alloc: Global, endpoint: &mut Endpoint) -> Result<bool, Fail> {
    let frame = Frame {
        kind: 2,
        wide: false,
        id: 0,
        ack: 0,
        body: Message::empty(alloc),
    };
    if !endpoint.phase().is_linked() {
        return Ok(false);
    }
    Ok(matches!(endpoint.apply(frame, at(10)?)?, Up::Control { body: _ }))
}

fn times_out(endpoint: &mut Endpoint, millis: u64) -> Result<bool, Fail> {
    Ok(endpoint.tick(at(millis)?)?.timed_out)
}

/// How many messages wait, and the highest id that the peer acknowledged.
fn waiting(endpoint: &Endpoint) -> (usize, u64) {
    (endpoint.owed().len(), endpoint.marks().acknowledged)
}

/// The peer is asked to pause and to go on.
fn asks(endpoint: &mut Endpoint) -> Result<(), Fail> {
    endpoint.ask_pause()?;
    endpoint.ask_resume()?;
    Ok(())
}

/// A Control frame with no body is written, and the session is left.
fn leaves(endpoint: &mut Endpoint) -> Result<bool, Fail> {
    endpoint.control(&[])?;
    Ok(endpoint.disconnect()?)
}

/// A second leaving is refused, and writes nothing.
fn has_ended(endpoint: &mut Endpoint) -> bool {
    endpoint.disconnect() == Err(EndFault::Ended) && endpoint.out().is_empty()
}

/// The link is lost, and the next begins with these bytes.
fn begins_again(endpoint: &mut Endpoint, chunk: &[u8]) -> Result<bool, Fail> {
    let was_there = endpoint.lose_link(1);
    Ok(endpoint.begin_link(2, chunk, at(10)?)? && was_there)
}

/// The endpoint is joining on this link, with something to hand up.
fn is_joining(endpoint: &Endpoint, epoch: u64) -> bool {
    endpoint.phase() == Phase::Joining && endpoint.epoch() == epoch && endpoint.ready()
}

/// The next frame hands up message 5, and the reconnection ends.
fn hears_and_ends(endpoint: &mut Endpoint) -> Result<bool, Fail> {
    let heard = matches!(
        endpoint.next(at(10)?)?,
        Some(Up::Message { id: 5, body: _ })
    );
    endpoint.end_link(at(10)?)?;
    Ok(heard)
}

/// An endpoint that has said two messages.
fn up_with_two(alloc: Global) -> Result<Endpoint, Fail> {
    let mut endpoint = up(alloc)?;
    say(alloc, &mut endpoint, b"a")?;
    say(alloc, &mut endpoint, b"b")?;
    Ok(endpoint)
}

/// An Ack frame comes, and hands nothing up: what then waits.
fn waiting_after_ack(endpoint: &mut Endpoint, ack: u8) -> Result<Option<(usize, u64)>, Fail> {
    if hear_quiet(endpoint, &bare(3, ack), 0)? {
        Ok(Some(waiting(endpoint)))
    } else {
        Ok(None)
    }
}

/// An ack that is beyond the last id counts as the last id.
#[test]
fn ack_beyond_the_last_id(rt: HostRuntime) -> Result<(), Fail> {
    let mut endpoint = up_with_two(rt.alloc())?;
    assert_eq!(rt; waiting(&endpoint), (2, 0));
    assert_eq!(rt; waiting_after_ack(&mut endpoint, 9)?, Some((0, 2)));
    assert_eq!(rt; say(rt.alloc(), &mut endpoint, b"c")?, 3);
    assert_eq!(rt; waiting(&endpoint), (1, 2));
    Ok(())
}

/// A replay is asked for again only after 10 s.
#[test]
fn message_behind_the_next(rt: HostRuntime) -> Result<(), Fail> {
    let mut endpoint = up(rt.alloc())?;
    for (millis, asks) in [(0, true), (10_000, false), (10_001, true)] {
        assert!(rt; hear_quiet(&mut endpoint, &letter(5, 0, 0x61), millis)?);
        assert_eq!(rt; writes_bare(&mut endpoint, 6), asks);
    }
    Ok(())
}

/// What is asked, said to the session layer and left stands in the order of the calls.
#[test]
fn asks_and_leaves(rt: HostRuntime) -> Result<(), Fail> {
    let mut endpoint = up(rt.alloc())?;
    asks(&mut endpoint)?;
    assert!(rt; leaves(&mut endpoint)?);
    for kind in [7, 8, 2, 5] {
        assert!(rt; writes_bare(&mut endpoint, kind));
    }
    assert!(rt; has_ended(&mut endpoint));
    Ok(())
}

/// A frame of this type comes and hands nothing up, and then these bytes are shown.
fn answers_bare(
    endpoint: &mut Endpoint,
    kind: u8,
    first: &[u8],
    last: &[u8],
) -> Result<bool, Fail> {
    Ok(hear_quiet(endpoint, &bare(kind, 0), 0)? && writes(endpoint, first, last))
}

/// A message is said and not shown.
fn says_unshown(alloc: Global, endpoint: &mut Endpoint) -> Result<bool, Fail> {
    say(alloc, endpoint, b"c")?;
    Ok(writes(endpoint, &[], &[]))
}

/// A replay request, a pause and a resume come.
#[test]
fn replay_and_pause(rt: HostRuntime) -> Result<(), Fail> {
    let (a, b, c) = (letter(1, 0, 0x61), letter(2, 0, 0x62), letter(3, 0, 0x63));
    let mut endpoint = up_with_two(rt.alloc())?;
    assert!(rt; writes(&mut endpoint, &a, &b));
    assert!(rt; answers_bare(&mut endpoint, 6, &a, &b)?);
    assert!(rt; answers_bare(&mut endpoint, 7, &[], &[])?);
    assert!(rt; says_unshown(rt.alloc(), &mut endpoint)?);
    assert!(rt; answers_bare(&mut endpoint, 8, &c, &[])?);
    Ok(())
}

/// A copy of an endpoint with messages 1 to 4 behind it, which has said message 5 on link 1.
fn copy_with_one(alloc: Global) -> Result<Endpoint, Fail> {
    let mut endpoint = Endpoint::from_base(alloc, at(0)?, true, 4);
    endpoint.begin_link(1, &[], at(0)?)?;
    say(alloc, &mut endpoint, b"a")?;
    Ok(endpoint.copy(alloc)?)
}

/// The peer has been silent for 20 s at this moment, and not before.
fn times_out_at(endpoint: &mut Endpoint, millis: u64) -> Result<bool, Fail> {
    Ok(!times_out(endpoint, millis.saturating_sub(1))? && times_out(endpoint, millis)?)
}

/// The next link brings a message again that was said on the one before. The peer is then silent for 20 s.
#[test]
fn reconnects(rt: HostRuntime) -> Result<(), Fail> {
    let mut copy = copy_with_one(rt.alloc())?;
    assert!(rt; begins_again(&mut copy, &letter(5, 0, 0x78))?);
    assert!(rt; is_joining(&copy, 2));
    assert!(rt; hears_and_ends(&mut copy)?);
    assert!(rt; writes(&mut copy, &bare(3, 5), &letter(5, 4, 0x61)));
    assert!(rt; applies_control(rt.alloc(), &mut copy)?);
    assert!(rt; times_out_at(&mut copy, 20_010)?);
    Ok(())
}

/// A piece comes and is taken back.
fn feeds_in_vain(endpoint: &mut Endpoint, piece: &[u8]) -> Result<(), Fail> {
    let mark = endpoint.feed_mark();
    endpoint.feed(1, piece, at(9)?)?;
    endpoint.undo_feed(mark);
    Ok(())
}

/// The next message is seen and then taken: its id.
fn sees_and_takes(endpoint: &mut Endpoint) -> Result<Option<u64>, Fail> {
    let Coming::Message { message } = endpoint.peek()? else {
        return Ok(None);
    };
    endpoint.take_message(message.id, message.ack, message.len, at(0)?);
    Ok(Some(message.id))
}

/// The next message is seen, and taken with an answer that has its body.
fn answers(alloc: Global, endpoint: &mut Endpoint) -> Result<bool, Fail> {
    let Coming::Message { message } = endpoint.peek()? else {
        return Ok(false);
    };
    let NextMessage { id, body, ack, len } = message;
    let bodies = Vec::from_array(alloc, [body])?;
    endpoint.take_and_say(id, ack, len, bodies, at(0)?)?;
    Ok(true)
}

/// Two messages of one byte are said.
fn says_two(alloc: Global, endpoint: &mut Endpoint) -> Result<(), Fail> {
    let mut bodies = Vec::new(alloc);
    bodies.push(Message::copy(alloc, b"a")?)?;
    bodies.push(Message::copy(alloc, b"b")?)?;
    Ok(endpoint.say_all(bodies, at(0)?)?)
}

fn comes_nothing(endpoint: &Endpoint) -> Result<bool, Fail> {
    Ok(matches!(endpoint.peek()?, Coming::Nothing))
}

fn comes_another(endpoint: &Endpoint) -> Result<bool, Fail> {
    Ok(matches!(endpoint.peek()?, Coming::Other))
}

/// A message comes in two pieces, and between them one that is taken back.
fn feeds_around(endpoint: &mut Endpoint) -> Result<(), Fail> {
    let bytes = letter(1, 0, 0x61);
    endpoint.feed(1, &bytes[..5], at(0)?)?;
    feeds_in_vain(endpoint, b"lost")?;
    endpoint.feed(1, &bytes[5..], at(0)?)?;
    Ok(())
}

/// A piece that is taken back does not come before the next one.
#[test]
fn takes_a_piece_back(rt: HostRuntime) -> Result<(), Fail> {
    let mut endpoint = up(rt.alloc())?;
    feeds_around(&mut endpoint)?;
    assert_eq!(rt; sees_and_takes(&mut endpoint)?, Some(1));
    assert!(rt; comes_nothing(&endpoint)?);
    Ok(())
}

/// Two messages and an Ack come.
fn feeds_three(endpoint: &mut Endpoint) -> Result<(), Fail> {
    endpoint.feed(1, &letter(1, 0, 0x61), at(0)?)?;
    endpoint.feed(1, &letter(2, 0, 0x62), at(0)?)?;
    endpoint.feed(1, &bare(3, 0), at(0)?)?;
    Ok(())
}

/// A message is seen, the next is answered, and an Ack is no message.
#[test]
fn sees_what_comes(rt: HostRuntime) -> Result<(), Fail> {
    let mut endpoint = up(rt.alloc())?;
    feeds_three(&mut endpoint)?;
    assert_eq!(rt; sees_and_takes(&mut endpoint)?, Some(1));
    assert!(rt; answers(rt.alloc(), &mut endpoint)?);
    assert!(rt; comes_another(&endpoint)?);
    assert!(rt; writes(&mut endpoint, &letter(1, 2, 0x62), &[]));
    Ok(())
}

/// Messages that are said at once get ids in their order.
#[test]
fn says_all(rt: HostRuntime) -> Result<(), Fail> {
    let mut endpoint = up(rt.alloc())?;
    says_two(rt.alloc(), &mut endpoint)?;
    assert_eq!(rt; waiting(&endpoint), (2, 0));
    assert!(rt; writes(&mut endpoint, &letter(1, 0, 0x61), &letter(2, 0, 0x62)));
    Ok(())
}

/// What an endpoint shows that says this message.
fn shown_of(alloc: Global, body: &[u8]) -> Result<Message, Fail> {
    let mut endpoint = up(alloc)?;
    say(alloc, &mut endpoint, body)?;
    Ok(endpoint.take_out())
}

fn feed_in_pieces(endpoint: &mut Endpoint, bytes: &[u8]) -> Result<(), Fail> {
    for piece in bytes.chunks(65_536) {
        endpoint.feed(1, piece, at(0)?)?;
    }
    Ok(())
}

/// The next frame hands up message 1 with this body.
fn hears_whole(endpoint: &mut Endpoint, body: &[u8]) -> Result<bool, Fail> {
    let Some(Up::Message { id: 1, body: heard }) = endpoint.next(at(0)?)? else {
        return Ok(false);
    };
    Ok(heard.as_slice() == body)
}

/// An endpoint that is fed these bytes in pieces hears this message.
fn takes_whole(alloc: Global, bytes: &[u8], body: &[u8]) -> Result<bool, Fail> {
    let mut endpoint = up(alloc)?;
    feed_in_pieces(&mut endpoint, bytes)?;
    hears_whole(&mut endpoint, body)
}

/// A message of 2 MiB comes whole.
#[test]
fn a_long_message_comes_whole(rt: HostRuntime) -> Result<(), Fail> {
    let body = long_body(rt.alloc())?;
    let shown = shown_of(rt.alloc(), &body)?;
    assert_eq!(rt; shown.len(), 13 + LONG as usize);
    assert!(rt; takes_whole(rt.alloc(), shown.as_slice(), &body)?);
    Ok(())
}
