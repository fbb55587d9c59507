//! What a stranger may put on a link: how it ends, and what it leaves of its own session and of another one.
use crate::fixtures::{ACK_2, DISCONNECT, GREETING};
use crate::served_links::{
    BAD, Ended, LONG, OPENING, Outcome, ServerHub, hub_with, run_on, window,
};
use ra_base::Reason;
use std::alloc::Global;
use std::test::Fail;

/// The call of `OPENING` again, as the fourth message: its id is active.
const CALLED_AGAIN: &[u8] =
    b"\x01\0\0\0\x04\0\0\0\x01\0\0\0\x17\x04\x04\x06\x64\x06\0\x01\x05tools\x01\x04echo\x01\x02hi";

/// An Ack of 4,294,967,295 messages.
const ACK_ALL: &[u8] = b"\x03\0\0\0\0\xff\xff\xff\xff\0\0\0\0";

/// A Regular frame of a message that is behind the next one, and a frame of no known type.
const OUT_OF_ORDER: &[u8] = b"\x01\0\0\0\x09\0\0\0\0\0\0\0\0\x63\0\0\0\0\0\0\0\0\0\0\0\0";

/// A window's link with that token, in one piece.
fn link(
    alloc: Global,
    hub: &mut ServerHub,
    token: &str,
    reconnection: bool,
    frames: &[u8],
) -> Result<Outcome, Fail> {
    let bytes = window(alloc, token, reconnection, frames)?;
    run_on(alloc, hub, &bytes, 0, Vec::new(alloc), 100)
}

/// A window's first link with that token, up to these bytes behind its opening.
fn first_link(
    alloc: Global,
    hub: &mut ServerHub,
    token: &str,
    behind: &[u8],
) -> Result<Ended, Fail> {
    let mut frames = Vec::from_slice(alloc, OPENING)?;
    frames.extend_from_slice(behind)?;
    let first = link(alloc, hub, token, false, &frames)?;
    Ok(first.end)
}

/// How a first link ends that brings these bytes behind its opening, and how its reconnection does.
fn both_ends(alloc: Global, behind: &[u8]) -> Result<(Ended, Ended), Fail> {
    let mut hub = hub_with(alloc, Vec::new(alloc))?;
    let first = first_link(alloc, &mut hub, "t1", behind)?;
    let second = link(alloc, &mut hub, "t1", true, b"")?;
    Ok((first, second.end))
}

/// A session in which an id is called twice, before it was answered, is over.
#[test]
fn an_active_id_ends_the_session(rt: HostRuntime) -> Result<(), Fail> {
    let ends = both_ends(rt.alloc(), CALLED_AGAIN)?;
    assert_eq!(rt;
        ends,
        (Ended::ActiveId(0), Ended::Refused(Reason::SeenBefore))
    );
    Ok(())
}

/// A window's first link with the token `t1`, up to these bytes behind its greeting, to which the server says one message.
fn greeted(alloc: Global, hub: &mut ServerHub, behind: &[u8]) -> Result<(), Fail> {
    let mut frames = Vec::from_slice(alloc, GREETING)?;
    frames.extend_from_slice(behind)?;
    link(alloc, hub, "t1", false, &frames)?;
    Ok(())
}

/// Whether the reconnection of such a link is sent an Ack of 2 messages, and nothing behind it.
fn nothing_again(alloc: Global, behind: &[u8]) -> Result<bool, Fail> {
    let mut hub = hub_with(alloc, Vec::new(alloc))?;
    greeted(alloc, &mut hub, behind)?;
    let second = link(alloc, &mut hub, "t1", true, b"")?;
    Ok(second.sent.ends_with(ACK_2))
}

/// An Ack of more than was said acknowledges what was said: nothing is sent again.
#[test]
fn an_ack_of_all_acknowledges_what_was_said(rt: HostRuntime) -> Result<(), Fail> {
    assert!(rt; !nothing_again(rt.alloc(), b"")?);
    assert!(rt; nothing_again(rt.alloc(), ACK_ALL)?);
    Ok(())
}

/// What the second link of the token `t2` comes to, where a link of `t1` brought these bytes before it.
fn second_beside(alloc: Global, behind: &[u8]) -> Result<Outcome, Fail> {
    let mut hub = hub_with(alloc, Vec::new(alloc))?;
    first_link(alloc, &mut hub, "t2", b"")?;
    first_link(alloc, &mut hub, "t1", behind)?;
    link(alloc, &mut hub, "t2", true, b"")
}

/// The same, where no link of another came before.
fn second_alone(alloc: Global) -> Result<Outcome, Fail> {
    let mut hub = hub_with(alloc, Vec::new(alloc))?;
    first_link(alloc, &mut hub, "t2", b"")?;
    link(alloc, &mut hub, "t2", true, b"")
}

/// How the second link of `t2` ends beside such a link, and whether just these bytes are sent over it.
fn sends_beside(alloc: Global, behind: &[u8], alone: &[u8]) -> Result<(Ended, bool), Fail> {
    let Outcome { end, sent, .. } = second_beside(alloc, behind)?;
    Ok((end, sent.as_slice() == alone))
}

const HOSTILE: [&[u8]; 6] = [CALLED_AGAIN, BAD, LONG, DISCONNECT, ACK_ALL, OUT_OF_ORDER];

/// What comes on a link touches no other session.
#[test]
fn no_other_session_is_touched(rt: HostRuntime) -> Result<(), Fail> {
    let Outcome { end, sent, .. } = second_alone(rt.alloc())?;
    assert_eq!(rt; end, Ended::Closed);
    for behind in HOSTILE {
        let beside = sends_beside(rt.alloc(), behind, &sent)?;
        assert_eq!(rt; beside, (Ended::Closed, true));
    }
    Ok(())
}
