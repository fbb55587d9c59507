//! Tests of ra_upgrade: heads of requests and their answers, as they are read, judged and written.

use ra_base::{Message, Token, TokenFault};
use ra_upgrade::{
    AnswerFault, HeadFault, Upgrade, answer, read_answer, read_head, refusal, request,
};
use std::alloc::{AllocError, Global};
use std::test::Fail;

const LINE: &str = "GET /?reconnectionToken=t1&skipWebSocketFrames=true HTTP/1.1";

const FIELDS: &str = "Host: localhost\r\nUpgrade: websocket\r\nConnection: Upgrade\r\n\
    Sec-WebSocket-Key: dGhlIHNhbXBsZSBub25jZQ==\r\nSec-WebSocket-Extensions: permessage-deflate\r\n";

const ACCEPTED: &str =
    "HTTP/1.1 101 Switching Protocols\r\nUpgrade: websocket\r\nConnection: Upgrade\r\n\
    Sec-WebSocket-Accept: s3pPLMBiTxaQ9kYGzzhZRbK+xOo=\r\n\r\n";

const REFUSED: &str = "HTTP/1.1 400 Bad Request\r\nConnection: close\r\nContent-Length: 0\r\n\r\n";

/// The key whose text the fields above have.
const KEY: [u8; 16] = *b"the sample nonce";

/// A head of a request line and of header fields, each of which ends with CR LF.
fn head(alloc: Global, line: &str, fields: &str) -> Result<String, AllocError> {
    format!(in alloc; "{line}\r\n{fields}\r\n")
}

/// What a head says that is all of the text.
fn whole_head(alloc: Global, text: &[u8]) -> Result<Upgrade, Fail> {
    let (upgrade, len) = read_head(alloc, text)?.ok_or("no head")?;
    if len == text.len() {
        Ok(upgrade)
    } else {
        Err("another length")?
    }
}

fn upgrade_of(alloc: Global, line: &str, fields: &str) -> Result<Upgrade, Fail> {
    let text = head(alloc, line, fields)?;
    whole_head(alloc, text.as_bytes())
}

/// Whether a head is there.
fn reads(alloc: Global, text: &[u8]) -> Result<bool, HeadFault> {
    Ok(read_head(alloc, text)?.is_some())
}

fn has_token(upgrade: &Upgrade, text: Option<&str>) -> bool {
    match &upgrade.token {
        Some(token) => text == Some(token.as_text()),
        None => text.is_none(),
    }
}

/// The answer to the head of the line and the fields above.
fn answered(alloc: Global) -> Result<Message, Fail> {
    let upgrade = upgrade_of(alloc, LINE, FIELDS)?;
    Ok(answer(alloc, &upgrade)?)
}

#[test]
fn a_head_is_answered(rt: HostRuntime) -> Result<(), Fail> {
    let text = answered(rt.alloc())?;
    assert_eq!(rt; text.as_slice(), ACCEPTED.as_bytes());
    assert_eq!(rt;
        read_answer(rt.alloc(), KEY, text.as_slice()),
        Ok(Some(ACCEPTED.len()))
    );
    Ok(())
}

#[test]
fn a_refused_head_is_answered(rt: HostRuntime) -> Result<(), Fail> {
    let text = refusal(rt.alloc(), &HeadFault::NoKey)?;
    assert_eq!(rt; text.as_slice(), REFUSED.as_bytes());
    assert_eq!(rt;
        read_answer(rt.alloc(), KEY, text.as_slice()),
        Err(AnswerFault::Status { code: 400 })
    );
    Ok(())
}

const GET: &str = "GET / HTTP/1.1";

const EMPTY_TOKEN: &str = "GET /?reconnectionToken= HTTP/1.1";

/// A line, fields and the first fault that they have.
const JUDGED: [(&str, &str, HeadFault); 9] = [
    (
        "POST /?reconnectionToken= HTTP/1.1",
        FIELDS,
        HeadFault::NotGet,
    ),
    ("GET / HTTP/1.0", FIELDS, HeadFault::NotGet),
    (
        EMPTY_TOKEN,
        "Sec-WebSocket-Key: k\r\n",
        HeadFault::NoUpgrade,
    ),
    (
        GET,
        "Upgrade: h2c\r\nUpgrade: websocket\r\n",
        HeadFault::NoUpgrade,
    ),
    (
        EMPTY_TOKEN,
        "Host: localhost\r\nUpgrade: websocket\r\nConnection: Upgrade\r\n",
        HeadFault::NoKey,
    ),
    (
        GET,
        "Upgrade: websocket\r\nSec-WebSocket-Key:\r\nSec-WebSocket-Key: k\r\n",
        HeadFault::NoKey,
    ),
    ("GET / HTTP/1.1\n", FIELDS, HeadFault::BadHead),
    ("\r\n\r\nGET / HTTP/1.1", FIELDS, HeadFault::BadHead),
    ("GET / HTTP/2.0", FIELDS, HeadFault::BadHead),
];

/// The fault of a head.
fn fault_of(alloc: Global, line: &str, fields: &str) -> Result<Option<HeadFault>, AllocError> {
    let text = head(alloc, line, fields)?;
    Ok(reads(alloc, text.as_bytes()).err())
}

#[test]
fn lines_and_fields_are_judged_in_order(rt: HostRuntime) -> Result<(), Fail> {
    for (line, fields, fault) in JUDGED {
        let found = fault_of(rt.alloc(), line, fields)?;
        assert_eq!(rt; found, Some(fault), "at {line}");
    }
    Ok(())
}

/// A line, and the fault of its token.
const TOKENS: [(&str, TokenFault); 4] = [
    (EMPTY_TOKEN, TokenFault::Empty),
    (
        "GET /?reconnectionToken=a%20b HTTP/1.1",
        TokenFault::BadByte { at: 1 },
    ),
    (
        "GET /?reconnectionToken=%61+b HTTP/1.1",
        TokenFault::BadByte { at: 1 },
    ),
    (
        "GET /?reconnectionToken=%ff HTTP/1.1",
        TokenFault::BadByte { at: 0 },
    ),
];

#[test]
fn tokens_are_judged_in_the_decoded_text(rt: HostRuntime) -> Result<(), Fail> {
    for (line, fault) in TOKENS {
        let found = fault_of(rt.alloc(), line, FIELDS)?;
        assert_eq!(rt; found, Some(HeadFault::BadToken { fault }), "at {line}");
    }
    Ok(())
}

/// A line, its token, and whether it asks for a reconnection and for frames to be skipped.
///
/// A name counts only where one pair has it, in its decoded text.
const LINES: [(&str, Option<&str>, (bool, bool)); 3] = [
    (LINE, Some("t1"), (false, true)),
    (
        "GET /?reconnectionToken=a&reconnectionToken=b&reconnection=true&reconnection=true HTTP/1.1",
        None,
        (false, false),
    ),
    (
        "GET /path?reconnection=%74rue&skipWebSocketFrames=True&%72econnectionToken=%74%31 HTTP/1.1",
        Some("t1"),
        (true, false),
    ),
];

#[test]
fn a_line_is_read(rt: HostRuntime) -> Result<(), Fail> {
    for (line, token, flags) in LINES {
        let upgrade = upgrade_of(rt.alloc(), line, FIELDS)?;
        assert!(rt; has_token(&upgrade, token), "at {line}");
        let found = (upgrade.reconnection, upgrade.skip_frames);
        assert_eq!(rt; found, flags, "at {line}");
    }
    Ok(())
}

/// Lines may end with LF alone, an empty line may stand before the request line, and names and `websocket` have any ASCII case.
#[test]
fn heads_are_read_as_the_grammar_allows(rt: HostRuntime) -> Result<(), Fail> {
    let fields = "UPGRADE: WebSocket\nsec-websocket-key: one\r\nSec-WebSocket-Key: two\r\n";
    let upgrade = upgrade_of(rt.alloc(), "\r\nGET / HTTP/1.1", fields)?;
    assert!(rt; upgrade.token.is_none());
    assert_eq!(rt; upgrade.key.as_slice(), b"one".as_slice());
    Ok(())
}

fn with_more_fields(alloc: Global, count: usize) -> Result<String, AllocError> {
    let mut fields = String::from_str(alloc, FIELDS)?;
    for _ in 0..count {
        fields.push_str("X: y\r\n")?;
    }
    head(alloc, LINE, fields.as_str())
}

#[test]
fn a_head_has_at_most_64_fields(rt: HostRuntime) -> Result<(), Fail> {
    for (count, expected) in [(59, Ok(true)), (60, Err(HeadFault::BadHead))] {
        let text = with_more_fields(rt.alloc(), count)?;
        assert_eq!(rt; reads(rt.alloc(), text.as_bytes()), expected);
    }
    Ok(())
}

/// A head of that length, by the value of its last field.
fn head_of_length(alloc: Global, len: usize) -> Result<Vec<u8>, AllocError> {
    let mut text = Vec::new(alloc);
    text.extend_from_slice(LINE.as_bytes())?;
    text.extend_from_slice(b"\r\n")?;
    text.extend_from_slice(FIELDS.as_bytes())?;
    text.extend_from_slice(b"X: ")?;
    text.resize(len.saturating_sub(4), b'y')?;
    text.extend_from_slice(b"\r\n\r\n")?;
    Ok(text)
}

#[test]
fn a_head_has_at_most_16384_bytes(rt: HostRuntime) -> Result<(), Fail> {
    for (len, expected) in [(16_384, Ok(true)), (16_385, Err(HeadFault::TooLong))] {
        let text = head_of_length(rt.alloc(), len)?;
        assert_eq!(rt; text.len(), len);
        assert_eq!(rt; reads(rt.alloc(), text.as_slice()), expected);
    }
    Ok(())
}

#[test]
fn bytes_with_no_end_are_open(rt: HostRuntime) -> Result<(), Fail> {
    let few = vec![in rt.alloc(); b'a'; 16_383]?;
    assert_eq!(rt; reads(rt.alloc(), few.as_slice()), Ok(false));
    assert_eq!(rt; read_answer(rt.alloc(), KEY, few.as_slice()), Ok(None));
    Ok(())
}

#[test]
fn more_bytes_with_no_end_are_too_long(rt: HostRuntime) -> Result<(), Fail> {
    let many = vec![in rt.alloc(); b'a'; 16_384]?;
    let found = reads(rt.alloc(), many.as_slice());
    assert_eq!(rt; found, Err(HeadFault::TooLong));
    let found = read_answer(rt.alloc(), KEY, many.as_slice());
    assert_eq!(rt; found, Err(AnswerFault::TooLong));
    Ok(())
}

fn written(alloc: Global) -> Result<Message, Fail> {
    let token = Token::from_text("t1")?;
    Ok(request(alloc, "localhost", &token, false, true, [0; 16])?)
}

#[test]
fn a_request_is_written(rt: HostRuntime) -> Result<(), Fail> {
    let text = written(rt.alloc())?;
    let wanted =
        "GET /?reconnectionToken=t1&reconnection=false&skipWebSocketFrames=true HTTP/1.1\r\n\
        Host: localhost\r\nConnection: Upgrade\r\nUpgrade: websocket\r\nSec-WebSocket-Version: 13\r\n\
        Sec-WebSocket-Key: AAAAAAAAAAAAAAAAAAAAAA==\r\n\r\n";
    assert_eq!(rt; text.as_slice(), wanted.as_bytes());
    Ok(())
}

fn written_and_read(alloc: Global) -> Result<Upgrade, Fail> {
    let text = written(alloc)?;
    whole_head(alloc, text.as_slice())
}

#[test]
fn a_written_request_is_read(rt: HostRuntime) -> Result<(), Fail> {
    let upgrade = written_and_read(rt.alloc())?;
    assert!(rt; has_token(&upgrade, Some("t1")));
    assert!(rt; !upgrade.reconnection);
    assert!(rt; upgrade.skip_frames);
    assert_eq!(rt;
        upgrade.key.as_slice(),
        b"AAAAAAAAAAAAAAAAAAAAAA==".as_slice()
    );
    Ok(())
}

/// A key, an answer, and what is read of it.
const ANSWERS: [([u8; 16], &str, Result<Option<usize>, AnswerFault>); 5] = [
    (KEY, "HTTP/1.1 101 Switching Protocols\r\n", Ok(None)),
    (KEY, "HTTP/1.1 10 Ok\r\n\r\n", Err(AnswerFault::BadHead)),
    (KEY, "HTTP/1.1 101 Ok\r\n\r\n", Err(AnswerFault::BadAccept)),
    (
        KEY,
        "HTTP/1.1 101 Ok\r\nSec-WebSocket-Accept: no\r\nSec-WebSocket-Accept: s3pPLMBiTxaQ9kYGzzhZRbK+xOo=\r\n\r\n",
        Err(AnswerFault::BadAccept),
    ),
    ([0; 16], ACCEPTED, Err(AnswerFault::BadAccept)),
];

#[test]
fn other_answers_are_refused(rt: HostRuntime) {
    for (key, text, expected) in ANSWERS {
        let found = read_answer(rt.alloc(), key, text.as_bytes());
        assert_eq!(rt; found, expected, "at {text}");
    }
}
