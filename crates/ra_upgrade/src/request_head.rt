//! Upgrade requests, as the server reads them.
ghost use Rattle.std.specs.Prelude.{◌≡◌, ◌≢◌, ◌<◌, ◌≤◌, Err, IfOk, length, map, option_map, codes, All, IfSome, IfNone};
ghost use Rattle.httparse.specs.Grammar.{RequestHead};
ghost use Rattle.httparse.specs.Spans.{IsRequestWithin, IsRequestAt, IsWithin, IsHeaderWithin, span_bytes, header_bytes};
ghost use Rattle.ra_base.specs.Outcome.{Answers};
ghost use Rattle.ra_upgrade.specs.declared.request_head.HeadFault.TheVariants as faults;
ghost use Rattle.ra_upgrade.specs.Ends.{max_fields, max_head};
ghost use Rattle.ra_upgrade.specs.Query.{only_value};
ghost use Rattle.ra_upgrade.specs.RequestHeads as spec;

use crate::ends::{MAX_FIELDS, MAX_HEAD, head_len};
use crate::fields::{first_value_of, same_name};
use crate::query::{flag, only_value_of, query};
use httparse::Status;
use httparse::spans::{EMPTY_HEADER_SPAN, HeaderSpan, RequestSpans, parse_request};
use ra_base::{Message, NoMemory, Token, TokenFault};
use std::alloc::{AllocError, Global};

/// What an upgrade request asks for.
#[derive(Drop)]
pub struct Upgrade {
    /// None where the query does not name just one: then the server makes a token.
    pub token: Option<Token>,
    /// The session is to be there already.
    pub reconnection: bool,
    /// The frames of the protocol follow the head directly, and no WebSocket messages carry them.
    pub skip_frames: bool,
    /// The text of the `Sec-WebSocket-Key` field.
    pub key: Message,
}

/// Why a head is refused: the first that applies.
#[derive(Clone, Copy, Debug, PartialEq, Eq)]
pub enum HeadFault {
    /// The first 16,384 bytes hold no whole head.
    TooLong,
    /// It is no request head, or has more than 64 header fields.
    BadHead,
    /// It has another method than GET, or another version than HTTP/1.1.
    NotGet,
    /// The first `Upgrade` field is not `websocket`, or there is none.
    NoUpgrade,
    /// The first `Sec-WebSocket-Key` field is empty, or there is none.
    NoKey,
    /// The one text that the query names as token is no token. Places and lengths count in the decoded text.
    BadToken { fault: TokenFault },
    NoMemory,
}

impl From<AllocError> for HeadFault {
    ghost from_gives = { λ _ fault. fault ≡ faults.NoMemory };

    fn from(_: AllocError) -> HeadFault {
        HeadFault::NoMemory
    }
}

impl From<NoMemory> for HeadFault {
    ghost from_gives = { λ _ fault. fault ≡ faults.NoMemory };

    fn from(_: NoMemory) -> HeadFault {
        HeadFault::NoMemory
    }
}

/// The parts of the request head that the text is, where it is one that is allowed.
fn parse(text: &[u8], spans: &mut [HeaderSpan]) -> Option<RequestSpans>
    requires { length spans.old ≡ max_fields }
    ensures within { IfSome result (IsRequestWithin text.now spans.new) }
    ensures head { IfSome result (λ r. (h : RequestHead) × spec.IsHead text.now h × IsRequestAt text.now spans.new r h) }
    ensures none { IfNone result ((h : RequestHead) → ¬ (spec.IsHead text.now h)) }
{
    match parse_request(text, spans) {
        Ok(Status::Complete(found)) if found.len == text.len() => Some(found),
        _ => None,
    }
}

/// The token that the query names.
#[tactic(auto, unfolding(crate::specs::RequestHeads::token_in))]
fn token_in(alloc: Global, query: &[u8]) -> Result<Option<Token>, HeadFault>
    ensures { Answers faults.NoMemory result (spec.token_in (only_value (codes "reconnectionToken") query.now)) }
{
    let Some(text) = only_value_of(alloc, query, "reconnectionToken")? else {
        return Ok(None);
    };
    match Token::from_text(text.as_str()) {
        Ok(token) => Ok(Some(token)),
        Err(fault) => Err(HeadFault::BadToken { fault }),
    }
}

/// What the query asks for, under a key.
#[tactic(auto, unfolding(crate::specs::RequestHeads::asked))]
fn asked(alloc: Global, query: &[u8], key: &[u8]) -> Result<Upgrade, HeadFault>
    ensures { Answers faults.NoMemory result (spec.asked query.now key.now) }
{
    let token = token_in(alloc, query)?;
    let reconnection = flag(alloc, query, "reconnection")?;
    let skip_frames = flag(alloc, query, "skipWebSocketFrames")?;
    let key = Message::copy(alloc, key)?;
    Ok(Upgrade {
        token,
        reconnection,
        skip_frames,
        key,
    })
}

/// Whether a request line has the method and the version of an upgrade request.
#[tactic(auto, unfolding(crate::specs::RequestHeads::is_get))]
fn is_get(method: &[u8], minor: u8) -> bool
    ensures { result ≡ spec.is_get method.now minor }
{
    method == b"GET".as_slice() && minor == 1
}

/// Whether the header field says `websocket`.
#[tactic(auto, unfolding(crate::specs::RequestHeads::is_websocket))]
fn is_websocket(value: Option<&[u8]>) -> bool
    ensures { result ≡ spec.is_websocket (option_map (λ v. v.now) value.entry) }
{
    match value {
        Some(value) => same_name(value, b"websocket"),
        None => false,
    }
}

/// What the query asks for, where there is a key.
#[tactic(auto, unfolding(crate::specs::RequestHeads::with_key))]
fn with_key(alloc: Global, query: &[u8], key: Option<&[u8]>) -> Result<Upgrade, HeadFault>
    ensures { Answers faults.NoMemory result (spec.with_key query.now (option_map (λ k. k.now) key.entry)) }
{
    match key {
        Some(key) if !key.is_empty() => asked(alloc, query, key),
        _ => Err(HeadFault::NoKey),
    }
}

/// What a request line and its header fields ask for.
#[tactic(auto, unfolding(crate::specs::RequestHeads::upgrade_of))]
fn upgrade_of(
    alloc: Global,
    text: &[u8],
    parts: RequestSpans,
    fields: &[HeaderSpan],
) -> Result<Upgrade, HeadFault>
    requires method { IsWithin (length text.now) parts.method }
    requires path { IsWithin (length text.now) parts.path }
    requires fields { All (IsHeaderWithin (length text.now)) fields.now }
    ensures { Answers faults.NoMemory result (spec.upgrade_of (span_bytes text.now parts.method) parts.version (span_bytes text.now parts.path) (map (header_bytes text.now) fields.now)) }
{
    if !is_get(parts.method.of(text), parts.version) {
        return Err(HeadFault::NotGet);
    }
    if !is_websocket(first_value_of(text, fields, b"upgrade")) {
        return Err(HeadFault::NoUpgrade);
    }
    let key = first_value_of(text, fields, b"sec-websocket-key");
    with_key(alloc, query(parts.path.of(text)), key)
}

/// Reads the head of an upgrade request, and its length in bytes. `None` asks for more bytes.
pub fn read_head(alloc: Global, bytes: &[u8]) -> Result<Option<(Upgrade, usize)>, HeadFault>
    ensures answer { result ≢ Err faults.NoMemory → spec.HeadIs bytes.now result }
    ensures within { IfOk result (λ found. IfSome found (λ head. head.1 ≤ length bytes.now)) }
    ensures short { IfOk result (λ found. IfNone found (length bytes.now < max_head)) }
{
    let Some(len) = head_len(bytes) else {
        return if bytes.len() < MAX_HEAD {
            Ok(None)
        } else {
            Err(HeadFault::TooLong)
        };
    };
    let text = &bytes[..len];
    let mut spans = [EMPTY_HEADER_SPAN; MAX_FIELDS];
    let Some(parts) = parse(text, &mut spans) else {
        return Err(HeadFault::BadHead);
    };
    let upgrade = upgrade_of(alloc, text, parts, &spans[..parts.headers])?;
    Ok(Some((upgrade, len)))
}
