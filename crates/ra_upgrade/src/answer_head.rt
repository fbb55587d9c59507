//! The server's answer, as the client reads it.
ghost use Rattle.std.specs.Prelude.{◌≡◌, ◌≢◌, ◌<◌, ◌≤◌, Err, length, map, option_map, All, IfSome, IfNone, IfOk};
ghost use Rattle.httparse.specs.Grammar.{ResponseHead};
ghost use Rattle.httparse.specs.Spans.{IsResponseWithin, IsResponseAt, IsHeaderWithin, header_bytes};
ghost use Rattle.ra_base.specs.Outcome.{Answers};
ghost use Rattle.ra_upgrade.specs.declared.answer_head.AnswerFault.TheVariants as faults;
ghost use Rattle.ra_upgrade.specs.Ends.{max_fields, max_head};
ghost use Rattle.ra_upgrade.specs.AnswerHeads as spec;
ghost use Rattle.ra_upgrade.specs.AnswerTexts.{accept_text};
ghost use Rattle.ra_upgrade.specs.RequestTexts as request;

use crate::client_request::key_text;
use crate::ends::{MAX_FIELDS, MAX_HEAD, head_len};
use crate::fields::first_value_of;
use crate::server_answer::accept_text;
use httparse::Status;
use httparse::spans::{EMPTY_HEADER_SPAN, HeaderSpan, ResponseSpans, parse_response};
use std::alloc::{AllocError, Global};

/// Why an answer is no acceptance: the first that applies.
#[derive(Clone, Copy, Debug, PartialEq, Eq)]
pub enum AnswerFault {
    /// The first 16,384 bytes hold no whole head.
    TooLong,
    /// It is no response head, or has more than 64 header fields.
    BadHead,
    /// The status is another than 101.
    Status { code: u16 },
    /// The first `Sec-WebSocket-Accept` field is not the text that the key asks for, or there is none.
    BadAccept,
    NoMemory,
}

impl From<AllocError> for AnswerFault {
    ghost from_gives = { λ _ fault. fault ≡ faults.NoMemory };

    fn from(_: AllocError) -> AnswerFault {
        AnswerFault::NoMemory
    }
}

/// The parts of the response head that the text is, where it is one that is allowed.
fn parse(text: &[u8], spans: &mut [HeaderSpan]) -> Option<ResponseSpans>
    requires { length spans.old ≡ max_fields }
    ensures within { IfSome result (IsResponseWithin text.now spans.new) }
    ensures head { IfSome result (λ r. (h : ResponseHead) × spec.IsAnswer text.now h × IsResponseAt text.now spans.new r h) }
    ensures none { IfNone result ((h : ResponseHead) → ¬ (spec.IsAnswer text.now h)) }
{
    match parse_response(text, spans) {
        Ok(Status::Complete(found)) => {
            if found.len == text.len() {
                Some(found)
            } else {
                None
            }
        }
        Ok(Status::Partial) => None,
        Err(_) => None,
    }
}

/// Whether the value is the one that the key asks for.
fn is_accept(alloc: Global, value: Option<&[u8]>, key: &[u8; 16]) -> Result<bool, AllocError>
    ensures { IfOk result (λ yes. yes ≡ spec.is_value (option_map (λ v. v.now) value.entry) (accept_text (request.key_text key.now))) }
{
    let wanted = accept_text(alloc, key_text(alloc, key)?.as_bytes())?;
    match value {
        Some(value) => Ok(value == wanted.as_bytes()),
        None => Ok(false),
    }
}

/// What a status and header fields say to a client with that key.
#[tactic(auto, unfolding(crate::specs::AnswerHeads::accepts))]
fn accepts(
    alloc: Global,
    text: &[u8],
    code: u16,
    fields: &[HeaderSpan],
    key: &[u8; 16],
) -> Result<(), AnswerFault>
    requires { All (IsHeaderWithin (length text.now)) fields.now }
    ensures { Answers faults.NoMemory result (spec.accepts key.now code (map (header_bytes text.now) fields.now)) }
{
    if code != 101 {
        return Err(AnswerFault::Status { code });
    }
    let value = first_value_of(text, fields, b"sec-websocket-accept");
    if is_accept(alloc, value, key)? {
        Ok(())
    } else {
        Err(AnswerFault::BadAccept)
    }
}

/// Reads the server's answer to a request with that key, and its length in bytes. `None` asks for more bytes.
pub fn read_answer(alloc: Global, key: [u8; 16], bytes: &[u8]) -> Result<Option<usize>, AnswerFault>
    ensures answer { result ≢ Err faults.NoMemory → spec.AnswerIs key bytes.now result }
    ensures within { IfOk result (λ found. IfSome found (λ len. len ≤ length bytes.now)) }
    ensures short { IfOk result (λ found. IfNone found (length bytes.now < max_head)) }
{
    let Some(len) = head_len(bytes) else {
        return if bytes.len() < MAX_HEAD {
            Ok(None)
        } else {
            Err(AnswerFault::TooLong)
        };
    };
    let text = &bytes[..len];
    let mut spans = [EMPTY_HEADER_SPAN; MAX_FIELDS];
    let Some(parts) = parse(text, &mut spans) else {
        return Err(AnswerFault::BadHead);
    };
    accepts(alloc, text, parts.code, &spans[..parts.headers], &key)?;
    Ok(Some(len))
}
