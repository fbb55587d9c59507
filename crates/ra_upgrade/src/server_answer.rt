//! The answers to an upgrade request, as the server writes them.
ghost use Rattle.std.specs.Prelude.{◌≡◌, IfOk, string_bytes};
ghost use Rattle.ra_upgrade.specs.AnswerTexts as spec;

use crate::request_head::{HeadFault, Upgrade};
use base64::engine::general_purpose::STANDARD;
use ra_base::{Message, NoMemory};
use sha1::Sha1;
use std::alloc::{AllocError, Global};

/// What follows a key in the text whose digest is taken (RFC 6455, section 1.3).
const ACCEPT_GUID: &[u8] = b"258EAFA5-E914-47DA-95CA-C5AB0DC85B11";

/// The value of `Sec-WebSocket-Accept` for a key.
#[tactic(auto, unfolding(crate::specs::AnswerTexts::accept_text))]
pub(crate) fn accept_text(alloc: Global, key: &[u8]) -> Result<String, AllocError>
    ensures { IfOk result (λ text. string_bytes text ≡ spec.accept_text key.now) }
{
    let mut hasher = Sha1::new();
    hasher.update(key);
    hasher.update(ACCEPT_GUID);
    STANDARD.encode(alloc, &hasher.finalize())
}

/// The answer that accepts an upgrade (RFC 6455, section 4.2.2).
#[tactic(auto, unfolding(crate::specs::AnswerTexts::answer_text))]
pub fn answer(alloc: Global, upgrade: &Upgrade) -> Result<Message, NoMemory>
    ensures { IfOk result (λ text. text ≡ spec.answer_text upgrade.now.key) }
{
    let mut text = String::from_str(alloc, "HTTP/1.1 101 Switching Protocols\r\n")?;
    text.push_str("Upgrade: websocket\r\nConnection: Upgrade\r\nSec-WebSocket-Accept: ")?;
    text.push_str(accept_text(alloc, upgrade.key.as_slice())?.as_str())?;
    text.push_str("\r\n\r\n")?;
    Ok(Message::from_vec(text.into_bytes()))
}

/// The answer that refuses a head. It is the same for every fault.
#[tactic(auto, unfolding(crate::specs::AnswerTexts::refusal_text))]
pub fn refusal(alloc: Global, _fault: &HeadFault) -> Result<Message, NoMemory>
    ensures { IfOk result (λ text. text ≡ spec.refusal_text) }
{
    Message::copy(
        alloc,
        b"HTTP/1.1 400 Bad Request\r\nConnection: close\r\nContent-Length: 0\r\n\r\n",
    )
}
