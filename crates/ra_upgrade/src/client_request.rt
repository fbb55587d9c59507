//! The upgrade request that the client writes.
ghost use Rattle.std.specs.Prelude.{◌≡◌, IfOk, string_bytes};
ghost use Rattle.ra_upgrade.specs.RequestTexts as spec;

use base64::engine::general_purpose::STANDARD;
use form_urlencoded::Serializer;
use ra_base::{Message, NoMemory, Token};
use std::alloc::{AllocError, Global};

fn bool_text(value: bool) -> &'static str
    ensures { result.now ≡ spec.bool_text value }
{
    if value { "true" } else { "false" }
}

#[tactic(auto, unfolding(crate::specs::RequestTexts::query_text))]
fn query_text(
    alloc: Global,
    token: &Token,
    reconnection: bool,
    skip_frames: bool,
) -> Result<String, AllocError>
    ensures { IfOk result (λ text. string_bytes text ≡ spec.query_text token.now reconnection skip_frames) }
{
    let mut query = Serializer::new(String::new(alloc));
    query.append_pair("reconnectionToken", token.as_text())?;
    query.append_pair("reconnection", bool_text(reconnection))?;
    query.append_pair("skipWebSocketFrames", bool_text(skip_frames))?;
    Ok(query.finish())
}

/// The text of a client's key, as `Sec-WebSocket-Key` has it.
#[tactic(auto, unfolding(crate::specs::RequestTexts::key_text))]
pub(crate) fn key_text(alloc: Global, key: &[u8; 16]) -> Result<String, AllocError>
    ensures { IfOk result (λ text. string_bytes text ≡ spec.key_text key.now) }
{
    STANDARD.encode(alloc, key)
}

/// The lines of the request, around its query and the text of its key.
fn lines(alloc: Global, query: &str, host: &str, key: &str) -> Result<String, AllocError>
    ensures { IfOk result (λ text. string_bytes text ≡ spec.lines_of host.now query.now key.now) }
{
    let mut text = String::from_str(alloc, "GET /?")?;
    text.push_str(query)?;
    text.push_str(" HTTP/1.1\r\nHost: ")?;
    text.push_str(host)?;
    text.push_str(
        "\r\nConnection: Upgrade\r\nUpgrade: websocket\r\nSec-WebSocket-Version: 13\r\nSec-WebSocket-Key: ",
    )?;
    text.push_str(key)?;
    text.push_str("\r\n\r\n")?;
    Ok(text)
}

/// The client's upgrade request (RFC 6455, section 4.1). The host is written as it is given, line ends too: `laws::request_is_read`
/// says for which hosts the server reads the request as that.
#[tactic(auto, unfolding(crate::specs::RequestTexts::request_text))]
pub fn request(
    alloc: Global,
    host: &str,
    token: &Token,
    reconnection: bool,
    skip_frames: bool,
    key: [u8; 16],
) -> Result<Message, NoMemory>
    ensures { IfOk result (λ text. text ≡ spec.request_text host.now token.now reconnection skip_frames key) }
{
    let query = query_text(alloc, token, reconnection, skip_frames)?;
    let key = key_text(alloc, &key)?;
    let text = lines(alloc, query.as_str(), host, key.as_str())?;
    Ok(Message::from_vec(text.into_bytes()))
}
