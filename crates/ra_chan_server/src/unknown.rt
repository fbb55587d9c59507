//! The answer to a call whose channel did not come.
ghost use Rattle.std.specs.Prelude.{◌≡◌, ◌<◌, ◌^◌, ◌++◌, codes, IsUtf8, IfOk, string_bytes};
ghost use Rattle.ra_values.specs.View.{tree};
ghost use Rattle.ra_values.specs.Tree.{object};
ghost use Rattle.json.specs.Print.{escape};
ghost use Rattle.ra_ipc.specs.Messages.{response};
ghost use Rattle.ra_ipc.specs.Packets.{MessageFits};
ghost use Rattle.ra_ipc.specs.ChannelServers.{shown_name, unknown_channel};
ghost use Rattle.ra_ipc.specs.View.{message, id_of};

use json::Writer;
use ra_ipc::Packet;
use ra_values::{NoMemory, Text, Value};
use std::alloc::Global;

/// The longest channel that is told, in bytes.
const TOLD: usize = 65_536;

/// The channel as it is told.
fn shown(channel: &Text) -> &str
    ensures { result.now ≡ shown_name channel.now }
{
    if channel.as_str().len() > TOLD {
        ""
    } else {
        channel.as_str()
    }
}

/// The JSON text of the error with this message.
fn error_text(alloc: Global, message: &str) -> Result<Vec<u8>, NoMemory>
    ensures text { IfOk result (λ text. text.items ≡ codes "{\"message\":\"" ++ (escape message.now ++ codes "\",\"name\":\"Unknown channel\"}")) }
    ensures utf8 { IfOk result (λ text. IsUtf8 text.items) }
{
    let mut writer = Writer::new(Vec::new(alloc));
    writer.begin_object()?;
    writer.key("message")?;
    writer.string(message)?;
    writer.key("name")?;
    writer.string("Unknown channel")?;
    writer.end_object()?;
    Ok(writer.into_inner())
}

/// The text of these bytes, which are UTF-8.
fn text(alloc: Global, bytes: &[u8]) -> Result<Text, NoMemory>
    requires { IsUtf8 bytes.now }
    ensures { IfOk result (λ t. t ≡ bytes.now) }
{
    Text::of(alloc, str::from_utf8(bytes).unwrap())
}

/// What the error of an unknown channel says.
fn said(alloc: Global, channel: &Text) -> Result<String, NoMemory>
    ensures { IfOk result (λ s. string_bytes s ≡ codes "Channel name '" ++ (shown_name channel.now ++ codes "' timed out after 1000ms")) }
{
    let shown = shown(channel);
    Ok(format!(in alloc; "Channel name '{shown}' timed out after 1000ms")?)
}

/// The JSON text of the error of an unknown channel.
fn error(alloc: Global, channel: &Text) -> Result<Text, NoMemory>
    ensures text { IfOk result (λ t. t ≡ codes "{\"message\":\"Channel name '" ++ (escape (shown_name channel.now) ++ codes "' timed out after 1000ms\",\"name\":\"Unknown channel\"}")) }
    ensures utf8 { IfOk result IsUtf8 }
{
    let said = said(alloc, channel)?;
    let bytes = error_text(alloc, said.as_str())?;
    let text = text(alloc, bytes.as_slice())?;
    Ok(text)
}

/// The answer to the call with this id on a channel that did not come.
pub fn answer(alloc: Global, id: i32, channel: &Text) -> Result<Packet, NoMemory>
    requires { id_of id < 2 ^ 31 }
    ensures packet { IfOk result (λ p. message p ≡ response (id_of id) (unknown_channel channel.now)) }
    ensures fits { IfOk result (λ p. MessageFits (message p)) }
{
    let json = error(alloc, channel)?;
    Ok(Packet::PromiseError {
        id,
        body: Value::Object { json },
    })
}
