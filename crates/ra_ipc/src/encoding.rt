//! Packets as bytes.
ghost use Rattle.std.specs.Prelude.{◌≡◌, ◌++◌, IfOk, OnOk, OnErr};
ghost use Rattle.ra_values.specs.Tree.{array, int, text, more, undefined};
ghost use Rattle.ra_values.specs.View.{tree};
ghost use Rattle.ra_values.specs.Spelling.{Fits, levels};
ghost use Rattle.ra_values.specs.ValueBytes.{value_bytes};
ghost use Rattle.ra_ipc.specs.View.{message, id_of};
ghost use Rattle.ra_ipc.specs.Packets.{header, body, single, MessageFits, message_bytes};

use crate::packet::Packet;
use ra_values::{NoMemory, Text, Value, append};
use sqlite_items::Items;
use std::alloc::Global;

/// The value `[code, id, channel, name]`.
fn with_target(
    alloc: Global,
    code: i32,
    id: i32,
    channel: &Text,
    name: &Text,
) -> Result<Value, NoMemory>
    ensures { IfOk result (λ v. tree v ≡ array (more (int (id_of code)) (more (int (id_of id)) (more (text channel.now) (single (text name.now)))))) }
{
    let mut items = Items::new(alloc);
    items.push(Value::Int { n: code })?;
    items.push(Value::Int { n: id })?;
    let channel = Text::of(alloc, channel.as_str())?;
    items.push(Value::Text { text: channel })?;
    let name = Text::of(alloc, name.as_str())?;
    items.push(Value::Text { text: name })?;
    Ok(Value::Array { items })
}

/// The value `[code, id]`.
fn with_id(alloc: Global, code: i32, id: i32) -> Result<Value, NoMemory>
    ensures { IfOk result (λ v. tree v ≡ array (more (int (id_of code)) (single (int (id_of id))))) }
{
    let mut items = Items::new(alloc);
    items.push(Value::Int { n: code })?;
    items.push(Value::Int { n: id })?;
    Ok(Value::Array { items })
}

/// The value `[code]`.
fn with_code(alloc: Global, code: i32) -> Result<Value, NoMemory>
    ensures { IfOk result (λ v. tree v ≡ array (single (int (id_of code)))) }
{
    let mut items = Items::new(alloc);
    items.push(Value::Int { n: code })?;
    Ok(Value::Array { items })
}

fn header_of(alloc: Global, packet: &Packet) -> Result<Value, NoMemory>
    ensures { IfOk result (λ v. tree v ≡ header (message packet.now)) }
{
    match packet {
        Packet::Promise {
            id,
            channel,
            name,
            ..
        } => Ok(with_target(alloc, 100, *id, channel, name)?),
        Packet::PromiseCancel { id } => Ok(with_id(alloc, 101, *id)?),
        Packet::EventListen {
            id,
            channel,
            name,
            ..
        } => Ok(with_target(alloc, 102, *id, channel, name)?),
        Packet::EventDispose { id } => Ok(with_id(alloc, 103, *id)?),
        Packet::Initialize => Ok(with_code(alloc, 200)?),
        Packet::PromiseSuccess { id, .. } => Ok(with_id(alloc, 201, *id)?),
        Packet::PromiseError { id, .. } => Ok(with_id(alloc, 202, *id)?),
        Packet::PromiseErrorObj { id, .. } => Ok(with_id(alloc, 203, *id)?),
        Packet::EventFire { id, .. } => Ok(with_id(alloc, 204, *id)?),
    }
}

fn body_of<'a>(packet: &'a Packet, none: &'a Value) -> &'a Value
    requires { tree none.now ≡ undefined }
    ensures { tree result.now ≡ body (message packet.now) }
{
    match packet {
        Packet::Promise { arg, .. } | Packet::EventListen { arg, .. } => arg,
        Packet::PromiseSuccess { body, .. }
        | Packet::PromiseError { body, .. }
        | Packet::PromiseErrorObj { body, .. }
        | Packet::EventFire { body, .. } => body,
        Packet::PromiseCancel { .. } | Packet::EventDispose { .. } | Packet::Initialize => none,
    }
}

/// Writes both values behind what is there, or nothing where memory runs out.
fn append_both(header: &Value, body: &Value, to: &mut Vec<u8>) -> Result<(), NoMemory>
    requires header { Fits levels (tree header.now) }
    requires body { Fits levels (tree body.now) }
    ensures ok { OnOk result (to.new.items ≡ to.old.items ++ (value_bytes (tree header.now) ++ value_bytes (tree body.now))) }
    ensures err { OnErr result (to.new.items ≡ to.old.items) }
{
    let before = to.len();
    append(header, to)?;
    match append(body, to) {
        Ok(()) => Ok(()),
        Err(fault) => {
            to.truncate(before);
            Err(fault)
        }
    }
}

/// Writes the spelling of the packet behind what is there. It needs an id of 0 or more and values that fit. Where memory runs
/// out nothing is written.
#[tactic(auto, unfolding(crate::specs::Packets::message_bytes))]
pub fn encode(alloc: Global, packet: &Packet, to: &mut Vec<u8>) -> Result<(), NoMemory>
    requires { MessageFits (message packet.now) }
    ensures ok { OnOk result (to.new.items ≡ to.old.items ++ message_bytes (message packet.now)) }
    ensures err { OnErr result (to.new.items ≡ to.old.items) }
{
    let none = Value::Undefined;
    let header = header_of(alloc, packet)?;
    append_both(&header, body_of(packet, &none), to)
}
