//! Packets from bytes, with the first fault.
ghost use Rattle.std.specs.Prelude.{◌≡◌, ◌≢◌, ◌+◌, ◌≤◌, ◌<◌, ◌^◌, if◌then◌else◌, List, ℕ, length, drop, take, true, false, IfOk, IfErr, MatchBool, MatchResult};
ghost use Rattle.ra_values.specs.View.{tree};
ghost use Rattle.ra_values.specs.Spelling.{Spells, Fits, levels};
ghost use Rattle.ra_values.specs.ReadValue.{value_at};
ghost use Rattle.ra_ipc.specs.Messages.{Message};
ghost use Rattle.ra_ipc.specs.View.{message};
ghost use Rattle.ra_ipc.specs.Packets.{header, body, id_fits, SpellsMessage, MessageFits};
ghost use Rattle.ra_ipc.specs.Heads.{head_message, refuses_body, head_with_body};
ghost use Rattle.ra_ipc.specs.ReadMessage.{Reads, value_in, after_header, message_at, context_at, is_undefined};

use crate::fault::PacketFault;
use crate::header::{Head, Target, head_of};
use crate::packet::Packet;
use ra_values::{ReadFault, Text, Value, read};
use std::alloc::Global;

fn is_undefined(value: &Value) -> bool
    ensures { result ≡ is_undefined (tree value.now) }
{
    matches!(value, Value::Undefined)
}

fn promise(alloc: Global, target: &Target<'_>, arg: Value) -> Result<Packet, PacketFault>
    ensures { MatchResult result (λ p. message p ≡ head_message (Head.Promise target.now) (tree arg)) (λ e. e ≡ PacketFault.NoMemory) }
{
    let channel = Text::of(alloc, target.channel.as_str())?;
    let name = Text::of(alloc, target.name.as_str())?;
    Ok(Packet::Promise {
        id: target.id,
        channel,
        name,
        arg,
    })
}

fn listen(alloc: Global, target: &Target<'_>, arg: Value) -> Result<Packet, PacketFault>
    ensures { MatchResult result (λ p. message p ≡ head_message (Head.Listen target.now) (tree arg)) (λ e. e ≡ PacketFault.NoMemory) }
{
    let channel = Text::of(alloc, target.channel.as_str())?;
    let name = Text::of(alloc, target.name.as_str())?;
    Ok(Packet::EventListen {
        id: target.id,
        channel,
        name,
        arg,
    })
}

/// The packet, whose body is to be undefined.
fn without_body(packet: Packet, body: &Value) -> Result<Packet, PacketFault>
    ensures { MatchResult result (λ p. (p ≡ packet) × (is_undefined (tree body.now) ≡ true)) (λ e. (e ≡ PacketFault.BadBody) × (is_undefined (tree body.now) ≡ false)) }
{
    if is_undefined(body) {
        Ok(packet)
    } else {
        Err(PacketFault::BadBody)
    }
}

/// The packet with this header and this body.
fn packet_of(alloc: Global, head: &Head<'_>, body: Value) -> Result<Packet, PacketFault>
    ensures { Reads message result (head_with_body head.now (tree body)) }
{
    match head {
        Head::Promise(target) => promise(alloc, target, body),
        Head::Listen(target) => listen(alloc, target, body),
        Head::Cancel(id) => without_body(Packet::PromiseCancel { id: *id }, &body),
        Head::Dispose(id) => without_body(Packet::EventDispose { id: *id }, &body),
        Head::Initialize => without_body(Packet::Initialize, &body),
        Head::Success(id) => Ok(Packet::PromiseSuccess { id: *id, body }),
        Head::Error(id) => Ok(Packet::PromiseError { id: *id, body }),
        Head::ErrorObj(id) => Ok(Packet::PromiseErrorObj { id: *id, body }),
        Head::Fire(id) => Ok(Packet::EventFire { id: *id, body }),
    }
}

/// The value that begins these bytes, which stand behind so many others, and its length.
fn value_from(alloc: Global, before: usize, bytes: &[u8]) -> Result<(Value, usize), PacketFault>
    requires { before + length bytes.now < 2 ^ 64 }
    ensures within { IfOk result (λ x. x.1 ≤ length bytes.now) }
    ensures found { IfOk result (λ x. Spells levels (tree x.0) (take x.1 bytes.now)) }
    ensures reads { (all : List ℕ) → length all ≡ before + length bytes.now → Reads (λ x. (tree x.0, drop x.1 bytes.now)) result (value_in all (value_at levels bytes.now)) }
{
    match read(alloc, bytes) {
        Ok(found) => Ok(found),
        Err(ReadFault::Bad { at, what }) => Err(PacketFault::Value {
            at: before + at,
            what,
        }),
        Err(ReadFault::NoMemory) => Err(PacketFault::NoMemory),
    }
}

/// Whether the body is to be undefined, and is not.
fn refuses_body(head: &Head<'_>, body: &Value) -> bool
    ensures { result ≡ refuses_body head.now (tree body.now) }
{
    match head {
        Head::Cancel(_) | Head::Dispose(_) | Head::Initialize => !is_undefined(body),
        Head::Promise(_)
        | Head::Listen(_)
        | Head::Success(_)
        | Head::Error(_)
        | Head::ErrorObj(_)
        | Head::Fire(_) => false,
    }
}

/// The fault where bytes follow the body, the first of them at this place.
fn trailing(head: &Head<'_>, body: &Value, at: usize) -> PacketFault
    ensures { result ≡ (if refuses_body head.now (tree body.now) then PacketFault.BadBody else PacketFault.Trailing at) }
{
    if refuses_body(head, body) {
        PacketFault::BadBody
    } else {
        PacketFault::Trailing { at }
    }
}

/// The packet with this header, which takes so many bytes, and these bytes behind it.
fn packet_behind(
    alloc: Global,
    header_value: &Value,
    len: usize,
    rest: &[u8],
) -> Result<Packet, PacketFault>
    requires { len + length rest.now < 2 ^ 64 }
    ensures found { IfOk result (λ p. id_fits (message p) × (tree header_value.now ≡ header (message p)) × Spells levels (body (message p)) rest.now) }
    ensures reads { (all : List ℕ) → length all ≡ len + length rest.now → Reads message result (after_header all (tree header_value.now) rest.now) }
{
    let head = match head_of(header_value) {
        Ok(head) => head,
        Err(at) => return Err(PacketFault::BadHeader { at }),
    };
    let (body, read) = value_from(alloc, len, rest)?;
    if read < rest.len() {
        return Err(trailing(&head, &body, len + read));
    }
    packet_of(alloc, &head, body)
}

/// The packet that these bytes are, all of them, or the first fault.
fn decoded(alloc: Global, bytes: &[u8]) -> Result<Packet, PacketFault>
    ensures found { IfOk result (λ p. SpellsMessage (message p) bytes.now) }
    ensures reads { Reads message result (message_at bytes.now) }
{
    let (header, len) = value_from(alloc, 0, bytes)?;
    let (_front, rest) = bytes.split_at(len);
    packet_behind(alloc, &header, len, rest)
}

/// The packet that these bytes are, all of them, or the first fault.
pub fn decode(alloc: Global, bytes: &[u8]) -> Result<Packet, PacketFault>
    // what is read is spelled so
    ensures found { IfOk result (λ p. SpellsMessage (message p) bytes.now) }
    ensures fits { IfOk result (λ p. MessageFits (message p)) }
    // where the bytes are a spelling, memory alone may be wanting
    ensures only { (m : Message) → SpellsMessage m bytes.now → IfErr result (λ fault. fault ≡ PacketFault.NoMemory) }
    // it is what reading gives, or the first fault
    ensures answer { Reads message result (message_at bytes.now) }
{
    decoded(alloc, bytes)
}

/// The one value that these bytes are, all of them, or the first fault: that of the value, or that bytes follow it.
pub fn decode_context(alloc: Global, bytes: &[u8]) -> Result<Value, PacketFault>
    // what is read is spelled so
    ensures found { IfOk result (λ v. Spells levels (tree v) bytes.now) }
    ensures fits { IfOk result (λ v. Fits levels (tree v)) }
    // it is what reading gives, or the first fault
    ensures answer { Reads tree result (context_at bytes.now) }
{
    let (value, len) = value_from(alloc, 0, bytes)?;
    if len < bytes.len() {
        return Err(PacketFault::Trailing { at: len });
    }
    Ok(value)
}
