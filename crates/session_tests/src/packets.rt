//! Packets: those that come back as they were, and the first fault of bytes that are none.
ghost use Rattle.ra_ipc.specs.View.{message};
ghost use Rattle.ra_ipc.specs.Packets.{MessageFits};

use ra_ipc::{Answer, Packet, PacketFault, decode, decode_context, encode, laws};
use ra_values::{NoMemory, Text, Value, Wrong};
use std::alloc::Global;
use std::test::*;

fn is_refused(alloc: Global, bytes: &[u8], fault: PacketFault) -> bool {
    decode(alloc, bytes).err() == Some(fault)
}

#[test]
fn wrong_headers_and_bodies(rt: HostRuntime) {
    assert!(rt;
        is_refused(
            rt.alloc(),
            &[4, 1, 6, 0x64, 0],
            PacketFault::BadHeader { at: 1 }
        )
    );
    assert!(rt; is_refused(rt.alloc(), &[6, 0x64], PacketFault::BadHeader { at: 0 }));
    assert!(rt;
        is_refused(
            rt.alloc(),
            &[4, 1, 6, 0xc8, 1, 0, 0],
            PacketFault::Trailing { at: 6 }
        )
    );
    assert!(rt; is_refused(rt.alloc(), &[4, 1, 6, 0xc8, 1, 6, 5], PacketFault::BadBody));
}

/// A body that ends too early: the place counts from the front of the message.
#[test]
fn a_wrong_body_value(rt: HostRuntime) {
    let short = PacketFault::Value {
        at: 8,
        what: Wrong::Short,
    };
    assert!(rt; is_refused(rt.alloc(), &[4, 1, 6, 0xc8, 1, 1, 5, 0x61], short));
}

/// The packet is written as these bytes again.
fn is_written_as(alloc: Global, packet: Packet, bytes: &[u8]) -> bool
    requires { MessageFits (message packet) }
{
    let mut out = Vec::new(alloc);
    encode(alloc, &packet, &mut out).is_ok() && out.as_slice() == bytes
}

/// Whether the bytes are a packet that is written again as these bytes.
fn comes_back(alloc: Global, bytes: &[u8]) -> bool {
    match decode(alloc, bytes) {
        Ok(packet) => is_written_as(alloc, packet, bytes),
        Err(_) => false,
    }
}

/// A packet of each kind, and answers and events with several bodies.
const PACKETS: [&[u8]; 10] = [
    b"\x04\x01\x06\xc8\x01\x00",
    b"\x04\x04\x06\x64\x06\x00\x01\x05tools\x01\x04echo\x01\x02hi",
    b"\x04\x02\x06\xc9\x01\x06\x00\x01\x02hi",
    b"\x04\x04\x06\x66\x06\x01\x01\x05tools\x01\x04said\x00",
    b"\x04\x02\x06\xc9\x01\x06\x02\x06\x02",
    b"\x04\x02\x06\xcc\x01\x06\x01\x01\x02hi",
    b"\x04\x02\x06\x67\x06\x01\x00",
    b"\x04\x02\x06\x65\x06\x00\x00",
    b"\x04\x02\x06\xca\x01\x06\x00\x05\x02{}",
    b"\x04\x02\x06\xcb\x01\x06\x00\x00",
];

#[test]
fn packets_come_back(rt: HostRuntime) {
    for (at, bytes) in PACKETS.iter().enumerate() {
        assert!(rt; comes_back(rt.alloc(), bytes), "packet {at}");
    }
}

fn is_text(value: &Value, wanted: &str) -> bool {
    matches!(value, Value::Text { text } if text.as_str() == wanted)
}

fn is_echo(packet: &Packet) -> bool {
    let Packet::Promise {
        id,
        channel,
        name,
        arg,
    } = packet
    else {
        return false;
    };
    let named = channel.as_str() == "tools" && name.as_str() == "echo";
    *id == 7 && named && is_text(arg, "hi")
}

/// Whether the packet is a request, and the call 7 of `echo`.
fn is_request(packet: Packet) -> bool {
    packet.is_request() && is_echo(&packet)
}

/// Whether a copy of the packet that the bytes are is such a call.
fn is_call(alloc: Global, bytes: &[u8]) -> bool {
    match decode(alloc, bytes) {
        Ok(packet) => packet.copy(alloc).is_ok_and(is_request),
        Err(_) => false,
    }
}

#[test]
fn a_call_has_its_parts(rt: HostRuntime) {
    let bytes = b"\x04\x04\x06\x64\x06\x07\x01\x05tools\x01\x04echo\x01\x02hi";
    assert!(rt; is_call(rt.alloc(), bytes));
}

fn is_window(alloc: Global, bytes: &[u8]) -> bool {
    match decode_context(alloc, bytes) {
        Ok(context) => is_text(&context, "window"),
        Err(_) => false,
    }
}

#[test]
fn a_context_is_one_value(rt: HostRuntime) {
    assert!(rt; is_window(rt.alloc(), b"\x01\x06window"));
    let more = decode_context(rt.alloc(), &[0, 0]).err();
    assert!(rt; more == Some(PacketFault::Trailing { at: 1 }));
}

/// Whether an answer of `hi` is copied as a success.
fn answer_is_copied(alloc: Global) -> Result<bool, NoMemory> {
    let text = Text::of(alloc, "hi")?;
    let body = Value::Text { text };
    let copy = Answer::Success { body }.copy(alloc)?;
    Ok(matches!(&copy, Answer::Success { .. }))
}

#[test]
fn an_answer_is_copied(rt: HostRuntime) -> Result<(), Fail> {
    assert!(rt; answer_is_copied(rt.alloc())?);
    laws::one_spelling();
    Ok(())
}
