//! Channel servers: calls that wait for their channel, answers, events, and what is refused.
ghost use Rattle.std.specs.Prelude.{◌≡◌, true, IfOk};
ghost use Rattle.ra_values.specs.Spelling.{Fits, levels};
ghost use Rattle.ra_values.specs.View.{tree};
ghost use Rattle.ra_ipc.specs.View.{message};
ghost use Rattle.ra_ipc.specs.Messages.{is_request};
ghost use Rattle.ra_ipc.specs.Packets.{MessageFits};

use crate::fixtures::short;
use ra_chan_server::{Call, ChannelServer, Fire, ServerFault};
use ra_ipc::{Answer, Packet, decode};
use ra_values::{NoMemory, Value};
use std::alloc::Global;
use std::test::*;

/// The error of a call on the channel `x`, which did not come.
const UNKNOWN: &str =
    "{\"message\":\"Channel name 'x' timed out after 1000ms\",\"name\":\"Unknown channel\"}";

const CALL_0: &[u8] = b"\x04\x04\x06\x64\x06\x00\x01\x01x\x01\x04echo\x00";

const CALL_1: &[u8] = b"\x04\x04\x06\x64\x06\x01\x01\x01x\x01\x04echo\x00";

const CALL_3: &[u8] = b"\x04\x04\x06\x64\x06\x03\x01\x01x\x01\x04echo\x00";

const CANCEL_0: &[u8] = b"\x04\x02\x06\x65\x06\x00\x00";

const LISTEN_1: &[u8] = b"\x04\x04\x06\x66\x06\x01\x01\x01x\x01\x04said\x00";

const LISTEN_2: &[u8] = b"\x04\x04\x06\x66\x06\x02\x01\x01x\x01\x04said\x00";

const DISPOSE_1: &[u8] = b"\x04\x02\x06\x67\x06\x01\x00";

/// What is done to a server, and what is to come of it.
enum Act {
    /// It hears these bytes at moment 0: the call that is handed out.
    Hear(&'static [u8], Option<i32>),
    /// It refuses them, since this id is active.
    Refuse(&'static [u8], i32),
    /// The channel `x` comes: the calls that are handed out then, and whether each is cancelled.
    Register(&'static [(i32, bool)]),
    /// The call is answered.
    Complete(i32),
    /// The answer is refused, since there is no such call.
    Unasked(i32),
    /// The event `said` is fired: those who hear it, in order.
    Fire(&'static [i32]),
    /// Whether a call has waited too long at this moment.
    Late(u64, bool),
    /// A tick at this moment: the calls that are answered by the error of an unknown channel, in order.
    Tick(u64, &'static [i32]),
}

fn take(server: &mut ChannelServer, packet: Packet) -> Result<Option<i32>, ServerFault>
    requires request { is_request (message packet) ≡ true }
    requires fits { MessageFits (message packet) }
{
    match server.on_packet(packet, 0) {
        Ok(Some(call)) => Ok(Some(call.id)),
        Ok(None) => Ok(None),
        Err(fault) => Err(fault),
    }
}

/// The server hears the packet that these bytes are: the id of the call that is handed out.
fn hear(
    alloc: Global,
    server: &mut ChannelServer,
    bytes: &[u8],
) -> Result<Option<i32>, ServerFault> {
    match decode(alloc, bytes) {
        Ok(packet) => {
            if packet.is_request() {
                take(server, packet)
            } else {
                Err(ServerFault::NoMemory)
            }
        }
        Err(_) => Err(ServerFault::NoMemory),
    }
}

fn are_calls(calls: &[Call], expected: &[(i32, bool)]) -> bool {
    let same = |(call, row): (&Call, &(i32, bool))| call.id == row.0 && call.cancelled == row.1;
    calls.len() == expected.len() && calls.iter().zip(expected.iter()).all(same)
}

fn registers(
    alloc: Global,
    server: &mut ChannelServer,
    expected: &[(i32, bool)],
) -> Result<bool, NoMemory> {
    let channel = short(alloc, "x")?;
    let calls = server.register(alloc, &channel)?;
    Ok(are_calls(calls.as_slice(), expected))
}

fn complete(server: &mut ChannelServer, id: i32) -> Result<bool, ServerFault> {
    let body = Value::Undefined;
    match server.complete(id, Answer::Success { body }) {
        Ok(Packet::PromiseSuccess { id: answered, .. }) => Ok(answered == id),
        Ok(_) => Ok(false),
        Err(fault) => Err(fault),
    }
}

fn is_event(packet: &Packet, wanted: i32) -> bool {
    matches!(packet, Packet::EventFire { id, .. } if *id == wanted)
}

fn is_unknown(packet: &Packet, wanted: i32) -> bool {
    matches!(packet, Packet::PromiseError { id, body: Value::Object { json } } if *id == wanted && json.as_str() == UNKNOWN)
}

fn are_events(packets: &[Packet], ids: &[i32]) -> bool {
    let same = |(packet, id): (&Packet, &i32)| is_event(packet, *id);
    packets.len() == ids.len() && packets.iter().zip(ids.iter()).all(same)
}

fn are_unknown(packets: &[Packet], ids: &[i32]) -> bool {
    let same = |(packet, id): (&Packet, &i32)| is_unknown(packet, *id);
    packets.len() == ids.len() && packets.iter().zip(ids.iter()).all(same)
}

/// The event `said` without a body.
fn said(alloc: Global) -> Result<Fire, NoMemory>
    ensures { IfOk result (λ fire. Fits levels (tree fire.body)) }
{
    let channel = short(alloc, "x")?;
    let event = short(alloc, "said")?;
    let body = Value::Undefined;
    Ok(Fire {
        channel,
        event,
        body,
    })
}

fn fires(alloc: Global, server: &ChannelServer, ids: &[i32]) -> Result<bool, NoMemory> {
    let fire = said(alloc)?;
    let packets = server.fire(alloc, &fire)?;
    Ok(are_events(packets.as_slice(), ids))
}

fn ticks(
    alloc: Global,
    server: &mut ChannelServer,
    now: u64,
    ids: &[i32],
) -> Result<bool, NoMemory> {
    let packets = server.tick(alloc, now)?;
    Ok(are_unknown(packets.as_slice(), ids))
}

/// Whether an act comes to what it says.
fn is_met(alloc: Global, server: &mut ChannelServer, act: &Act) -> bool {
    match act {
        Act::Hear(bytes, call) => hear(alloc, server, bytes) == Ok(*call),
        Act::Refuse(bytes, id) => {
            hear(alloc, server, bytes) == Err(ServerFault::ActiveId { id: *id })
        }
        Act::Register(calls) => registers(alloc, server, calls) == Ok(true),
        Act::Complete(id) => complete(server, *id) == Ok(true),
        Act::Unasked(id) => complete(server, *id) == Err(ServerFault::NoSuchCall { id: *id }),
        Act::Fire(ids) => fires(alloc, server, ids) == Ok(true),
        Act::Late(now, late) => server.has_late(*now) == *late,
        Act::Tick(now, ids) => ticks(alloc, server, *now, ids) == Ok(true),
    }
}

/// The first act that comes to something else than it says.
fn first_other(alloc: Global, server: &mut ChannelServer, acts: &[Act]) -> Option<usize> {
    for (at, act) in acts.iter().enumerate() {
        if !is_met(alloc, server, act) {
            return Some(at);
        }
    }
    None
}

/// The same, at a new server.
fn at_new(alloc: Global, acts: &[Act]) -> Option<usize> {
    let mut server = ChannelServer::new(alloc);
    first_other(alloc, &mut server, acts)
}

const WAITS: &[Act] = &[
    Act::Hear(CALL_0, None),
    Act::Late(999, false),
    Act::Tick(999, &[]),
    Act::Late(1000, true),
    Act::Tick(1000, &[0]),
    Act::Tick(1000, &[]),
];

#[test]
fn a_call_waits_a_second_for_its_channel(rt: HostRuntime) {
    assert!(rt; at_new(rt.alloc(), WAITS) == None);
}

const ACTIVE: &[Act] = &[
    Act::Register(&[]),
    Act::Hear(CALL_3, Some(3)),
    Act::Refuse(CALL_3, 3),
    Act::Complete(3),
    Act::Unasked(3),
];

#[test]
fn an_active_id_is_refused(rt: HostRuntime) {
    assert!(rt; at_new(rt.alloc(), ACTIVE) == None);
}

const WAITED: &[Act] = &[
    Act::Hear(CALL_3, None),
    Act::Hear(CALL_0, None),
    Act::Hear(CANCEL_0, None),
    Act::Register(&[(3, false), (0, true)]),
    Act::Register(&[]),
    Act::Complete(0),
];

#[test]
fn calls_that_waited_are_handed_out_in_order(rt: HostRuntime) {
    assert!(rt; at_new(rt.alloc(), WAITED) == None);
}

const LISTENERS: &[Act] = &[
    Act::Hear(LISTEN_2, None),
    Act::Register(&[]),
    Act::Hear(LISTEN_1, None),
    Act::Fire(&[2, 1]),
    Act::Hear(DISPOSE_1, None),
    Act::Fire(&[2]),
];

#[test]
fn an_event_reaches_those_who_listen_in_order(rt: HostRuntime) {
    assert!(rt; at_new(rt.alloc(), LISTENERS) == None);
}

const FORGOTTEN: &[Act] = &[
    Act::Hear(LISTEN_1, None),
    Act::Tick(1000, &[]),
    Act::Register(&[]),
    Act::Fire(&[]),
    Act::Hear(CALL_1, Some(1)),
];

#[test]
fn a_listen_that_waited_too_long_is_forgotten(rt: HostRuntime) {
    assert!(rt; at_new(rt.alloc(), FORGOTTEN) == None);
}

const BOTH: &[Act] = &[
    Act::Register(&[]),
    Act::Hear(CALL_0, Some(0)),
    Act::Hear(LISTEN_1, None),
];

const COPY: &[Act] = &[Act::Complete(0), Act::Fire(&[1])];

const FIRST: &[Act] = &[Act::Complete(0)];

/// Where a copy of the server comes to something else.
fn copy_other(alloc: Global, server: &ChannelServer) -> Option<usize> {
    match server.copy(alloc) {
        Ok(mut copy) => first_other(alloc, &mut copy, COPY),
        Err(_) => Some(COPY.len()),
    }
}

#[test]
fn a_copy_goes_on_alone(rt: HostRuntime) {
    let mut server = ChannelServer::new(rt.alloc());
    assert!(rt; first_other(rt.alloc(), &mut server, BOTH) == None);
    assert!(rt; copy_other(rt.alloc(), &server) == None);
    assert!(rt; first_other(rt.alloc(), &mut server, FIRST) == None);
}
