//! Channel clients: calls and listens before and behind the server's first word, their ends, and what is taken back.
ghost use Rattle.std.specs.Prelude.{◌<◌, IfOk};

use crate::fixtures::short;
use ra_chan_client::{ChannelClient, ClientFault, Heard};
use ra_ipc::{Answer, Packet};
use ra_values::Value;
use std::alloc::Global;
use std::test::*;

/// What is done to a client.
enum Act {
    /// `echo` of the channel `tools` is called.
    Echo,
    /// A listener to `said` of the channel `tools` begins.
    Listen,
    /// The same, and it is taken back.
    EchoInVain,
    ListenInVain,
    Cancel(i32),
    Dispose(i32),
    /// The client hears Initialize, the answer to this call, or an event for this listener.
    Initialize,
    Answer(i32),
    Fire(i32),
}

/// A packet that goes out, and its id.
const SENT: u8 = b'+';

/// None that goes out yet.
const WAITS: u8 = b'-';

/// The id of a request, and whether its packet goes out.
fn issued(id: i32, packet: &Option<Packet>) -> (u8, i32) {
    (if packet.is_some() { SENT } else { WAITS }, id)
}

fn echo(alloc: Global, client: &mut ChannelClient) -> Result<(u8, i32), ClientFault>
    ensures { IfOk result (λ _. 0 < client.new.next) }
{
    let channel = short(alloc, "tools")?;
    let name = short(alloc, "echo")?;
    let request = client.call(channel, name, Value::Undefined)?;
    Ok(issued(request.id, &request.packet))
}

fn listen(alloc: Global, client: &mut ChannelClient) -> Result<(u8, i32), ClientFault>
    ensures { IfOk result (λ _. 0 < client.new.next) }
{
    let channel = short(alloc, "tools")?;
    let event = short(alloc, "said")?;
    let request = client.listen(channel, event, Value::Undefined)?;
    Ok(issued(request.id, &request.packet))
}

fn echo_in_vain(alloc: Global, client: &mut ChannelClient) -> Result<(u8, i32), ClientFault> {
    let seen = echo(alloc, client)?;
    client.take_back();
    Ok(seen)
}

fn listen_in_vain(alloc: Global, client: &mut ChannelClient) -> Result<(u8, i32), ClientFault> {
    let seen = listen(alloc, client)?;
    client.take_back();
    Ok(seen)
}

/// A cancel or a dispose that goes out: C or D.
fn ended(packet: Option<Packet>) -> (u8, i32) {
    match packet {
        Some(Packet::PromiseCancel { id }) => (b'C', id),
        Some(Packet::EventDispose { id }) => (b'D', id),
        Some(_) => (b'?', 0),
        None => (WAITS, 0),
    }
}

fn cancel(client: &mut ChannelClient, id: i32) -> Result<(u8, i32), ClientFault> {
    client.cancel(id).map(ended)
}

fn dispose(client: &mut ChannelClient, id: i32) -> Result<(u8, i32), ClientFault> {
    client.dispose(id).map(ended)
}

/// What was heard: R with the number of requests, S, E and F with the id, I.
fn heard(heard: Heard) -> (u8, i32) {
    match heard {
        Heard::Ready { packets } => (b'R', if packets.is_empty() { 0 } else { 1 }),
        Heard::Settled {
            id,
            answer: Answer::Success { .. },
        } => (b'S', id),
        Heard::Settled { id, .. } => (b'E', id),
        Heard::Fired { id, .. } => (b'F', id),
        Heard::Ignored => (b'I', 0),
    }
}

fn hear(
    alloc: Global,
    client: &mut ChannelClient,
    packet: Packet,
) -> Result<(u8, i32), ClientFault> {
    client.on_packet(alloc, packet).map(heard)
}

/// What comes of an act.
fn play(alloc: Global, client: &mut ChannelClient, act: &Act) -> Result<(u8, i32), ClientFault> {
    let body = Value::Undefined;
    match act {
        Act::Echo => echo(alloc, client),
        Act::Listen => listen(alloc, client),
        Act::EchoInVain => echo_in_vain(alloc, client),
        Act::ListenInVain => listen_in_vain(alloc, client),
        Act::Cancel(id) => cancel(client, *id),
        Act::Dispose(id) => dispose(client, *id),
        Act::Initialize => hear(alloc, client, Packet::Initialize),
        Act::Answer(id) => hear(alloc, client, Packet::PromiseSuccess { id: *id, body }),
        Act::Fire(id) => hear(alloc, client, Packet::EventFire { id: *id, body }),
    }
}

/// An act, and what comes of it: N with the id where the call is not there.
type Row = (Act, (u8, i32));

/// Whether a row comes to what it says.
fn is_met(alloc: Global, client: &mut ChannelClient, row: &Row) -> bool {
    let (act, expected) = row;
    let found = match play(alloc, client, act) {
        Ok(seen) => seen,
        Err(ClientFault::NoSuchCall { id }) => (b'N', id),
        Err(_) => (b'?', 0),
    };
    found == *expected
}

/// The first row that comes to something else than it says.
fn first_other(alloc: Global, client: &mut ChannelClient, rows: &[Row]) -> Option<usize> {
    for (at, row) in rows.iter().enumerate() {
        if !is_met(alloc, client, row) {
            return Some(at);
        }
    }
    None
}

/// The same, at a new client.
fn at_new(alloc: Global, rows: &[Row]) -> Option<usize> {
    let mut client = ChannelClient::new(alloc);
    first_other(alloc, &mut client, rows)
}

const UNSENT: &[Row] = &[
    (Act::Echo, (WAITS, 0)),
    (Act::Cancel(0), (WAITS, 0)),
    (Act::Initialize, (b'R', 0)),
];

#[test]
fn a_call_that_waits_is_cancelled_unsent(rt: HostRuntime) {
    assert!(rt; at_new(rt.alloc(), UNSENT) == None);
}

const CANCELLED: &[Row] = &[
    (Act::Initialize, (b'R', 0)),
    (Act::Echo, (SENT, 0)),
    (Act::Cancel(0), (b'C', 0)),
    (Act::Answer(0), (b'I', 0)),
    (Act::Cancel(0), (b'N', 0)),
];

#[test]
fn a_cancelled_call_stays_cancelled(rt: HostRuntime) {
    assert!(rt; at_new(rt.alloc(), CANCELLED) == None);
}

const TALKS: &[Row] = &[
    (Act::Initialize, (b'R', 0)),
    (Act::Echo, (SENT, 0)),
    (Act::Listen, (SENT, 1)),
    (Act::Answer(0), (b'S', 0)),
    (Act::Fire(1), (b'F', 1)),
];

#[test]
fn answers_and_events_are_handed_up(rt: HostRuntime) {
    assert!(rt; at_new(rt.alloc(), TALKS) == None);
}

const DISPOSED: &[Row] = &[
    (Act::Initialize, (b'R', 0)),
    (Act::Listen, (SENT, 0)),
    (Act::Dispose(0), (b'D', 0)),
    (Act::Fire(0), (b'I', 0)),
];

#[test]
fn a_listener_that_ended_hears_nothing(rt: HostRuntime) {
    assert!(rt; at_new(rt.alloc(), DISPOSED) == None);
}

const ECHO: &[Row] = &[(Act::Echo, (WAITS, 0))];

const READY: &[Row] = &[(Act::Initialize, (b'R', 1)), (Act::Initialize, (b'I', 0))];

/// Where a copy comes to something else, of a client whose call waits.
fn copy_waits(alloc: Global, client: &ChannelClient) -> Option<usize> {
    match client.copy(alloc) {
        Ok(mut copy) => first_other(alloc, &mut copy, READY),
        Err(_) => Some(READY.len()),
    }
}

#[test]
fn requests_wait_for_the_server(rt: HostRuntime) {
    let mut client = ChannelClient::new(rt.alloc());
    assert!(rt; first_other(rt.alloc(), &mut client, ECHO) == None);
    assert!(rt; copy_waits(rt.alloc(), &client) == None);
}

/// The next id, whether the ids 0 and 1 are of calls and of listeners, and whether the server has said its first word.
type State = (Option<i32>, (bool, bool), (bool, bool), bool);

fn state(client: &ChannelClient) -> State {
    let calls = (client.has_call(0), client.has_call(1));
    let listeners = (client.has_listener(0), client.has_listener(1));
    (client.next_id(), calls, listeners, client.is_ready())
}

/// Whether the rows come to what they say, and leave the client so.
fn leads_to(alloc: Global, client: &mut ChannelClient, rows: &[Row], left: State) -> bool {
    first_other(alloc, client, rows).is_none() && state(client) == left
}

const NEW: State = (Some(0), (false, false), (false, false), false);

const CALL_BACK: &[Row] = &[(Act::EchoInVain, (WAITS, 0))];

const LISTEN_BACK: &[Row] = &[(Act::Echo, (WAITS, 0)), (Act::ListenInVain, (WAITS, 1))];

const CALLED: State = (Some(1), (true, false), (false, false), false);

const LISTENS: &[Row] = &[(Act::Listen, (WAITS, 1))];

const LISTENING: State = (Some(2), (true, false), (false, true), false);

const BEGINS: &[Row] = &[(Act::Initialize, (b'R', 1))];

const BEGUN: State = (Some(2), (true, false), (false, true), true);

/// A request of either kind that is taken back leaves the others, and its id is given again.
#[test]
fn requests_are_taken_back(rt: HostRuntime) {
    let mut client = ChannelClient::new(rt.alloc());
    assert!(rt; leads_to(rt.alloc(), &mut client, &[], NEW));
    assert!(rt; leads_to(rt.alloc(), &mut client, CALL_BACK, NEW));
    assert!(rt; leads_to(rt.alloc(), &mut client, LISTEN_BACK, CALLED));
    assert!(rt; leads_to(rt.alloc(), &mut client, LISTENS, LISTENING));
    assert!(rt; leads_to(rt.alloc(), &mut client, BEGINS, BEGUN));
}
