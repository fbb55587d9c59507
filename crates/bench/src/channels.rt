//! A load for the channel server: calls that come, are handed out, and are answered in a random order.
ghost use Rattle.std.specs.Prelude.{◌≡◌, ◌<◌, ◌^◌, true, IfOk};
ghost use Rattle.ra_ipc.specs.Messages.{is_request};
ghost use Rattle.ra_ipc.specs.Packets.{MessageFits};
ghost use Rattle.ra_ipc.specs.View.{message};

use ra_chan_server::{ChannelServer, ServerFault};
use ra_ipc::{Answer, Packet};
use ra_values::{Text, Value};
use std::alloc::Global;

/// A call of `echo` on the channel `tools`.
fn promise(alloc: Global, id: u32) -> Result<Packet, ServerFault>
    requires { id < 2 ^ 31 }
    ensures request { IfOk result (λ p. is_request (message p) ≡ true) }
    ensures fits { IfOk result (λ p. MessageFits (message p)) }
{
    let channel = Text::of(alloc, "tools")?;
    let name = Text::of(alloc, "echo")?;
    Ok(Packet::Promise {
        id: id.cast_signed(),
        channel,
        name,
        arg: Value::Undefined,
    })
}

/// So many calls come, with the ids from 0.
fn open(alloc: Global, server: &mut ChannelServer, count: u32) -> Result<(), ServerFault>
    requires { count < 2 ^ 31 }
{
    for id in 0..count {
        let packet = promise(alloc, id)?;
        server.on_packet(packet, 0)?;
    }
    Ok(())
}

/// The next number of a linear congruential generator.
fn next(state: u64) -> u64 {
    state
        .wrapping_mul(6_364_136_223_846_793_005)
        .wrapping_add(1_442_695_040_888_963_407)
}

/// The ids below the count, in an order that looks random and is the same each time.
fn shuffled(alloc: Global, count: u32) -> Result<Vec<u32>, ServerFault> {
    let mut ids = Vec::new(alloc);
    for id in 0..count {
        ids.push(id)?;
    }
    let mut state = 1;
    for at in 1..ids.len() {
        state = next(state);
        let other = (state >> 33) as usize % (at + 1);
        ids.swap(at, other);
    }
    Ok(ids)
}

/// The calls with these ids are answered. How many were open is told.
fn answer(server: &mut ChannelServer, ids: &[u32]) -> u32 {
    let mut answered: u32 = 0;
    for id in ids {
        let body = Value::Undefined;
        if server
            .complete(id.cast_signed(), Answer::Success { body })
            .is_ok()
        {
            answered = answered.saturating_add(1);
        }
    }
    answered
}

/// So many rounds, in each of which so many calls come and are then answered. How many were answered is told.
pub fn run(alloc: Global, count: u32, rounds: u32) -> Result<u32, ServerFault> {
    if count > 1_000_000 {
        return Ok(0);
    }
    let mut server = ChannelServer::new(alloc);
    let channel = Text::of(alloc, "tools")?;
    server.register(alloc, &channel)?;
    let ids = shuffled(alloc, count)?;
    let mut answered: u32 = 0;
    for _ in 0..rounds {
        open(alloc, &mut server, count)?;
        answered = answered.saturating_add(answer(&mut server, ids.as_slice()));
    }
    Ok(answered)
}
