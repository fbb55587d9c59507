//! Requests that wait for their channel: which of them are served when it comes, and which were not in time.
ghost use Rattle.std.specs.Prelude.{◌≡◌, map, option_map, IfOk, IfSome};
ghost use Rattle.std.specs.List.{AllByRecursion, filter, filter_map};
ghost use Rattle.ra_ipc.specs.Packets.{MessageFits};
ghost use Rattle.ra_ipc.specs.View.{message};
ghost use Rattle.ra_ipc.specs.ChannelServers.{is_timed_out, timeout_one};
ghost use Rattle.ra_chan_server.specs.Requests.{id_in, waits_for, HaveOwnIds, ActiveFits};
ghost use Rattle.ra_chan_server.specs.View.{active_of};

use crate::request::{self, Request};
use crate::requests::Requests;
use crate::{packets, unknown};
use ra_ipc::Packet;
use ra_values::{NoMemory, Text};
use std::alloc::Global;

/// The ids of those among them that wait for this channel, in order.
fn waiting_among(alloc: Global, requests: &[&Request], channel: &Text) -> Result<Vec<u32>, NoMemory>
    ensures { IfOk result (λ ids. ids.items ≡ map id_in (filter (waits_for channel.now) (map (λ r. active_of r.now) requests.now))) }
{
    let mut ids = Vec::new(alloc);
    for request in requests {
        if request::waits_for(request, channel) {
            ids.push(request::id(request))?;
        }
    }
    Ok(ids)
}

/// The ids of those among them that waited too long, in order.
fn late_among(alloc: Global, requests: &[&Request], now: u64) -> Result<Vec<u32>, NoMemory>
    ensures { IfOk result (λ ids. ids.items ≡ map id_in (filter (is_timed_out now) (map (λ r. active_of r.now) requests.now))) }
{
    let mut ids = Vec::new(alloc);
    for request in requests {
        if request::is_late(request, now) {
            ids.push(request::id(request))?;
        }
    }
    Ok(ids)
}

/// The answer, where it is a call that waited too long.
fn answer(alloc: Global, request: &Request, now: u64) -> Result<Option<Packet>, NoMemory>
    requires { ActiveFits (active_of request.now) }
    ensures packet { IfOk result (λ p. option_map message p ≡ timeout_one now (active_of request.now)) }
    ensures fits { IfOk result (λ p. IfSome p (λ p. MessageFits (message p))) }
{
    if let Request::WaitingCall { call, until } = request {
        if *until <= now {
            let packet = unknown::answer(alloc, call.id, &call.channel)?;
            return Ok(Some(packet));
        }
    }
    Ok(None)
}

/// The answers to the calls among them that waited too long, in order.
fn answers_among(alloc: Global, requests: &[&Request], now: u64) -> Result<Vec<Packet>, NoMemory>
    requires { AllByRecursion ActiveFits (map (λ r. active_of r.now) requests.now) }
    ensures packets { IfOk result (λ packets. map message packets.items ≡ filter_map (timeout_one now) (map (λ r. active_of r.now) requests.now)) }
    ensures fits { IfOk result (λ packets. AllByRecursion MessageFits (map message packets.items)) }
{
    let mut packets = Vec::new(alloc);
    for request in requests {
        let packet = answer(alloc, request, now)?;
        packets::add(&mut packets, packet)?;
    }
    Ok(packets)
}

impl Requests {
    /// The ids of those that wait for this channel, in order.
    pub fn ids_waiting(&self, alloc: Global, channel: &Text) -> Result<Vec<u32>, NoMemory>
        ensures own { HaveOwnIds self.now }
        ensures fits { AllByRecursion ActiveFits self.now }
        ensures ids { IfOk result (λ ids. ids.items ≡ map id_in (filter (waits_for channel.now) self.now)) }
    {
        let found = self.listed(alloc)?;
        waiting_among(alloc, found.as_slice(), channel)
    }

    /// The ids of those that waited too long, in order.
    pub fn ids_late(&self, alloc: Global, now: u64) -> Result<Vec<u32>, NoMemory>
        ensures own { HaveOwnIds self.now }
        ensures ids { IfOk result (λ ids. ids.items ≡ map id_in (filter (is_timed_out now) self.now)) }
    {
        let found = self.listed(alloc)?;
        late_among(alloc, found.as_slice(), now)
    }

    /// The answers to the calls that waited too long, in order.
    pub fn answers(&self, alloc: Global, now: u64) -> Result<Vec<Packet>, NoMemory>
        ensures packets { IfOk result (λ packets. map message packets.items ≡ filter_map (timeout_one now) self.now) }
        ensures fits { IfOk result (λ packets. AllByRecursion MessageFits (map message packets.items)) }
    {
        let found = self.listed(alloc)?;
        answers_among(alloc, found.as_slice(), now)
    }
}
