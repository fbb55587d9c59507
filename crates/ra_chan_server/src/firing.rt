//! Events, as the packets for those who listen to them.
ghost use Rattle.std.specs.Prelude.{◌≡◌, map, option_map, IfOk, IfSome};
ghost use Rattle.std.specs.List.{AllByRecursion, filter_map};
ghost use Rattle.ra_values.specs.View.{tree};
ghost use Rattle.ra_values.specs.Spelling.{Fits, levels};
ghost use Rattle.ra_ipc.specs.Packets.{MessageFits};
ghost use Rattle.ra_ipc.specs.View.{message};
ghost use Rattle.ra_ipc.specs.ChannelServers.{fire_one};
ghost use Rattle.ra_chan_server.specs.Requests.{ActiveFits};
ghost use Rattle.ra_chan_server.specs.View.{active_of};

use crate::call::Fire;
use crate::packets;
use crate::request::Request;
use crate::requests::Requests;
use ra_ipc::Packet;
use ra_values::NoMemory;
use std::alloc::Global;

/// The packet, where it is a listener of the event.
fn fired(alloc: Global, request: &Request, fire: &Fire) -> Result<Option<Packet>, NoMemory>
    requires body { Fits levels (tree fire.now.body) }
    requires request { ActiveFits (active_of request.now) }
    ensures packet { IfOk result (λ p. option_map message p ≡ fire_one fire.now.channel fire.now.event (tree fire.now.body) (active_of request.now)) }
    ensures fits { IfOk result (λ p. IfSome p (λ p. MessageFits (message p))) }
{
    if let Request::Listener { id, channel, event } = request {
        if fire.channel.as_str() == channel.as_str() && fire.event.as_str() == event.as_str() {
            let body = fire.body.copy(alloc)?;
            return Ok(Some(Packet::EventFire { id: *id, body }));
        }
    }
    Ok(None)
}

/// The packets for the listeners of the event among them, in order.
fn fires_among(alloc: Global, requests: &[&Request], fire: &Fire) -> Result<Vec<Packet>, NoMemory>
    requires body { Fits levels (tree fire.now.body) }
    requires requests { AllByRecursion ActiveFits (map (λ r. active_of r.now) requests.now) }
    ensures packets { IfOk result (λ packets. map message packets.items ≡ filter_map (fire_one fire.now.channel fire.now.event (tree fire.now.body)) (map (λ r. active_of r.now) requests.now)) }
    ensures fits { IfOk result (λ packets. AllByRecursion MessageFits (map message packets.items)) }
{
    let mut packets = Vec::new(alloc);
    for request in requests {
        let packet = fired(alloc, request, fire)?;
        packets::add(&mut packets, packet)?;
    }
    Ok(packets)
}

impl Requests {
    /// The packets for the listeners of the event, in order.
    pub fn fires(&self, alloc: Global, fire: &Fire) -> Result<Vec<Packet>, NoMemory>
        requires { Fits levels (tree fire.now.body) }
        ensures packets { IfOk result (λ packets. map message packets.items ≡ filter_map (fire_one fire.now.channel fire.now.event (tree fire.now.body)) self.now) }
        ensures fits { IfOk result (λ packets. AllByRecursion MessageFits (map message packets.items)) }
    {
        let found = self.listed(alloc)?;
        fires_among(alloc, found.as_slice(), fire)
    }
}
