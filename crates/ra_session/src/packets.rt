//! Packets as the bodies of messages.
ghost use Rattle.std.specs.Prelude.{◌≡◌, ◌++◌, ◌∷◌, [], map, length, IfOk, OnOk, OnErr};
ghost use Rattle.ra_model.specs.Calls.{say};
ghost use Rattle.ra_model.specs.Endpoints.{Endpoint as AbstractEndpoint};
ghost use Rattle.ra_model.specs.EndpointStates.{StandsFor};
ghost use Rattle.ra_model.specs.Refusals.{say_fault};
ghost use Rattle.ra_proto.specs.Links.{SameLink};
ghost use Rattle.ra_proto.specs.Refused.{RefusedBy};
ghost use Rattle.std.specs.List.{AllByRecursion};
ghost use Rattle.ra_values.specs.View.{tree};
ghost use Rattle.ra_ipc.specs.Messages.{response};
ghost use Rattle.ra_ipc.specs.Packets.{message_bytes, MessageFits};
ghost use Rattle.ra_ipc.specs.View.{message, id_of, reply};

use ra_base::{Message, Moment};
use ra_ipc::{Answer, Packet, encode};
use ra_model::EndFault;
use ra_proto::Endpoint;
use ra_values::NoMemory;
use std::alloc::Global;

/// The packet as the body of a message.
pub fn body_of(alloc: Global, packet: &Packet) -> Result<Message, NoMemory>
    requires { MessageFits (message packet.now) }
    ensures { IfOk result (λ body. body ≡ message_bytes (message packet.now)) }
{
    let mut bytes = Vec::new(alloc);
    encode(alloc, packet, &mut bytes)?;
    Ok(Message::from_vec(bytes))
}

/// The packets as bodies, in order.
pub fn bodies_of(alloc: Global, packets: &[Packet]) -> Result<Vec<Message>, NoMemory>
    requires { AllByRecursion MessageFits (map message packets.now) }
    ensures { IfOk result (λ bodies. bodies.items ≡ map message_bytes (map message packets.now)) }
{
    let mut bodies = Vec::with_capacity(alloc, packets.len())?;
    for packet in packets {
        bodies.push(body_of(alloc, packet)?)?;
    }
    Ok(bodies)
}

/// The packet that answers the call with this id.
pub fn answer_packet(id: i32, answer: Answer) -> Packet
    ensures { message result ≡ response (id_of id) (reply answer) }
{
    match answer {
        Answer::Success { body } => Packet::PromiseSuccess { id, body },
        Answer::Error { body } => Packet::PromiseError { id, body },
        Answer::ErrorObj { body } => Packet::PromiseErrorObj { id, body },
    }
}

/// A message is said. At a fault it is dropped.
pub fn say_one(endpoint: &mut Endpoint, body: Message, now: Moment) -> Result<(), EndFault>
    ensures stands { OnOk result ((e : AbstractEndpoint) → StandsFor endpoint.old e → StandsFor endpoint.new (say body now e)) }
    ensures link { OnOk result (SameLink endpoint.old endpoint.new) }
    ensures refused { RefusedBy result (say_fault endpoint.old.phase endpoint.old.sent (length body)) }
    ensures err { OnErr result (endpoint.new ≡ endpoint.old) }
{
    match endpoint.say(body, now) {
        Ok(_) => Ok(()),
        Err(refused) => Err(refused.fault),
    }
}
