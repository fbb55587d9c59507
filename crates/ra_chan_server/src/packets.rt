//! Packets that are collected.
ghost use Rattle.std.specs.Prelude.{◌≡◌, [], ◌++◌, map, option_map, OnOk, IfSome};
ghost use Rattle.std.specs.List.{AllByRecursion, cons_option};
ghost use Rattle.ra_ipc.specs.Packets.{MessageFits};
ghost use Rattle.ra_ipc.specs.View.{message};

use ra_ipc::Packet;
use ra_values::NoMemory;

/// Adds a packet behind the others, if there is one.
pub fn add(packets: &mut Vec<Packet>, packet: Option<Packet>) -> Result<(), NoMemory>
    requires packets { AllByRecursion MessageFits (map message packets.old.items) }
    requires packet { IfSome packet (λ p. MessageFits (message p)) }
    ensures ok { OnOk result (map message packets.new.items ≡ map message packets.old.items ++ cons_option (option_map message packet) []) }
    ensures fits { OnOk result (AllByRecursion MessageFits (map message packets.new.items)) }
{
    if let Some(packet) = packet {
        packets.push(packet)?;
    }
    Ok(())
}
