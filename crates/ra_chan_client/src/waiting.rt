//! The requests that wait until the server is ready, by their ids.
ghost use Rattle.std.specs.Prelude.{◌≡◌, ◌≤◌, ◌+◌, ◌++◌, ◌∷◌, [], ℕ, length, not, ◌==◌, Some, None, if◌then◌else◌, IfOk, OnOk, OnErr, vec_len, vec_capacity};
ghost use Rattle.std.specs.List.{filter};
ghost use Rattle.std.specs.Map.{keys_of, values_of};
ghost use Rattle.ra_chan_client.specs.Held.{Ascending, AreIds};

use ra_ipc::Packet;
use ra_values::NoMemory;
use std::alloc::Global;
use std::collections::BTreeMap;

/// Adds a request under an id above all others.
fn add(waiting: &mut BTreeMap<u32, Packet>, id: u32, packet: Packet) -> Result<(), NoMemory>
    requires { AreIds id (keys_of waiting.old.entries) }
    ensures ok { OnOk result (waiting.new.entries ≡ waiting.old.entries ++ (id, packet) ∷ []) }
    ensures ids { OnOk result (AreIds (id + 1) (keys_of waiting.new.entries)) }
    ensures err { OnErr result (waiting.new.entries ≡ waiting.old.entries) }
{
    waiting.insert(id, packet)?;
    Ok(())
}

/// The packet, if the server is ready. Else it is kept under its id, which is above all others.
pub fn sent(
    waiting: &mut BTreeMap<u32, Packet>,
    ready: bool,
    id: u32,
    packet: Packet,
) -> Result<Option<Packet>, NoMemory>
    requires { AreIds id (keys_of waiting.old.entries) }
    ensures out { IfOk result (λ out. out ≡ (if ready then Some packet else None)) }
    ensures ok { OnOk result (waiting.new.entries ≡ (if ready then waiting.old.entries else waiting.old.entries ++ (id, packet) ∷ [])) }
    ensures ids { OnOk result (AreIds (id + 1) (keys_of waiting.new.entries)) }
    ensures err { OnErr result (waiting.new.entries ≡ waiting.old.entries) }
{
    if ready {
        return Ok(Some(packet));
    }
    add(waiting, id, packet)?;
    Ok(None)
}

/// Takes out the request of this id, if it waits.
pub fn forget(waiting: &mut BTreeMap<u32, Packet>, id: u32)
    ensures { (n : ℕ) → AreIds n (keys_of waiting.old.entries) → (waiting.new.entries ≡ filter (λ e. not (e.0 == id)) waiting.old.entries) × AreIds n (keys_of waiting.new.entries) }
{
    let _ = waiting.remove(&id);
}

/// Puts an item behind others, where there is room.
fn put(packets: &mut Vec<Packet>, packet: Packet)
    requires { vec_len packets.old + 1 ≤ vec_capacity packets.old }
    ensures items { packets.new.items ≡ packets.old.items ++ packet ∷ [] }
    ensures room { vec_capacity packets.old ≤ vec_capacity packets.new }
{
    if packets.push(packet).is_err() {
        unreachable!();
    }
}

/// Takes out all requests, in the order of their ids.
pub fn drain(alloc: Global, waiting: &mut BTreeMap<u32, Packet>) -> Result<Vec<Packet>, NoMemory>
    ensures items { IfOk result (λ packets. packets.items ≡ values_of waiting.old.entries) }
    ensures ok { OnOk result (waiting.new.entries ≡ []) }
    ensures err { OnErr result (waiting.new.entries ≡ waiting.old.entries) }
{
    let mut packets = Vec::with_capacity(alloc, waiting.len())?;
    while let Some((_, packet)) = waiting.pop_first() {
        put(&mut packets, packet);
    }
    Ok(packets)
}

/// Equal requests under the same ids.
pub fn copied(
    alloc: Global,
    waiting: &BTreeMap<u32, Packet>,
) -> Result<BTreeMap<u32, Packet>, NoMemory>
    requires { Ascending (keys_of waiting.now.entries) }
    ensures { IfOk result (λ copy. copy.entries ≡ waiting.now.entries) }
{
    let mut copy = BTreeMap::new(alloc);
    for (id, packet) in waiting.iter() {
        add(&mut copy, *id, packet.copy(alloc)?)?;
    }
    Ok(copy)
}
