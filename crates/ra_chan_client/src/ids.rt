//! The ids of unsettled calls, or of living listeners.
ghost use Rattle.std.specs.Prelude.{◌≡◌, ◌++◌, ◌∷◌, [], ℕ, true, OnOk, OnErr, ◌+◌, ◌<◌};
ghost use Rattle.std.specs.Bool.{OnFalse};
ghost use Rattle.ra_ipc.specs.ChannelClients.{is_in, without};
ghost use Rattle.ra_chan_client.specs.Held.{AreIds};

use ra_values::NoMemory;
use std::alloc::Global;
use std::collections::BTreeSet;

/// Adds an id above all others.
pub fn add(ids: &mut BTreeSet<u32>, id: u32) -> Result<(), NoMemory>
    requires { AreIds id ids.old.keys }
    ensures ok { OnOk result (ids.new.keys ≡ ids.old.keys ++ id ∷ []) }
    ensures ids { OnOk result (AreIds (id + 1) ids.new.keys) }
    ensures err { OnErr result (ids.new.keys ≡ ids.old.keys) }
{
    ids.insert(id)?;
    Ok(())
}

/// Takes the id out, and tells whether it was there.
pub fn take(ids: &mut BTreeSet<u32>, id: u32) -> bool
    ensures found { result ≡ is_in id ids.old.keys }
    ensures same { OnFalse result (ids.new.keys ≡ ids.old.keys) }
    ensures left { (n : ℕ) → AreIds n ids.old.keys → (ids.new.keys ≡ without id ids.old.keys) × AreIds n ids.new.keys }
{
    ids.remove(&id)
}

pub fn has(ids: &BTreeSet<u32>, id: u32) -> bool
    ensures found { result ≡ is_in id ids.now.keys }
    ensures below { (n : ℕ) → AreIds n ids.now.keys → result ≡ true → id < n }
{
    ids.contains(&id)
}
