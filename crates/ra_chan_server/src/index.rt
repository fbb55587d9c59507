//! The arrivals of requests: by their ids, and in a set.
ghost use Rattle.std.specs.Prelude.{◌≡◌, ◌++◌, ◌∷◌, [], ◌<◌, ℕ, ◌==◌, Some, None, if◌then◌else◌, OnOk, OnErr};
ghost use Rattle.std.specs.List.{AllByRecursion};
ghost use Rattle.std.specs.BTreeMap.{get};
ghost use Rattle.std.specs.Ordering.{nat_cmp};
ghost use Rattle.ra_chan_server.specs.Held.{Ascending, without};

use ra_values::NoMemory;
use std::collections::{BTreeMap, BTreeSet};

/// The id has that arrival.
pub fn name(arrivals: &mut BTreeMap<u32, u64>, id: u32, arrival: u64) -> Result<(), NoMemory>
    ensures ok { OnOk result ((i : ℕ) → get nat_cmp arrivals.new i ≡ (if i == id then Some arrival else get nat_cmp arrivals.old i)) }
    ensures err { OnErr result (arrivals.new.entries ≡ arrivals.old.entries) }
{
    arrivals.insert(id, arrival)?;
    Ok(())
}

/// The id has no arrival.
pub fn unname(arrivals: &mut BTreeMap<u32, u64>, id: u32)
    ensures { (i : ℕ) → get nat_cmp arrivals.new i ≡ (if i == id then None else get nat_cmp arrivals.old i) }
{
    let _ = arrivals.remove(&id);
}

/// Adds an arrival behind all others, if it is wanted.
pub fn add(arrivals: &mut BTreeSet<u64>, wanted: bool, arrival: u64) -> Result<(), NoMemory>
    requires { AllByRecursion (λ other. other < arrival) arrivals.old.keys }
    ensures ok { OnOk result (arrivals.new.keys ≡ (if wanted then arrivals.old.keys ++ arrival ∷ [] else arrivals.old.keys)) }
    ensures err { OnErr result (arrivals.new.keys ≡ arrivals.old.keys) }
{
    if wanted {
        arrivals.insert(arrival)?;
    }
    Ok(())
}

/// Takes the arrival out, if it is there.
pub fn take(arrivals: &mut BTreeSet<u64>, arrival: u64)
    ensures { Ascending arrivals.old.keys → arrivals.new.keys ≡ without arrival arrivals.old.keys }
{
    let _ = arrivals.remove(&arrival);
}
