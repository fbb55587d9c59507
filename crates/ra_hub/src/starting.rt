//! A hub that begins: empty, or from the records of a keeper.
ghost use Rattle.std.specs.Prelude.{◌≡◌, [], option_map, IfOk, IfErr};
ghost use Rattle.ra_keep.specs.Causes.{TellsOnly, next_count};
ghost use Rattle.ra_registry.specs.KeptRecords.{IsKept};
ghost use Rattle.ra_hub.specs.Hubs.{started};

use crate::fault::StartFault;
use crate::plain::PlainHub;
use ra_keep::{KeepFault, Keeper, MemKeeper};
use ra_registry::Registry;
use std::alloc::Global;
use std::collections::BTreeMap;

impl<R: Keeper + Drop> PlainHub<R> {
    ghost use Rattle.ra_hub.specs.Keeping.{Starts, StartsNot, keeper_of, registry_of};

    /// A hub that starts from the records of a keeper. The session of each of them is over: it has stopped, can't be reconnected, and its
    /// key can't be used again. A session that begins can be reconnected until `long_grace` milliseconds after its link was lost, and
    /// until `short_grace` milliseconds after the first request of any session that followed the loss.
    pub fn start(
        alloc: Global,
        mut keeper: R,
        long_grace: u64,
        short_grace: u64,
    ) -> Result<PlainHub<R>, StartFault<R>>
        ensures started { IfOk result (λ hub. Starts long_grace short_grace (R.told (keeper_of hub)) hub) }
        ensures told { IfOk result (λ hub. TellsOnly (R.told keeper) (R.told (keeper_of hub))) }
        ensures kept { IfOk result (λ hub. IsKept (R.told (keeper_of hub)) (registry_of hub)) }
        ensures called { IfOk result (λ hub. R.calls (keeper_of hub) ≡ option_map next_count (R.calls keeper)) }
        ensures faults { IfOk result (λ hub. R.faults (keeper_of hub) ≡ R.faults keeper) }
        ensures not { IfErr result (λ fault. StartsNot R.told R.calls R.faults keeper fault) }
    {
        let records = match keeper.all(alloc) {
            Ok(records) => records,
            Err(fault) => return Err(StartFault { keeper, fault }),
        };
        match Registry::from_records(alloc, long_grace, short_grace, records.as_slice()) {
            Ok(registry) => Ok(PlainHub {
                keeper,
                registry,
                sessions: BTreeMap::new(alloc),
                keys: Vec::new(alloc),
            }),
            Err(_) => Err(StartFault {
                keeper,
                fault: KeepFault::NoMemory,
            }),
        }
    }
}

impl PlainHub<MemKeeper> {
    ghost use Rattle.ra_hub.specs.Keeping.{Stands, keeper_of};

    /// A hub without sessions, over a keeper in memory that never fails. It takes no memory.
    pub fn new(alloc: Global, long_grace: u64, short_grace: u64) -> PlainHub<MemKeeper>
        ensures empty { Stands result (started long_grace short_grace []) }
        ensures keeper { keeper_of result ≡ record { records = []; calls = 0; failing = []; faults = 0 } }
    {
        PlainHub {
            keeper: MemKeeper::new(alloc),
            registry: Registry::new(alloc, long_grace, short_grace),
            sessions: BTreeMap::new(alloc),
            keys: Vec::new(alloc),
        }
    }
}
