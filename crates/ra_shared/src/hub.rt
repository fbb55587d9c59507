//! The hub that threads share, from its start to its end.
ghost use Rattle.std.specs.Prelude.{◌≡◌, ◌+◌, ◌-◌, ◌<◌, ◌≤◌, ◌^◌, [], map, sum, min, length, IfOk, IfErr, OnOk, OnErr};
ghost use Rattle.ra_keep.specs.Causes.{Rose};
ghost use Rattle.ra_keep.specs.declared.keeper.KeepFault.TheVariants as keep;
ghost use Rattle.ra_registry.specs.KeptRecords.{IsKept};
ghost use Rattle.ra_registry.specs.Legal.{IsLegal};
ghost use Rattle.ra_locked.specs.Accounts.{AreReceiptsOf};
ghost use Rattle.ra_shared.specs.LastStates.{AreBorneOut};
ghost use Rattle.ra_shared.specs.Ends.{EndsNot, registry_of};

use crate::answers::LastState;
use crate::compare::{check_books, last_states};
use crate::fault::FinishFault;
use crate::handle::HubHandle;
use crate::session::SharedSession;
use crate::taken::{steps_of, take_apart};
use ra_base::{Key, NoMemory};
use ra_keep::{Keeper, MemKeeper};
use ra_locked::{EndFault, EndedRegistry, LockedParts, SharedRegistry, StartFault};
use ra_registry::RegistryParts;
use std::alloc::Global;
use std::collections::BTreeMap;
use std::sync::Wait;
use std::sync::ledger::{Blank, Ledger};

/// A hub for threads. Each thread has a handle of its own.
#[derive(Drop)]
pub struct SharedHub<R: Wait, K: Keeper + Drop, L: Ledger> {
    rt: R,
    alloc: Global,
    pub registry: SharedRegistry<R, K, SharedSession, L>,
}

/// What is left of a hub that has ended as it is to be.
#[derive(Drop)]
pub struct Finished<K> {
    /// The graces, the start records and the history.
    pub registry: RegistryParts,
    pub keeper: K,
    /// How many calls the handles made under the lock of a session. It stays at 2^64 - 1.
    pub steps: u64,
    /// The last states of the sessions, and of those that the start records tell.
    pub lasts: BTreeMap<Key, LastState>,
}

impl<R: Wait + Copy, K: Keeper + Drop, L: Ledger> SharedHub<R, K, L> {
    /// A hub that starts from the records of a keeper, and a ledger in which nothing was counted. Where it does not start, the keeper
    /// comes back.
    pub fn start(
        rt: R,
        alloc: Global,
        entries: Blank,
        keeper: K,
        long_grace: u64,
        short_grace: u64,
    ) -> Result<SharedHub<R, K, L>, StartFault<K>>
        requires { (entries.name ≡ L.name) × (entries.parts ≡ L.parts) × (L.parts ≡ 2 ^ 62) }
        ensures none { IfOk result (λ hub. hub.registry.made ≡ 0) }
        ensures failed { IfErr result (λ fault. fault.fault ≡ keep.Failed → Rose (K.faults keeper) (K.faults fault.keeper)) }
    {
        let registry = SharedRegistry::start(rt, alloc, entries, keeper, long_grace, short_grace)?;
        Ok(SharedHub {
            rt,
            alloc,
            registry,
        })
    }

    /// How many handles were made.
    pub fn made(&self) -> u64
        ensures { result ≡ self.now.registry.made }
    {
        self.registry.made
    }

    /// A handle for one thread, which has no seat, no receipt and no answer yet.
    pub fn handle(&mut self) -> Result<HubHandle<R, K, L>, NoMemory>
        requires { self.old.registry.made < 2 ^ 62 }
        ensures registry { IfOk result (λ handle. (handle.registry.receipts.items ≡ []) × (handle.registry.held.items ≡ []) × (handle.registry.keep_faults ≡ 0)) }
        ensures answers { IfOk result (λ handle. (handle.answers.items ≡ []) × (handle.steps ≡ 0)) }
        ensures count { OnOk result (self.new.registry.made ≡ self.old.registry.made + 1) }
        ensures same { OnErr result (self.new.registry.made ≡ self.old.registry.made) }
    {
        let registry = self.registry.handle()?;
        Ok(HubHandle {
            registry,
            answers: Vec::new(self.alloc),
            steps: 0,
        })
    }

    /// Compares the receipts of all handles with the history, and the answers that they kept with the last states of the sessions. Where
    /// it is Ok, each handle's receipts stand in the history in the order of its calls, each entry but an expiry is the receipt of one
    /// handle, and each kept answer is borne out. The first cause against that comes, in the order NotAll, Mismatch or Twice, Untrue,
    /// KeepUnlike. Want of memory may come in place of each of these but NotAll.
    pub fn finish(self, handles: Vec<HubHandle<R, K, L>>) -> Result<Finished<K>, FinishFault>
        requires { L.parts ≡ 2 ^ 62 }
        ensures legal { IfOk result (λ f. IsLegal (registry_of f.registry)) }
        ensures receipts { IfOk result (λ f. AreReceiptsOf f.registry.history.items (map (λ h. h.registry.receipts.items) handles.items)) }
        ensures kept { IfOk result (λ f. IsKept (K.told f.keeper) (registry_of f.registry)) }
        ensures failed { IfOk result (λ f. min (sum (map (λ h. h.registry.keep_faults) handles.items)) (2 ^ 64 - 1) ≤ K.faults f.keeper) }
        ensures answers { IfOk result (λ f. AreBorneOut f.lasts (map (λ h. h.answers.items) handles.items)) }
        ensures steps { IfOk result (λ f. f.steps ≡ min (sum (map (λ h. h.steps) handles.items)) (2 ^ 64 - 1)) }
        ensures all { OnOk result (length handles.items ≡ self.registry.made) }
        ensures not { IfErr result (EndsNot self.registry.made (map (λ h. h.answers.items) handles.items) (min (sum (map (λ h. h.registry.keep_faults) handles.items)) (2 ^ 64 - 1))) }
    {
        let SharedHub {
            rt,
            alloc,
            registry,
        } = self;
        let given = handles.len() as u64;
        let made = registry.made;
        if given != made {
            return Err(FinishFault::of(EndFault::NotAll { given, made }));
        }
        let steps = steps_of(handles.as_slice());
        let Ok(taken) = take_apart(alloc, handles) else {
            return Err(FinishFault::of(EndFault::NoMemory));
        };
        let ended = match registry.finish(taken.registries) {
            Ok(ended) => ended,
            Err(fault) => return Err(FinishFault::of(fault)),
        };
        let agree = ended.keep_faults_agree();
        let EndedRegistry {
            locked,
            answered: _,
        } = ended;
        let LockedParts {
            registry,
            keeper,
            failed: _,
            sessions,
        } = locked.into_parts();
        let Ok(lasts) = last_states(&rt, alloc, registry.start.as_slice(), &sessions) else {
            return Err(FinishFault::of(EndFault::NoMemory));
        };
        match check_books(&lasts, taken.answers.as_slice()) {
            Ok(()) => {}
            Err(fault) => return Err(fault),
        }
        match agree {
            Ok(()) => Ok(Finished {
                registry,
                keeper,
                steps,
                lasts,
            }),
            Err(fault) => Err(FinishFault::of(fault)),
        }
    }
}

impl<R: Wait + Copy, L: Ledger> SharedHub<R, MemKeeper, L> {
    /// A hub over an empty keeper in memory.
    pub fn new(
        rt: R,
        alloc: Global,
        entries: Blank,
        long_grace: u64,
        short_grace: u64,
    ) -> Result<SharedHub<R, MemKeeper, L>, NoMemory>
        requires { (entries.name ≡ L.name) × (entries.parts ≡ L.parts) × (L.parts ≡ 2 ^ 62) }
        ensures { IfOk result (λ hub. hub.registry.made ≡ 0) }
    {
        match SharedHub::start(
            rt,
            alloc,
            entries,
            MemKeeper::new(alloc),
            long_grace,
            short_grace,
        ) {
            Ok(hub) => Ok(hub),
            Err(_) => Err(NoMemory),
        }
    }
}
