//! The registry that threads share, from its start to its end.
ghost use Rattle.std.specs.Prelude.{◌≡◌, ◌+◌, ◌-◌, ◌<◌, ◌≤◌, ◌^◌, [], map, sum, min, length, IfOk, IfErr, OnOk, OnErr};
ghost use Rattle.ra_keep.specs.Causes.{Rose};
ghost use Rattle.ra_keep.specs.declared.keeper.KeepFault.TheVariants as keep;
ghost use Rattle.ra_registry.specs.Legal.{IsLegal};
ghost use Rattle.ra_locked.specs.Accounts.{AreReceiptsOf, OfCalls};
ghost use Rattle.ra_locked.specs.EndFaults.{EndsNot};
ghost use Rattle.ra_locked.specs.PlaceMarks.{receipts_in};
ghost use Rattle.ra_locked.specs.declared.fault.EndFault.TheVariants as faults;

use crate::compare::compare_books;
use crate::fault::{EndFault, StartFault};
use crate::handle::RegistryHandle;
use crate::locked::Locked;
use crate::receipt::Receipt;
use crate::session::SessionHandle;
use ra_base::NoMemory;
use ra_keep::{KeepFault, Keeper};
use std::alloc::{AllocError, Global};
use std::sync::ledger::{Blank, Ledger, Share};
use std::sync::{Arc, Mutex, Wait};

/// A registry for threads. Each thread has a handle of its own.
#[derive(Drop)]
pub struct SharedRegistry<R: Wait, K: Keeper + Drop, X: SessionHandle, L: Ledger> {
    rt: R,
    alloc: Global,
    registry: Arc<Mutex<Locked<K, X, L>>>,
    rest: Share<L>,
    /// How many handles were made.
    pub made: u64,
    ghost parts: { rest.parts + made ≡ 2 ^ 62 },
    ghost none: { rest.amount ≡ 0 },
}

/// What is left of a shared registry whose handles' receipts are those of its history.
#[derive(Drop)]
pub struct EndedRegistry<K: Keeper + Drop, X: SessionHandle, L: Ledger> {
    pub locked: Locked<K, X, L>,
    /// How often the handles answered that the keeper failed. It stays at 2^64 - 1.
    pub answered: u64,
}

impl<R: Wait + Copy, K: Keeper + Drop, X: SessionHandle, L: Ledger> SharedRegistry<R, K, X, L> {
    /// A registry that starts from the records of a keeper, and a ledger in which nothing was counted. Where it does not start, the
    /// keeper comes back.
    pub fn start(
        rt: R,
        alloc: Global,
        entries: Blank,
        keeper: K,
        long_grace: u64,
        short_grace: u64,
    ) -> Result<SharedRegistry<R, K, X, L>, StartFault<K>>
        requires { (entries.name ≡ L.name) × (entries.parts ≡ L.parts) × (L.parts ≡ 2 ^ 62) }
        ensures none { IfOk result (λ shared. shared.made ≡ 0) }
        ensures failed { IfErr result (λ fault. fault.fault ≡ keep.Failed → Rose (K.faults keeper) (K.faults fault.keeper)) }
    {
        let (book, rest) = entries.open::<L>();
        let locked = Locked::start(alloc, keeper, book, long_grace, short_grace)?;
        match Arc::new(alloc, Mutex::new(locked)) {
            Ok(registry) => Ok(SharedRegistry {
                rt,
                alloc,
                registry,
                rest,
                made: 0,
            }),
            Err(failed) => Err(StartFault {
                keeper: failed.value.into_inner().into_parts().keeper,
                fault: KeepFault::NoMemory,
            }),
        }
    }

    /// A handle for one thread, which has no seat and no receipt yet.
    pub fn handle(&mut self) -> Result<RegistryHandle<R, K, X, L>, NoMemory>
        requires { self.old.made < 2 ^ 62 }
        ensures made { IfOk result (λ handle. (handle.receipts.items ≡ []) × (handle.held.items ≡ []) × (handle.keep_faults ≡ 0)) }
        ensures count { OnOk result (self.new.made ≡ self.old.made + 1) }
        ensures same { OnErr result (self.new.made ≡ self.old.made) }
    {
        let registry = Arc::try_clone(&self.registry)?;
        let handle = RegistryHandle {
            rt: self.rt,
            registry,
            share: self.rest.split_off(1, 0),
            held: Vec::new(self.alloc),
            receipts: Vec::new(self.alloc),
            keep_faults: 0,
            unplaced: 0,
        };
        self.made += 1;
        Ok(handle)
    }

    /// Compares the receipts of all handles with the history. Where it is Ok, each handle's receipts stand in the history in the order of
    /// its calls, and each entry but an expiry is the receipt of one handle.
    pub fn finish(
        self,
        handles: Vec<RegistryHandle<R, K, X, L>>,
    ) -> Result<EndedRegistry<K, X, L>, EndFault>
        requires { L.parts ≡ 2 ^ 62 }
        ensures legal { IfOk result (λ ended. IsLegal ended.locked.registry) }
        ensures receipts { IfOk result (λ ended. AreReceiptsOf ended.locked.registry.history (map (λ h. h.receipts.items) handles.items)) }
        ensures answered { IfOk result (λ ended. ended.answered ≡ min (sum (map (λ h. h.keep_faults) handles.items)) (2 ^ 64 - 1)) }
        ensures all { OnOk result (length handles.items ≡ self.made) }
        ensures not { IfErr result (EndsNot self.made (length handles.items)) }
    {
        let SharedRegistry {
            rt: _,
            alloc,
            registry,
            rest,
            made,
        } = self;
        let given = handles.len() as u64;
        if given != made {
            return Err(EndFault::NotAll { given, made });
        }
        let answered = keep_faults_of(handles.as_slice());
        let mut all = rest;
        let Ok(books) = gather(alloc, handles, &mut all) else {
            return Err(EndFault::NoMemory);
        };
        let Some(registry) = Arc::into_inner(registry) else {
            return Err(EndFault::NoMemory);
        };
        let mut locked = registry.into_inner();
        locked.audit(&mut all);
        match compare_books(alloc, locked.history(), books.as_slice()) {
            Ok(()) => Ok(EndedRegistry { locked, answered }),
            Err(fault) => Err(fault),
        }
    }
}

impl<K: Keeper + Drop, X: SessionHandle, L: Ledger> EndedRegistry<K, X, L> {
    /// Whether the handles answered KeepFault no more often than the keeper failed. A number under the lock that stands at the end of its
    /// type counts as enough.
    pub fn keep_faults_agree(&self) -> Result<(), EndFault>
        ensures agree { OnOk result (self.now.answered ≤ self.now.locked.failed) }
        ensures not { IfErr result (λ fault. (fault ≡ faults.KeepUnlike self.now.answered self.now.locked.failed) × (self.now.locked.failed < self.now.answered)) }
    {
        let answered = self.answered;
        let failed = self.locked.failed();
        if failed < answered {
            return Err(EndFault::KeepUnlike { answered, failed });
        }
        Ok(())
    }
}

/// How often the handles answered that the keeper failed.
fn keep_faults_of<R: Wait, K: Keeper + Drop, X: SessionHandle, L: Ledger>(
    handles: &[RegistryHandle<R, K, X, L>],
) -> u64
    ensures { result ≡ min (sum (map (λ h. h.keep_faults) handles.now)) (2 ^ 64 - 1) }
{
    let mut answered = 0u64;
    for handle in handles {
        answered = answered.saturating_add(handle.keep_faults);
    }
    answered
}

/// The receipts of the handles, whose shares are taken in.
fn gather<R: Wait + Drop, K: Keeper + Drop, X: SessionHandle, L: Ledger>(
    alloc: Global,
    handles: Vec<RegistryHandle<R, K, X, L>>,
    all: &mut Share<L>,
) -> Result<Vec<Vec<Receipt>>, AllocError>
    ensures books { IfOk result (λ b. map (λ v. v.items) b.items ≡ map (λ h. h.receipts.items) handles.items) }
    ensures parts { OnOk result (all.new.parts ≡ all.old.parts + length handles.items) }
    ensures amount { OnOk result (all.new.amount ≤ all.old.amount + receipts_in (map (λ h. h.receipts.items) handles.items)) }
    ensures of_calls { OnOk result (OfCalls (map (λ h. h.receipts.items) handles.items)) }
{
    let mut books = Vec::new(alloc);
    for handle in handles {
        let RegistryHandle {
            rt: _,
            registry: _,
            share,
            held: _,
            receipts,
            keep_faults: _,
            unplaced: _,
        } = handle;
        all.merge(share);
        books.push(receipts)?;
    }
    Ok(books)
}
