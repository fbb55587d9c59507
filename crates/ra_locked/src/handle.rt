//! What one caller keeps of the registry that threads share.
ghost use Rattle.std.specs.Prelude.{◌≡◌, ◌≢◌, ◌<◌, ◌≤◌, ◌+◌, ◌∷◌, ◌++◌, [], true, None, Some, vec_len, length, IfOk, IfErr, OnOk, OnErr};
ghost use Rattle.std.specs.Vec.{vec_capacity};
ghost use Rattle.std.specs.List.{list_all};
ghost use Rattle.ra_base.specs.declared.key.Seat.{Seat};
ghost use Rattle.ra_base.specs.declared.kind.Kind.TheVariants as kinds;
ghost use Rattle.ra_registry.specs.Admission.{key_of, entry_for};
ghost use Rattle.ra_registry.specs.declared.fault.AdmitFault.TheVariants as faults;
ghost use Rattle.ra_registry.specs.declared.past.Did.TheVariants as dids;
ghost use Rattle.ra_registry.specs.KeptRecords.{HasKeepCause};
ghost use Rattle.ra_locked.specs.HandleSeats.{held_of, Less, More};
ghost use Rattle.ra_locked.specs.Receipts.{is_of_call, entry_of, Gains, Received};
ghost use Rattle.ra_locked.specs.declared.fault.Missing.TheVariants as missings;

use crate::answer::Answer;
use crate::fault::Missing;
use crate::held::{HeldSeat, take_held};
use crate::locked::Locked;
use crate::receipt::Receipt;
use crate::seats::same_seat;
use crate::session::SessionHandle;
use ra_base::{Cause, Key, Moment, Request, Seat};
use ra_keep::Keeper;
use ra_registry::AdmitFault;
use std::alloc::Global;
use std::sync::ledger::{Ledger, Share};
use std::sync::{Arc, Mutex, Wait};

/// One caller of a shared registry, with a receipt of each entry that its calls added, and its seats that are not spent.
#[derive(Drop)]
pub struct RegistryHandle<R: Wait, K: Keeper + Drop, X: SessionHandle, L: Ledger> {
    pub rt: R,
    pub registry: Arc<Mutex<Locked<K, X, L>>>,
    pub share: Share<L>,
    pub held: Vec<HeldSeat<X>>,
    /// The oldest first, with room for an end of each seat that it has.
    pub receipts: Vec<Receipt>,
    /// How often it answered that the keeper failed. It stays at 2^64 - 1.
    pub keep_faults: u64,
    /// How many of its receipts have no place in the history, since they are of ends that were not entered.
    pub unplaced: u64,
    ghost one_part: { share.parts ≡ 1 },
    ghost counted: { share.amount + unplaced ≡ vec_len receipts },
    ghost of_calls: { list_all is_of_call receipts.items ≡ true },
    ghost room: { vec_len receipts + vec_len held ≤ vec_capacity receipts },
}

impl<R: Wait, K: Keeper + Drop, X: SessionHandle, L: Ledger> RegistryHandle<R, K, X, L> {
    /// Judges a request that has passed its handshake, and admits it where no reason is against it. An acceptance is kept by the keeper
    /// first. Each answer but KeepFault and NoMemory leaves a receipt.
    pub fn admit(&mut self, alloc: Global, ask: Request, now: Moment) -> Result<Seat, AdmitFault>
        requires { ask.kind ≢ Some kinds.Tunnel }
        ensures given { IfOk result (λ seat. More seat self.old.held.items self.new.held.items) }
        ensures not_given { OnErr result (self.new.held.items ≡ self.old.held.items) }
        ensures receipt { Received ask now result self.old.receipts.items self.new.receipts.items }
        ensures cause { HasKeepCause self.old.keep_faults self.new.keep_faults result }
        ensures unplaced { self.new.unplaced ≡ self.old.unplaced }
    {
        let RegistryHandle {
            rt,
            registry,
            share,
            held,
            receipts,
            keep_faults,
            unplaced: _,
        } = self;
        held.reserve(1)?;
        let room = held.len() + 2;
        receipts.reserve(room)?;
        match registry.lock(rt).admit(alloc, ask, now, share) {
            Answer::Given {
                seat,
                session,
                receipt,
            } => {
                receipts.push_reserved(receipt);
                held.push_reserved(HeldSeat {
                    seat: same_seat(&seat),
                    session,
                    attached: false,
                });
                Ok(seat)
            }
            Answer::Refused { reason, receipt } => {
                receipts.push_reserved(receipt);
                Err(AdmitFault::Refused { reason })
            }
            Answer::KeepFault => {
                *keep_faults = keep_faults.saturating_add(1);
                Err(AdmitFault::KeepFault)
            }
            Answer::NoMemory => Err(AdmitFault::NoMemory),
        }
    }

    /// The link of one of its seats was lost: its session loses the link too. It takes no memory.
    pub fn lost(&mut self, seat: Seat, now: Moment)
        requires { 0 < held_of seat self.old.held.items }
        ensures spent { Less seat self.old.held.items self.new.held.items }
        ensures receipt { Gains (entry_of seat.key now (dids.Lost seat.epoch)) self.old.receipts.items self.new.receipts.items }
        ensures kept { self.new.keep_faults ≡ self.old.keep_faults }
    {
        let RegistryHandle {
            rt,
            registry,
            share,
            held,
            receipts,
            keep_faults: _,
            unplaced,
        } = self;
        let Some(one) = take_held(held, &seat) else {
            unreachable!()
        };
        let mut registry = registry.lock(rt);
        one.session.lose(rt, seat.epoch);
        let (receipt, is_entered) = registry.lose(seat, now, share);
        receipts.push_reserved(receipt);
        if !is_entered {
            *unplaced += 1;
        }
    }

    /// The session of one of its seats ends, unless it has a newer link. It takes no memory.
    pub fn close(&mut self, seat: Seat, cause: Cause, now: Moment)
        requires { 0 < held_of seat self.old.held.items }
        ensures spent { Less seat self.old.held.items self.new.held.items }
        ensures receipt { Gains (entry_of seat.key now (dids.Closed seat.epoch cause)) self.old.receipts.items self.new.receipts.items }
        ensures kept { self.new.keep_faults ≡ self.old.keep_faults }
    {
        let RegistryHandle {
            rt,
            registry,
            share,
            held,
            receipts,
            keep_faults: _,
            unplaced,
        } = self;
        let Some(one) = take_held(held, &seat) else {
            unreachable!()
        };
        let mut registry = registry.lock(rt);
        if registry.would_close(&seat) {
            one.session.end(rt, cause);
        }
        let (receipt, is_entered) = registry.close(seat, cause, now, share);
        receipts.push_reserved(receipt);
        if !is_entered {
            *unplaced += 1;
        }
    }

    /// The session of a key. It is None where the row is that of a start record. NoRow comes with its entry, where no row has the key.
    pub fn find_session(&mut self, key: &Key, now: Moment) -> Result<Option<X>, Missing>
        ensures missed { IfErr result (λ e. e ≡ missings.NoRow → Gains (entry_of key.now now dids.Missed) self.old.receipts.items self.new.receipts.items) }
        ensures no_memory { IfErr result (λ e. e ≡ missings.NoMemory → self.new.receipts.items ≡ self.old.receipts.items) }
        ensures found { OnOk result (self.new.receipts.items ≡ self.old.receipts.items) }
        ensures held { self.new.held.items ≡ self.old.held.items }
        ensures kept { self.new.keep_faults ≡ self.old.keep_faults }
        ensures unplaced { self.new.unplaced ≡ self.old.unplaced }
    {
        let RegistryHandle {
            rt,
            registry,
            share,
            held,
            receipts,
            keep_faults: _,
            unplaced: _,
        } = self;
        let room = held.len() + 1;
        receipts.reserve(room)?;
        let mut registry = registry.lock(rt);
        if let Some(session) = registry.session(key) {
            let session = session.again()?;
            return Ok(Some(session));
        }
        if registry.has_row(key) {
            return Ok(None);
        }
        let receipt = registry.miss(key, now, share)?;
        receipts.push_reserved(receipt);
        Err(Missing::NoRow)
    }

    /// The rows whose grace is over expire, and their sessions end with GraceOver. Answers how many these are, and how many sessions
    /// there are in all.
    pub fn expire(&mut self, now: Moment) -> (u64, usize)
        ensures held { self.new.held.items ≡ self.old.held.items }
        ensures receipts { self.new.receipts.items ≡ self.old.receipts.items }
        ensures kept { self.new.keep_faults ≡ self.old.keep_faults }
        ensures unplaced { self.new.unplaced ≡ self.old.unplaced }
    {
        let mut registry = self.registry.lock(&self.rt);
        let before = registry.history().len();
        let expired = registry.expire(now);
        end_all(&self.rt, &registry, before);
        (expired, registry.session_count())
    }

    /// The session of this place among all, in the order in which they were made. None where there is no such place, or no memory.
    pub fn session_at(&self, at: usize) -> Option<X> {
        let registry = self.registry.lock(&self.rt);
        registry.session_at(at)?.again().ok()
    }
}

/// The sessions of the expiries from a place on end.
fn end_all<R: Wait, K: Keeper + Drop, X: SessionHandle, L: Ledger>(
    rt: &R,
    registry: &Locked<K, X, L>,
    before: usize,
)
    requires { before ≤ length registry.now.registry.history }
{
    for entry in &registry.history()[before..] {
        if let Some(session) = registry.session(&entry.key) {
            session.end(rt, Cause::GraceOver);
        }
    }
}
