//! The hub that one thread uses: a registry, its keeper, and the sessions by key.
ghost use Rattle.std.specs.Prelude.{◌≡◌, ◌≢◌, ◌<◌, ◌||◌, ◌∷◌, [], false, true, is_some, None, Some, IfOk, IfErr, OnErr};
ghost use Rattle.std.specs.BTreeMap.{get};
ghost use Rattle.ra_base.specs.Keys.{key_cmp};
ghost use Rattle.ra_base.specs.declared.key.Seat.{Seat};
ghost use Rattle.ra_base.specs.declared.kind.Kind.TheVariants as kinds;
ghost use Rattle.ra_registry.specs.Admission as admission;
ghost use Rattle.ra_registry.specs.KeptRecords.{IsKept};
ghost use Rattle.ra_registry.specs.Seats.{unspent};
ghost use Rattle.ra_session.specs.View.{TellFits, TurnFits};
ghost use Rattle.ra_hub.specs.Faults.{IsOfAdmission, IsOfAttach, IsOfTurn, IsOfKey};
ghost use Rattle.ra_hub.specs.Hubs as hubs;
ghost use Rattle.ra_hub.specs.HubCalls.{Admits, Attaches, Turns, Tells, Loses, Closes};
ghost use Rattle.ra_hub.specs.HubSeats.{Gives, Spends, Stay};
ghost use Rattle.ra_hub.specs.KeepCauses.{HasKeepCause};
ghost use Rattle.ra_hub.specs.Sweeps.{IsSwept};

use crate::entry::SessionEntry;
use crate::fault::HubFault;
use crate::hub::{Hub, Swept};
use crate::rows::{end_closed, expire, key_of, tell_nobody};
use crate::sessions::{add_session, attach_at, lose_at, remove_session, tell_at, turn_at};
use crate::sweeping::{forget_ended, tick_all};
use ra_base::{Cause, Key, Moment, Request, Seat};
use ra_keep::Keeper;
use ra_registry::Registry;
use ra_session::{Tell, Turn};
use std::alloc::Global;
use std::collections::BTreeMap;

/// A hub that one thread uses. It tells its rows and sessions. Where its keeper tells, the list is the start records and those of the
/// history.
#[derive(Drop)]
pub struct PlainHub<R: Keeper + Drop> {
    pub(crate) keeper: R,
    pub(crate) registry: Registry,
    pub(crate) sessions: BTreeMap<Key, SessionEntry>,
    /// The keys of the sessions that had not ended at the last tick, and of those that were made since, in the order in which these
    /// were made.
    pub(crate) keys: Vec<Key>,
    pub ghost kept: { IsKept (R.told keeper) registry },
}

impl<R: Keeper + Drop> PlainHub<R> {
    ghost use Rattle.ra_hub.specs.Keeping.{Keeps, Calls, keeper_of, registry_of};
    ghost use Rattle.ra_hub.specs.Standing.{StandsForHub};

    /// Ends the hub, and gives its keeper back.
    pub fn into_keeper(self) -> R
        ensures keeper { result ≡ keeper_of self }
        ensures kept { IsKept (R.told result) (registry_of self) }
    {
        self.keeper
    }

    /// Judges a request that makes no session: a reconnection, or one whose session is there.
    fn admit_known(&mut self, alloc: Global, ask: Request, now: Moment) -> Result<Seat, HubFault>
        requires kind { ask.kind ≢ Some kinds.Tunnel }
        requires known { (ask.reconnection || is_some (get key_cmp self.old.sessions (admission.key_of ask))) ≡ true }
        ensures told { (h : hubs.Hub) → StandsForHub self.old.registry self.old.sessions self.old.keys.items h
            → Admits h ask now result (StandsForHub self.new.registry self.new.sessions self.new.keys.items) }
        ensures given { IfOk result (λ seat. Gives seat (λ s. unspent s self.old.registry.history) (λ s. unspent s self.new.registry.history)) }
        ensures seated { IfOk result (λ seat. 0 < unspent seat self.new.registry.history) }
        ensures not_given { OnErr result (Stay (λ s. unspent s self.old.registry.history) (λ s. unspent s self.new.registry.history)) }
        ensures cause { HasKeepCause (R.faults self.old.keeper) (R.faults self.new.keeper) result }
        ensures fault { IfErr result IsOfAdmission }
        ensures record { Keeps result now (R.told self.old.keeper) (R.told self.new.keeper) }
        ensures called { Calls result (R.calls self.old.keeper) (R.calls self.new.keeper) }
    {
        let seat = self.registry.admit(alloc, &mut self.keeper, ask, now)?;
        Ok(seat)
    }

    /// Judges a request for a new session. Its session is made before, since that may take memory, and is taken out again where the
    /// request is not admitted.
    fn admit_new(
        &mut self,
        alloc: Global,
        key: Key,
        ask: Request,
        now: Moment,
    ) -> Result<Seat, HubFault>
        requires kind { ask.kind ≢ Some kinds.Tunnel }
        requires new { ask.reconnection ≡ false }
        requires key { key ≡ admission.key_of ask }
        requires unknown { get key_cmp self.old.sessions key ≡ None }
        ensures told { (h : hubs.Hub) → StandsForHub self.old.registry self.old.sessions self.old.keys.items h
            → Admits h ask now result (StandsForHub self.new.registry self.new.sessions self.new.keys.items) }
        ensures given { IfOk result (λ seat. Gives seat (λ s. unspent s self.old.registry.history) (λ s. unspent s self.new.registry.history)) }
        ensures seated { IfOk result (λ seat. 0 < unspent seat self.new.registry.history) }
        ensures not_given { OnErr result (Stay (λ s. unspent s self.old.registry.history) (λ s. unspent s self.new.registry.history)) }
        ensures cause { HasKeepCause (R.faults self.old.keeper) (R.faults self.new.keeper) result }
        ensures fault { IfErr result IsOfAdmission }
        ensures record { Keeps result now (R.told self.old.keeper) (R.told self.new.keeper) }
        ensures called { Calls result (R.calls self.old.keeper) (R.calls self.new.keeper) }
    {
        self.keys.reserve(1)?;
        add_session(&mut self.sessions, alloc, &key, now)?;
        match self.registry.admit(alloc, &mut self.keeper, ask, now) {
            Ok(seat) => {
                self.keys.push(key).unwrap();
                Ok(seat)
            }
            Err(fault) => {
                remove_session(&mut self.sessions, &key);
                Err(HubFault::from(fault))
            }
        }
    }
}

impl<R: Keeper + Drop> Hub for PlainHub<R> {
    ghost use Rattle.ra_hub.specs.Keeping.{Keeps, Calls, Stands, registry_of, keeper_of, seats_of};

    ghost stands = { λ hub h. Stands hub h };

    ghost seats = { λ hub seat. seats_of hub seat };

    ghost keep_faults = { λ hub. R.faults (keeper_of hub) };

    fn admit(&mut self, alloc: Global, ask: Request, now: Moment) -> Result<Seat, HubFault>
        requires { ask.kind ≢ Some kinds.Tunnel }
        ensures told { (h : hubs.Hub) → Stands self.old h → Admits h ask now result (Stands self.new) }
        ensures given { IfOk result (λ seat. Gives seat (seats_of self.old) (seats_of self.new)) }
        ensures seated { IfOk result (λ seat. 0 < seats_of self.new seat) }
        ensures not_given { OnErr result (Stay (seats_of self.old) (seats_of self.new)) }
        ensures fault { IfErr result IsOfAdmission }
        ensures cause { HasKeepCause (R.faults (keeper_of self.old)) (R.faults (keeper_of self.new)) result }
        // the keeper gets the record of an acceptance, and of no other answer
        ensures record { Keeps result now (R.told (keeper_of self.old)) (R.told (keeper_of self.new)) }
        ensures called { Calls result (R.calls (keeper_of self.old)) (R.calls (keeper_of self.new)) }
        ensures kept { IsKept (R.told (keeper_of self.new)) (registry_of self.new) }
    {
        let key = key_of(&ask);
        if ask.reconnection || self.sessions.contains_key(&key) {
            self.admit_known(alloc, ask, now)
        } else {
            self.admit_new(alloc, key, ask, now)
        }
    }

    fn attach(
        &mut self,
        alloc: Global,
        seat: &Seat,
        chunk: &[u8],
        now: Moment,
    ) -> Result<(), HubFault>
        requires { 0 < seats_of self.old seat.now }
        ensures told { (h : hubs.Hub) → Stands self.old h → Attaches h seat.now chunk.now now result (Stands self.new) }
        ensures fault { IfErr result IsOfAttach }
        ensures seats { Stay (seats_of self.old) (seats_of self.new) }
        ensures kept { keeper_of self.new ≡ keeper_of self.old }
    {
        attach_at(&mut self.sessions, alloc, seat, chunk, now)?;
        Ok(())
    }

    fn turn(
        &mut self,
        alloc: Global,
        seat: &Seat,
        piece: &[u8],
        now: Moment,
    ) -> Result<Turn, HubFault>
        requires { 0 < seats_of self.old seat.now }
        ensures told { (h : hubs.Hub) → Stands self.old h → Turns h seat.now piece.now now result (Stands self.new) }
        ensures fits { IfOk result TurnFits }
        ensures fault { IfErr result IsOfTurn }
        ensures seats { Stay (seats_of self.old) (seats_of self.new) }
        ensures kept { keeper_of self.new ≡ keeper_of self.old }
    {
        let turn = turn_at(&mut self.sessions, alloc, seat, piece, now)?;
        Ok(turn)
    }

    fn tell(&mut self, alloc: Global, key: &Key, tell: Tell, now: Moment) -> Result<(), HubFault>
        requires { TellFits tell }
        ensures told { (h : hubs.Hub) → Stands self.old h → Tells h key.now tell now result (Stands self.new) }
        ensures fault { IfErr result IsOfKey }
        ensures seats { Stay (seats_of self.old) (seats_of self.new) }
        ensures kept { keeper_of self.new ≡ keeper_of self.old }
    {
        if !self.sessions.contains_key(key) {
            return Err(tell_nobody(&mut self.registry, key, now));
        }
        tell_at(&mut self.sessions, alloc, key, tell, now)?;
        Ok(())
    }

    fn lost(&mut self, seat: Seat, now: Moment)
        requires { 0 < seats_of self.old seat }
        ensures told { (h : hubs.Hub) → Stands self.old h → Loses h seat now (Stands self.new) }
        ensures spent { Spends seat (seats_of self.old) (seats_of self.new) }
        ensures kept { keeper_of self.new ≡ keeper_of self.old }
    {
        lose_at(&mut self.sessions, &seat);
        self.registry.lost(seat, now);
    }

    fn close(&mut self, seat: Seat, cause: Cause, now: Moment)
        requires { 0 < seats_of self.old seat }
        ensures told { (h : hubs.Hub) → Stands self.old h → Closes h seat cause now (Stands self.new) }
        ensures spent { Spends seat (seats_of self.old) (seats_of self.new) }
        ensures kept { keeper_of self.new ≡ keeper_of self.old }
    {
        end_closed(&self.registry, &mut self.sessions, &seat, cause);
        self.registry.close(seat, cause, now);
    }

    fn tick(&mut self, alloc: Global, now: Moment) -> Swept
        ensures told { (h : hubs.Hub) → Stands self.old h
            → (after : hubs.Hub) × Stands self.new after × IsSwept h now result.expired result.short after }
        ensures seats { Stay (seats_of self.old) (seats_of self.new) }
        ensures kept { keeper_of self.new ≡ keeper_of self.old }
    {
        let expired = expire(&mut self.registry, &mut self.sessions, now);
        forget_ended(&mut self.keys, &self.sessions);
        let short = tick_all(&mut self.sessions, alloc, self.keys.as_slice(), now);
        Swept { expired, short }
    }
}
