//! One caller of the hub that threads share.
ghost use Rattle.std.specs.Prelude.{◌≡◌, ◌≢◌, ◌<◌, ◌≤◌, ◌++◌, ◌∷◌, [], Option, Some, None, true, vec_len, IfOk, IfErr, OnOk, OnErr, MatchOption};
ghost use Rattle.std.specs.Vec.{vec_capacity};
ghost use Rattle.ra_base.specs.declared.key.Seat.{Seat};
ghost use Rattle.ra_base.specs.declared.kind.Kind.TheVariants as kinds;
ghost use Rattle.ra_hub.specs.Faults.{IsOfAdmission, IsOfAttach, IsOfTurn, IsOfKey};
ghost use Rattle.ra_hub.specs.HubSeats.{Gives, Spends, Stay};
ghost use Rattle.ra_hub.specs.KeepCauses.{HasKeepCause};
ghost use Rattle.ra_keep.specs.Causes.{next_count};
ghost use Rattle.ra_locked.specs.HandleSeats.{held_of, attached_of};
ghost use Rattle.ra_locked.specs.Receipts.{Gains, entry_of};
ghost use Rattle.ra_registry.specs.declared.past.Did.TheVariants as dids;
ghost use Rattle.ra_session.specs.View.{TellFits, TurnFits};
ghost use Rattle.ra_shared.specs.HandleCalls.{HasReceipt, AttachLeaves, TurnLeaves, TellLeaves};

use crate::answers::{KeptAnswer, Told, told_of, told_of_attach, told_of_turn};
use crate::session::SharedSession;
use ra_base::{Cause, Key, Moment, Request, Seat};
use ra_hub::{Hub, HubFault, Swept};
use ra_keep::Keeper;
use ra_locked::held::{is_attached, place_of, set_attached};
use ra_locked::{Missing, RegistryHandle};
use ra_session::{SessionFault, Tell, Turn};
use std::alloc::Global;
use std::sync::Wait;
use std::sync::ledger::Ledger;

/// One caller of the hub that threads share. It keeps a receipt of each entry that its calls added, and each answer of a session that the
/// session's last state has to bear out.
#[derive(Drop)]
pub struct HubHandle<R: Wait, K: Keeper + Drop, L: Ledger> {
    /// Its seats that are not spent, its receipts, and its part of the registry.
    pub registry: RegistryHandle<R, K, SharedSession, L>,
    /// The oldest first.
    pub answers: Vec<KeptAnswer>,
    /// How many calls it made under the lock of a session. It stays at 2^64 - 1.
    pub steps: u64,
}

/// What is told of a key whose session ended before the hub started.
const STOPPED: SessionFault = SessionFault::Ended {
    cause: Cause::Stopped,
};

/// Keeps an answer, where it is one that is kept. There is room for it.
fn keep(answers: &mut Vec<KeptAnswer>, key: &Key, told: Option<Told>)
    requires { vec_len answers.old < vec_capacity answers.old }
    ensures { MatchOption told (answers.new.items ≡ answers.old.items) (λ t. answers.new.items ≡ answers.old.items ++ record { key = key.now; told = t } ∷ []) }
{
    if let Some(told) = told {
        answers.push_reserved(KeptAnswer {
            key: key.same(),
            told,
        });
    }
}

/// A session sees the moment. False where it found no memory.
fn sees<R: Wait>(rt: &R, session: &Option<SharedSession>, alloc: Global, now: Moment) -> bool {
    match session {
        Some(session) => session.tick(rt, alloc, now),
        None => false,
    }
}

impl<R: Wait, K: Keeper + Drop, L: Ledger> Hub for HubHandle<R, K, L> {
    // what other threads do meanwhile it can't tell
    ghost stands = { λ handle h. ⊥ };

    ghost seats = { λ handle seat. held_of seat handle.registry.held.items };

    ghost keep_faults = { λ handle. handle.registry.keep_faults };

    fn admit(&mut self, alloc: Global, ask: Request, now: Moment) -> Result<Seat, HubFault>
        requires { ask.kind ≢ Some kinds.Tunnel }
        ensures given { IfOk result (λ seat. Gives seat (λ s. held_of s self.old.registry.held.items) (λ s. held_of s self.new.registry.held.items)) }
        ensures seated { IfOk result (λ seat. 0 < held_of seat self.new.registry.held.items) }
        ensures not_given { OnErr result (Stay (λ s. held_of s self.old.registry.held.items) (λ s. held_of s self.new.registry.held.items)) }
        ensures fault { IfErr result IsOfAdmission }
        ensures cause { HasKeepCause self.old.registry.keep_faults self.new.registry.keep_faults result }
        ensures receipt { HasReceipt ask now result self.old.registry.receipts.items self.new.registry.receipts.items }
        ensures steps { self.new.steps ≡ self.old.steps }
        ensures answers { self.new.answers.items ≡ self.old.answers.items }
    {
        let seat = self.registry.admit(alloc, ask, now)?;
        Ok(seat)
    }

    fn attach(
        &mut self,
        alloc: Global,
        seat: &Seat,
        chunk: &[u8],
        now: Moment,
    ) -> Result<(), HubFault>
        requires { 0 < held_of seat.now self.old.registry.held.items }
        ensures fault { IfErr result IsOfAttach }
        ensures called { AttachLeaves seat.now chunk.now now result (record { steps = self.old.steps; answers = self.old.answers.items }) (record { steps = self.new.steps; answers = self.new.answers.items }) }
        ensures attached { OnOk result (attached_of seat.now self.new.registry.held.items ≡ true) }
        ensures receipts { self.new.registry.receipts.items ≡ self.old.registry.receipts.items }
        ensures seats { Stay (λ s. held_of s self.old.registry.held.items) (λ s. held_of s self.new.registry.held.items) }
        ensures kept { self.new.registry.keep_faults ≡ self.old.registry.keep_faults }
    {
        let HubHandle {
            registry,
            answers,
            steps,
        } = self;
        answers.reserve(1)?;
        let at = place_of(registry.held.as_slice(), seat);
        *steps = steps.saturating_add(1);
        let session = &registry.held[at].session;
        match session.attach(&registry.rt, alloc, seat.epoch, chunk, now) {
            Ok(()) => {
                set_attached(registry.held.as_mut_slice(), seat);
                Ok(())
            }
            Err(fault) => {
                keep(answers, &seat.key, told_of_attach(&fault, seat.epoch));
                Err(HubFault::Session { fault })
            }
        }
    }

    fn turn(
        &mut self,
        alloc: Global,
        seat: &Seat,
        piece: &[u8],
        now: Moment,
    ) -> Result<Turn, HubFault>
        requires { 0 < held_of seat.now self.old.registry.held.items }
        ensures fits { IfOk result TurnFits }
        ensures fault { IfErr result IsOfTurn }
        ensures called { TurnLeaves seat.now (attached_of seat.now self.old.registry.held.items) piece.now now result (record { steps = self.old.steps; answers = self.old.answers.items }) (record { steps = self.new.steps; answers = self.new.answers.items }) }
        ensures receipts { self.new.registry.receipts.items ≡ self.old.registry.receipts.items }
        ensures seats { Stay (λ s. held_of s self.old.registry.held.items) (λ s. held_of s self.new.registry.held.items) }
        ensures kept { self.new.registry.keep_faults ≡ self.old.registry.keep_faults }
    {
        let HubHandle {
            registry,
            answers,
            steps,
        } = self;
        answers.reserve(1)?;
        let at = place_of(registry.held.as_slice(), seat);
        *steps = steps.saturating_add(1);
        let session = &registry.held[at].session;
        match session.turn(&registry.rt, alloc, seat.epoch, piece, now) {
            Ok(turn) => Ok(turn),
            Err(fault) => {
                let attached = is_attached(registry.held.as_slice(), seat);
                keep(
                    answers,
                    &seat.key,
                    told_of_turn(&fault, seat.epoch, attached),
                );
                Err(HubFault::Session { fault })
            }
        }
    }

    fn tell(&mut self, alloc: Global, key: &Key, tell: Tell, now: Moment) -> Result<(), HubFault>
        requires { TellFits tell }
        ensures fault { IfErr result IsOfKey }
        ensures called { TellLeaves key.now tell now result (record { steps = self.old.steps; answers = self.old.answers.items }) (record { steps = self.new.steps; answers = self.new.answers.items }) self.old.registry.receipts.items self.new.registry.receipts.items }
        ensures seats { Stay (λ s. held_of s self.old.registry.held.items) (λ s. held_of s self.new.registry.held.items) }
        ensures kept { self.new.registry.keep_faults ≡ self.old.registry.keep_faults }
    {
        let HubHandle {
            registry,
            answers,
            steps,
        } = self;
        answers.reserve(1)?;
        let session = match registry.find_session(key, now) {
            Ok(Some(session)) => session,
            Ok(None) => {
                keep(answers, key, told_of(&STOPPED));
                return Err(HubFault::Session { fault: STOPPED });
            }
            Err(Missing::NoRow) => return Err(HubFault::NoSession),
            Err(Missing::NoMemory) => return Err(HubFault::NoMemory),
        };
        *steps = steps.saturating_add(1);
        match session.tell(&registry.rt, alloc, tell, now) {
            Ok(()) => Ok(()),
            Err(fault) => {
                keep(answers, key, told_of(&fault));
                Err(HubFault::Session { fault })
            }
        }
    }

    fn lost(&mut self, seat: Seat, now: Moment)
        requires { 0 < held_of seat self.old.registry.held.items }
        ensures spent { Spends seat (λ s. held_of s self.old.registry.held.items) (λ s. held_of s self.new.registry.held.items) }
        ensures receipt { Gains (entry_of seat.key now (dids.Lost seat.epoch)) self.old.registry.receipts.items self.new.registry.receipts.items }
        ensures steps { self.new.steps ≡ next_count self.old.steps }
        ensures answers { self.new.answers.items ≡ self.old.answers.items }
        ensures kept { self.new.registry.keep_faults ≡ self.old.registry.keep_faults }
    {
        self.steps = self.steps.saturating_add(1);
        self.registry.lost(seat, now);
    }

    fn close(&mut self, seat: Seat, cause: Cause, now: Moment)
        requires { 0 < held_of seat self.old.registry.held.items }
        ensures spent { Spends seat (λ s. held_of s self.old.registry.held.items) (λ s. held_of s self.new.registry.held.items) }
        ensures receipt { Gains (entry_of seat.key now (dids.Closed seat.epoch cause)) self.old.registry.receipts.items self.new.registry.receipts.items }
        ensures steps { self.new.steps ≡ next_count self.old.steps }
        ensures answers { self.new.answers.items ≡ self.old.answers.items }
        ensures kept { self.new.registry.keep_faults ≡ self.old.registry.keep_faults }
    {
        self.steps = self.steps.saturating_add(1);
        self.registry.close(seat, cause, now);
    }

    fn tick(&mut self, alloc: Global, now: Moment) -> Swept
        ensures receipts { self.new.registry.receipts.items ≡ self.old.registry.receipts.items }
        ensures answers { self.new.answers.items ≡ self.old.answers.items }
        ensures seats { Stay (λ s. held_of s self.old.registry.held.items) (λ s. held_of s self.new.registry.held.items) }
        ensures kept { self.new.registry.keep_faults ≡ self.old.registry.keep_faults }
    {
        let HubHandle {
            registry,
            answers: _,
            steps,
        } = self;
        let (expired, count) = registry.expire(now);
        *steps = steps.saturating_add(expired);
        let mut short = 0u64;
        for at in 0..count {
            let session = registry.session_at(at);
            if !sees(&registry.rt, &session, alloc, now) {
                short = short.saturating_add(1);
            }
            *steps = steps.saturating_add(1);
        }
        Swept { expired, short }
    }
}
