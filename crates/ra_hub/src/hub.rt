//! The trait of a hub: all sessions of a server.
ghost use Rattle.std.specs.Prelude.{◌≡◌, ◌≢◌, ℕ, ◌<◌, ◌≤◌, Some, IfOk, IfErr, OnErr};
ghost use Rattle.ra_base.specs.declared.key.Seat.{Seat};
ghost use Rattle.ra_base.specs.declared.kind.Kind.TheVariants as kinds;
ghost use Rattle.ra_session.specs.View.{TellFits, TurnFits};
ghost use Rattle.ra_hub.specs.Faults.{IsOfAdmission, IsOfAttach, IsOfTurn, IsOfKey};
ghost use Rattle.ra_hub.specs.Hubs as hubs;
ghost use Rattle.ra_hub.specs.HubCalls.{Admits, Attaches, Turns, Tells, Loses, Closes};
ghost use Rattle.ra_hub.specs.HubSeats.{Gives, Spends, Stay};
ghost use Rattle.ra_hub.specs.KeepCauses.{HasKeepCause};
ghost use Rattle.ra_hub.specs.Sweeps.{IsSwept};

use crate::fault::HubFault;
use ra_base::{Cause, Key, Moment, Request, Seat};
use ra_session::{Tell, Turn};
use std::alloc::Global;

/// What a tick did.
#[derive(Clone, Copy, Debug, PartialEq, Eq)]
pub struct Swept {
    /// How many rows expired.
    pub expired: u64,
    /// How many sessions found no memory, and are as before. None of them has ended or lacks ids for its answers.
    pub short: u64,
}

/// All sessions of a server. A hub may tell what it holds.
///
/// A call that answers `NoMemory` leaves all as it was, and so does one that answers another refusal, but for three: a refused request
/// has an entry and shortens the grace of lost sessions, a bad message ends its session, and a `tell` that finds no session has an entry.
pub trait Hub {
    // The hubs that it stands for: none where it does not tell.
    ghost stands: { Self → hubs.Hub → Type 0 };

    // How many seats of this key and epoch it gave that are not spent.
    ghost seats: { Self → Seat → ℕ };

    // How often a record was not kept. A counter of 64 bits stays at its last value.
    ghost keep_faults: { Self → ℕ };

    /// Judges a request that has passed its handshake, and admits it where no reason is against it. A new session is made for one that
    /// is no reconnection.
    fn admit(&mut self, alloc: Global, ask: Request, now: Moment) -> Result<Seat, HubFault>
        requires { ask.kind ≢ Some kinds.Tunnel }
        ensures told { (h : hubs.Hub) → stands self.old h → Admits h ask now result (stands self.new) }
        ensures given { IfOk result (λ seat. Gives seat (seats self.old) (seats self.new)) }
        ensures seated { IfOk result (λ seat. 0 < seats self.new seat) }
        ensures not_given { OnErr result (Stay (seats self.old) (seats self.new)) }
        ensures fault { IfErr result IsOfAdmission }
        ensures cause { HasKeepCause (keep_faults self.old) (keep_faults self.new) result };

    /// A link begins at the session of this seat, with the bytes that were read of it.
    fn attach(
        &mut self,
        alloc: Global,
        seat: &Seat,
        chunk: &[u8],
        now: Moment,
    ) -> Result<(), HubFault>
        requires { 0 < seats self.old seat.now }
        ensures told { (h : hubs.Hub) → stands self.old h → Attaches h seat.now chunk.now now result (stands self.new) }
        ensures fault { IfErr result IsOfAttach }
        ensures seats { Stay (seats self.old) (seats self.new) }
        ensures kept { keep_faults self.new ≡ keep_faults self.old };

    /// Bytes come over the link of this seat, and one frame is applied. Every value that is handed out can be written.
    fn turn(
        &mut self,
        alloc: Global,
        seat: &Seat,
        piece: &[u8],
        now: Moment,
    ) -> Result<Turn, HubFault>
        requires { 0 < seats self.old seat.now }
        ensures told { (h : hubs.Hub) → stands self.old h → Turns h seat.now piece.now now result (stands self.new) }
        ensures fits { IfOk result TurnFits }
        ensures fault { IfErr result IsOfTurn }
        ensures seats { Stay (seats self.old) (seats self.new) }
        ensures kept { keep_faults self.new ≡ keep_faults self.old };

    /// An application answers a call of the session with this key, or its extension host says a message. It needs values that can be
    /// written.
    fn tell(&mut self, alloc: Global, key: &Key, tell: Tell, now: Moment) -> Result<(), HubFault>
        requires { TellFits tell }
        ensures told { (h : hubs.Hub) → stands self.old h → Tells h key.now tell now result (stands self.new) }
        ensures fault { IfErr result IsOfKey }
        ensures seats { Stay (seats self.old) (seats self.new) }
        ensures kept { keep_faults self.new ≡ keep_faults self.old };

    /// The link of this seat was lost. It takes no memory.
    fn lost(&mut self, seat: Seat, now: Moment)
        requires { 0 < seats self.old seat }
        ensures told { (h : hubs.Hub) → stands self.old h → Loses h seat now (stands self.new) }
        ensures spent { Spends seat (seats self.old) (seats self.new) }
        ensures kept { keep_faults self.new ≡ keep_faults self.old };

    /// The session of this seat ends, unless it has a newer link. It takes no memory.
    fn close(&mut self, seat: Seat, cause: Cause, now: Moment)
        requires { 0 < seats self.old seat }
        ensures told { (h : hubs.Hub) → stands self.old h → Closes h seat cause now (stands self.new) }
        ensures spent { Spends seat (seats self.old) (seats self.new) }
        ensures kept { keep_faults self.new ≡ keep_faults self.old };

    /// The sessions whose grace is over end, and then the others see the moment.
    fn tick(&mut self, alloc: Global, now: Moment) -> Swept
        ensures told { (h : hubs.Hub) → stands self.old h
            → (after : hubs.Hub) × stands self.new after × IsSwept h now result.expired result.short after }
        ensures seats { Stay (seats self.old) (seats self.new) }
        ensures kept { keep_faults self.new ≡ keep_faults self.old };
}
