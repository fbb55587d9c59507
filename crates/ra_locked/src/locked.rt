//! The registry under its lock: with its keeper, the sessions, and how many entries the callers have added to its history.
ghost use Rattle.std.specs.Prelude.{◌≡◌, ◌≢◌, ◌<◌, ◌≤◌, ◌+◌, [], Some, None, IfOk, IfErr, OnOk, OnErr, length, true, is_some, option_map};
ghost use Rattle.ra_base.specs.declared.kind.Kind.TheVariants as kinds;
ghost use Rattle.ra_keep.specs.Causes.{TellsOnly, next_count};
ghost use Rattle.ra_registry.specs.Admission as admission;
ghost use Rattle.ra_registry.specs.KeptRecords.{IsKept};
ghost use Rattle.ra_registry.specs.Legal.{IsLegal};
ghost use Rattle.ra_registry.specs.declared.past.Did.TheVariants as dids;
ghost use Rattle.ra_registry.specs.Rows.{row_of};
ghost use Rattle.ra_registry.specs.Expiry.{Expires};
ghost use Rattle.ra_registry.specs.RowChanges as changes;
ghost use Rattle.ra_locked.specs.LockedStates.{Starts, StartsNot};
ghost use Rattle.ra_locked.specs.Receipts.{calls, entry_of};
ghost use Rattle.ra_locked.specs.SharedCalls.{AdmitsOne, Adds, Ends, closes, with_registry};

use crate::answer::Answer;
use crate::fault::StartFault;
use crate::receipt::{Receipt, last_receipt};
use crate::seats::{same_seat, take_seat};
use crate::session::SessionHandle;
use ra_base::{Cause, Key, Kind, Moment, NoMemory, Request, Seat};
use ra_keep::{KeepFault, Keeper};
use ra_registry::{AdmitFault, Did, Past, Registry, RegistryParts, Row, RowState};
use std::alloc::Global;
use std::collections::BTreeMap;
use std::marker::Model;
use std::sync::ledger::{Book, Ledger, Share};

/// The registry, its keeper, the sessions by key, and the ledger of the entries that callers have added. A contract sees it as its
/// registry, and how often it answered that the keeper failed.
#[derive(Drop)]
pub struct Locked<K: Keeper + Drop, X: SessionHandle, L: Ledger> {
    registry: Registry,
    keeper: K,
    failed: u64,
    sessions: BTreeMap<Key, X>,
    /// The keys of the sessions, in the order in which these were made.
    keys: Vec<Key>,
    /// The seats that are not spent.
    seats: Vec<Seat>,
    entries: Book<L>,
}

/// What a registry under its lock held.
#[derive(Drop)]
pub struct LockedParts<K: Keeper + Drop, X: SessionHandle> {
    pub registry: RegistryParts,
    pub keeper: K,
    /// How often it answered that the keeper failed.
    pub failed: u64,
    pub sessions: BTreeMap<Key, X>,
}

impl<K: Keeper + Drop, X: SessionHandle, L: Ledger> Model for Locked<K, X, L> {
    ghost use Rattle.ra_locked.specs.LockedStates.{LockedState, IsConsistent};

    ghost Value = { LockedState };

    ghost view = { λ l. record { registry = l.registry; failed = l.failed } };

    ghost invariant = { λ l. IsConsistent l.registry (K.told l.keeper) (K.faults l.keeper) l.failed l.entries.total l.seats.items };
}

/// Whether a row is not closed.
fn is_open(state: RowState) -> bool
    ensures { result ≡ changes.is_open_state state }
{
    match state {
        RowState::Up | RowState::Lost { .. } => true,
        RowState::Closed { .. } => false,
    }
}

/// Whether a close with this epoch closes the row.
fn closes(row: Option<Row>, epoch: u64) -> bool
    ensures { result ≡ closes epoch row }
{
    match row {
        Some(row) => row.epoch == epoch && is_open(row.state),
        None => false,
    }
}

/// The receipt of an end that was not entered.
fn unplaced(key: Key, now: Moment, did: Did) -> Receipt
    ensures { result.past ≡ entry_of key now did }
{
    Receipt {
        place: u64::MAX,
        past: Past {
            at: now.millis(),
            key,
            did,
        },
    }
}

/// The session that a request is about.
fn key_of(ask: &Request) -> Key
    ensures { result ≡ admission.key_of ask.now }
{
    Key {
        kind: ask.kind.unwrap_or(Kind::Management),
        token: ask.token.same(),
    }
}

/// The session of a key: the one that is there, or a new one, which is put in.
fn session_of<X: SessionHandle>(
    alloc: Global,
    sessions: &mut BTreeMap<Key, X>,
    keys: &mut Vec<Key>,
    key: &Key,
    now: Moment,
) -> Result<X, NoMemory> {
    if let Some(session) = sessions.get(key) {
        return session.again();
    }
    keys.reserve(1)?;
    let session = X::begin(alloc, key.kind, now)?;
    let same = session.again()?;
    sessions.insert(key.same(), session)?;
    keys.push_reserved(key.same());
    Ok(same)
}

/// Takes the session of a new key out again, where its request was refused.
fn settle_session<X: SessionHandle>(
    sessions: &mut BTreeMap<Key, X>,
    keys: &mut Vec<Key>,
    key: &Key,
    is_new: bool,
    is_refused: bool,
) {
    if is_new && is_refused {
        sessions.remove(key);
        keys.pop();
    }
}

impl<K: Keeper + Drop, X: SessionHandle, L: Ledger> Locked<K, X, L> {
    /// A registry that starts from the records of a keeper. They stay those that the keeper tells, with those of the history behind them.
    pub fn start(
        alloc: Global,
        mut keeper: K,
        entries: Book<L>,
        long_grace: u64,
        short_grace: u64,
    ) -> Result<Locked<K, X, L>, StartFault<K>>
        requires { entries.total ≡ 0 }
        ensures started { IfOk result (λ locked. Starts long_grace short_grace locked) }
        ensures not { IfErr result (λ fault. StartsNot K.told K.calls K.faults keeper fault) }
    {
        let records = match keeper.all(alloc) {
            Ok(records) => records,
            Err(fault) => return Err(StartFault { keeper, fault }),
        };
        match Registry::from_records(alloc, long_grace, short_grace, records.as_slice()) {
            Ok(registry) => Ok(Locked {
                registry,
                keeper,
                failed: 0,
                sessions: BTreeMap::new(alloc),
                keys: Vec::new(alloc),
                seats: Vec::new(alloc),
                entries,
            }),
            Err(_) => Err(StartFault {
                keeper,
                fault: KeepFault::NoMemory,
            }),
        }
    }

    /// Whether a key has a session.
    pub fn has_session(&self, key: &Key) -> bool {
        self.sessions.contains_key(key)
    }

    /// The session of a key.
    pub fn session(&self, key: &Key) -> Option<&X> {
        self.sessions.get(key)
    }

    /// How many sessions there are.
    pub fn session_count(&self) -> usize {
        self.keys.len()
    }

    /// The session of this place.
    pub fn session_at(&self, at: usize) -> Option<&X> {
        let key = self.keys.get(at)?;
        self.sessions.get(key)
    }

    /// The history.
    pub fn history(&self) -> &[Past]
        ensures value { result.now ≡ self.now.registry.history }
        ensures legal { IsLegal self.now.registry }
    {
        self.registry.history()
    }

    /// Judges a request, and admits it where no reason is against it.
    pub fn admit(
        &mut self,
        alloc: Global,
        ask: Request,
        now: Moment,
        mine: &mut Share<L>,
    ) -> Answer<X>
        requires kind { ask.kind ≢ Some kinds.Tunnel }
        requires part { 0 < mine.old.parts }
        ensures answered { AdmitsOne self.old ask now result self.new mine.old.amount mine.new.amount }
        ensures parts { mine.new.parts ≡ mine.old.parts }
    {
        if self.seats.reserve(1).is_err() {
            return Answer::NoMemory;
        }
        let key = key_of(&ask);
        let is_new = !self.sessions.contains_key(&key);
        let Ok(session) = session_of(alloc, &mut self.sessions, &mut self.keys, &key, now) else {
            return Answer::NoMemory;
        };
        let place = self.registry.history().len();
        let answer = self.registry.admit(alloc, &mut self.keeper, ask, now);
        let is_refused = answer.is_err();
        settle_session(&mut self.sessions, &mut self.keys, &key, is_new, is_refused);
        match answer {
            Ok(seat) => {
                self.seats.push_reserved(same_seat(&seat));
                self.entries.add(mine, 1);
                let receipt = last_receipt(&self.registry, place);
                Answer::Given {
                    seat,
                    session,
                    receipt,
                }
            }
            Err(fault) => match fault {
                AdmitFault::Refused { reason } => {
                    self.entries.add(mine, 1);
                    let receipt = last_receipt(&self.registry, place);
                    Answer::Refused { reason, receipt }
                }
                AdmitFault::KeepFault => {
                    self.failed = self.failed.saturating_add(1);
                    Answer::KeepFault
                }
                AdmitFault::NoMemory => Answer::NoMemory,
            },
        }
    }

    /// Enters that the link of a seat was lost, and tells whether it did. It did not where the seat is spent or was never given: the
    /// receipt then has the place 2^64 - 1, at which no history has an entry.
    pub fn lose(&mut self, seat: Seat, now: Moment, mine: &mut Share<L>) -> (Receipt, bool)
        requires { 0 < mine.old.parts }
        ensures ended { Ends seat (entry_of seat.key now (dids.Lost seat.epoch)) self.old result.0 result.1 self.new mine.old.amount mine.new.amount }
        ensures parts { mine.new.parts ≡ mine.old.parts }
    {
        let place = self.registry.history().len();
        if !take_seat(&mut self.seats, &seat) {
            let Seat { key, epoch } = seat;
            return (unplaced(key, now, Did::Lost { epoch }), false);
        }
        self.registry.lost(seat, now);
        self.entries.add(mine, 1);
        (last_receipt(&self.registry, place), true)
    }

    /// Enters that the session of a seat has ended, and tells whether it did, as `lose` does.
    pub fn close(
        &mut self,
        seat: Seat,
        cause: Cause,
        now: Moment,
        mine: &mut Share<L>,
    ) -> (Receipt, bool)
        requires { 0 < mine.old.parts }
        ensures ended { Ends seat (entry_of seat.key now (dids.Closed seat.epoch cause)) self.old result.0 result.1 self.new mine.old.amount mine.new.amount }
        ensures parts { mine.new.parts ≡ mine.old.parts }
    {
        let place = self.registry.history().len();
        if !take_seat(&mut self.seats, &seat) {
            let Seat { key, epoch } = seat;
            return (unplaced(key, now, Did::Closed { epoch, cause }), false);
        }
        self.registry.close(seat, cause, now);
        self.entries.add(mine, 1);
        (last_receipt(&self.registry, place), true)
    }

    /// Whether a close of this seat closes its row.
    pub fn would_close(&self, seat: &Seat) -> bool
        ensures { result ≡ closes seat.now.epoch (row_of self.now.registry seat.now.key) }
    {
        closes(self.registry.row(&seat.key), seat.epoch)
    }

    /// Whether a key has a row.
    pub fn has_row(&self, key: &Key) -> bool
        ensures { result ≡ is_some (row_of self.now.registry key.now) }
    {
        self.registry.row(key).is_some()
    }

    /// Enters that something was told to a key without a row.
    pub fn miss(&mut self, key: &Key, now: Moment, mine: &mut Share<L>) -> Result<Receipt, NoMemory>
        requires row { row_of self.old.registry key.now ≡ None }
        requires part { 0 < mine.old.parts }
        ensures missed { IfOk result (λ r. Adds r (entry_of key.now now dids.Missed) self.old self.new) }
        ensures counted { OnOk result (mine.new.amount ≡ mine.old.amount + 1) }
        ensures same { OnErr result ((self.new ≡ self.old) × (mine.new.amount ≡ mine.old.amount)) }
        ensures parts { mine.new.parts ≡ mine.old.parts }
    {
        let place = self.registry.history().len();
        self.registry.miss(key, now)?;
        self.entries.add(mine, 1);
        Ok(last_receipt(&self.registry, place))
    }

    /// The rows whose grace is over expire. Answers how many these are.
    pub fn expire(&mut self, now: Moment) -> u64
        ensures expired { Expires self.old.registry now result self.new.registry }
        ensures kept { self.new.failed ≡ self.old.failed }
    {
        self.registry.expire(now)
    }

    /// The number of the entries that calls added is the amount of the share with every part.
    pub fn audit(&mut self, all: &mut Share<L>)
        requires { all.old.parts ≡ L.parts }
        ensures same { self.new ≡ self.old }
        ensures counted { calls self.new.registry.history ≡ all.new.amount }
        ensures amount { all.new.amount ≡ all.old.amount }
    {
        self.entries.audit(all);
    }

    /// How often it answered that the keeper failed. The number stays at 2^64 - 1.
    pub fn failed(&self) -> u64
        ensures { result ≡ self.now.failed }
    {
        self.failed
    }

    /// Ends it, and gives what it held. Where the keeper tells, its list is the start records and those of the history.
    pub fn into_parts(self) -> LockedParts<K, X>
        ensures registry { self.registry ≡ record {
          long_grace = result.registry.long_grace;
          short_grace = result.registry.short_grace;
          start = result.registry.start.items;
          history = result.registry.history.items;
        } }
        ensures legal { IsLegal self.registry }
        ensures kept { IsKept (K.told result.keeper) self.registry }
        ensures failed { (result.failed ≡ self.failed) × (result.failed ≤ K.faults result.keeper) }
    {
        let Locked {
            registry,
            keeper,
            failed,
            sessions,
            keys: _,
            seats: _,
            entries: _,
        } = self;
        LockedParts {
            registry: registry.into_parts(),
            keeper,
            failed,
            sessions,
        }
    }
}
