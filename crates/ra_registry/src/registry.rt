//! The registry of sessions: what it holds, and the calls that add one entry each without a keeper.
ghost use Rattle.std.specs.Prelude.{◌≡◌, ℕ, ◌≤◌, [], None, take, OnOk, OnErr};
ghost use Rattle.ra_registry.specs.declared.past.Did.TheVariants as dids;
ghost use Rattle.ra_registry.specs.RegistryStates.{with_entry};

use crate::past::{Did, Past};
use crate::row::{Graces, Row};
use crate::rows::{close_row, forget_closed, lose_row};
use ra_base::{Cause, Key, Moment, NoMemory, Seat};
use ra_keep::Record;
use std::alloc::Global;
use std::collections::{BTreeMap, BTreeSet};
use std::marker::Model;

/// The sessions that were ever admitted, by their history. A contract sees it as its grace times, its start records and its history.
#[derive(Drop)]
pub struct Registry {
    pub(crate) graces: Graces,
    pub(crate) start: Vec<Record>,
    pub(crate) rows: BTreeMap<Key, Row>,
    /// The keys of the rows that are not closed.
    pub(crate) open_keys: BTreeSet<Key>,
    pub(crate) history: Vec<Past>,
    /// The number of entries up to the last request. Rows that were lost before it are shortened.
    pub(crate) shortened_to: usize,
    /// The number of seats that are not spent.
    pub(crate) seats: usize,
}

/// What a registry holds.
#[derive(Drop)]
pub struct RegistryParts {
    pub long_grace: u64,
    pub short_grace: u64,
    pub start: Vec<Record>,
    pub history: Vec<Past>,
}

impl Model for Registry {
    ghost use Rattle.std.specs.Vec.{vec_capacity};
    ghost use Rattle.ra_registry.specs.RegistryStates.{RegistryState};
    ghost use Rattle.ra_registry.specs.Consistent.{IsConsistent};

    ghost Value = { RegistryState };

    ghost view = { λ r. record {
      long_grace = r.graces.long;
      short_grace = r.graces.short;
      start = r.start.items;
      history = r.history.items;
    } };

    ghost invariant = { λ r. IsConsistent (record {
      long_grace = r.graces.long;
      short_grace = r.graces.short;
      start = r.start.items;
      history = r.history.items;
    }) r.rows r.open_keys r.shortened_to r.seats (vec_capacity r.history) };
}

impl Registry {
    ghost use Rattle.ra_registry.specs.Rows.{row_of};
    ghost use Rattle.ra_registry.specs.Seats.{IsUnspent, admissions, endings};
    ghost use Rattle.ra_registry.specs.Legal.{IsLegal};

    /// No sessions. A session can be reconnected until `long_grace` milliseconds after its loss, and until `short_grace` milliseconds
    /// after the first request of any session that followed the loss.
    pub fn new(alloc: Global, long_grace: u64, short_grace: u64) -> Registry
        ensures { result ≡ record { long_grace = long_grace; short_grace = short_grace; start = []; history = [] } }
    {
        Registry {
            graces: Graces {
                long: long_grace,
                short: short_grace,
            },
            start: Vec::new(alloc),
            rows: BTreeMap::new(alloc),
            open_keys: BTreeSet::new(alloc),
            history: Vec::new(alloc),
            shortened_to: 0,
            seats: 0,
        }
    }

    /// The records that the registry started from.
    pub fn start(&self) -> &[Record]
        ensures { result.now ≡ self.now.start }
    {
        self.start.as_slice()
    }

    /// All that happened, the oldest first: an entry for each request, each end of a seat, each expired row and each miss.
    pub fn history(&self) -> &[Past]
        ensures value { result.now ≡ self.now.history }
        ensures legal { IsLegal self.now }
    {
        self.history.as_slice()
    }

    /// Ends the registry, and gives what it held: its grace times, its start records and its history.
    pub fn into_parts(self) -> RegistryParts
        ensures parts { self ≡ record {
          long_grace = result.long_grace;
          short_grace = result.short_grace;
          start = result.start.items;
          history = result.history.items;
        } }
        ensures legal { IsLegal self }
    {
        let Registry {
            graces,
            start,
            rows: _,
            open_keys: _,
            history,
            shortened_to: _,
            seats: _,
        } = self;
        RegistryParts {
            long_grace: graces.long,
            short_grace: graces.short,
            start,
            history,
        }
    }

    /// The row of a session.
    pub fn row(&self, key: &Key) -> Option<Row>
        ensures { result ≡ row_of self.now key.now }
    {
        self.rows.get(key).copied()
    }

    /// The link of this seat, which was given and is not spent, was lost. A row that is up with the seat's epoch is lost. It takes no
    /// memory.
    pub fn lost(&mut self, seat: Seat, now: Moment)
        requires { IsUnspent seat self.old.history }
        ensures lost { self.new ≡ with_entry self.old (record { at = now; key = seat.key; did = dids.Lost seat.epoch }) }
        ensures was_legal { IsLegal self.old }
        ensures legal { IsLegal self.new }
    {
        let Seat { key, epoch } = seat;
        let at = now.millis();
        lose_row(&mut self.rows, &key, epoch, at);
        let did = Did::Lost { epoch };
        self.history.push(Past { at, key, did }).unwrap();
        self.seats -= 1;
    }

    /// The session of this seat, which was given and is not spent, has ended. A row with the seat's epoch that is not closed yet is
    /// closed. It takes no memory.
    pub fn close(&mut self, seat: Seat, cause: Cause, now: Moment)
        requires { IsUnspent seat self.old.history }
        ensures closed { self.new ≡ with_entry self.old (record { at = now; key = seat.key; did = dids.Closed seat.epoch cause }) }
        ensures was_legal { IsLegal self.old }
        ensures legal { IsLegal self.new }
    {
        let Seat { key, epoch } = seat;
        let at = now.millis();
        close_row(&mut self.rows, &key, epoch, cause);
        forget_closed(&self.rows, &mut self.open_keys, &key);
        let did = Did::Closed { epoch, cause };
        self.history.push(Past { at, key, did }).unwrap();
        self.seats -= 1;
    }

    /// Something was told to a session that has no row.
    pub fn miss(&mut self, key: &Key, now: Moment) -> Result<(), NoMemory>
        requires { row_of self.old key.now ≡ None }
        ensures missed { OnOk result (self.new ≡ with_entry self.old (record { at = now; key = key.now; did = dids.Missed })) }
        ensures same { OnErr result (self.new ≡ self.old) }
        ensures was_legal { IsLegal self.old }
        ensures legal { IsLegal self.new }
    {
        let room = self.seats + self.open_keys.len() + 1;
        self.history.reserve(room)?;
        let missed = Past {
            at: now.millis(),
            key: key.same(),
            did: Did::Missed,
        };
        self.history.push(missed).unwrap();
        Ok(())
    }
}
