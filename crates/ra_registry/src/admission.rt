//! Who is admitted: the verdict on a request that has passed its handshake, and its entry.
ghost use Rattle.std.specs.Prelude.{◌≡◌, ◌≢◌, ◌<◌, ◌+◌, ◌^◌, true, false, Some, None, is_some, IfOk, OnOk, OnErr};
ghost use Rattle.ra_base.specs.declared.kind.Kind.TheVariants as kinds;
ghost use Rattle.ra_registry.specs.Admission as spec;
ghost use Rattle.ra_registry.specs.Rows as rows_spec;

use crate::fault::{AdmitFault, not_kept};
use crate::past::{Did, Past};
use crate::registry::Registry;
use crate::row::{self, Row};
use crate::rows::{add_row, enter_request, remove_row, set_row};
use ra_base::{Key, Kind, Moment, NoMemory, Reason, Request, Seat, Token};
use ra_keep::{Keeper, Record};
use std::alloc::Global;

/// The session that a request is about.
fn key_of(ask: &Request) -> Key
    ensures { result ≡ spec.key_of ask.now }
{
    Key {
        kind: ask.kind.unwrap_or(Kind::Management),
        token: ask.token.same(),
    }
}

/// The number of a session's next link.
fn next_epoch(row: Option<Row>) -> u64
    requires { rows_spec.epoch_of row + 1 < 2 ^ 64 }
    ensures { result ≡ spec.next_epoch row }
{
    match row {
        Some(row) => row.epoch + 1,
        None => 1,
    }
}

impl Registry {
    ghost use Rattle.ra_registry.specs.Rows.{row_of};
    ghost use Rattle.ra_registry.specs.RegistryStates.{with_entry};
    ghost use Rattle.ra_registry.specs.Seats.{IsUnspent};
    ghost use Rattle.ra_registry.specs.Legal.{IsLegal};
    ghost use Rattle.ra_registry.specs.KeptRecords.{IsKept, Keeps, Calls, HasKeepCause};

    /// Whether the session of this kind and token has a row.
    fn has_row(&self, kind: Kind, token: &Token) -> bool
        ensures { result ≡ is_some (row_of self.now (record { kind = kind; token = token.now })) }
    {
        let key = Key {
            kind,
            token: token.same(),
        };
        self.row(&key).is_some()
    }

    /// Whether a session of some kind has the token.
    fn is_known(&self, token: &Token) -> bool
        ensures { result ≡ spec.is_known (row_of self.now) token.now }
    {
        self.has_row(Kind::Management, token)
            || self.has_row(Kind::ExtensionHost, token)
            || self.has_row(Kind::Tunnel, token)
    }

    /// The first reason against a request, where each lost row counts as shortened.
    #[tactic(auto, unfolding(crate::specs::Admission::admission_refusal))]
    fn first_reason(&self, ask: &Request, at: u64) -> Option<Reason>
        ensures { result ≡ spec.admission_refusal self.now ask.now at }
    {
        let row = self.row(&key_of(ask));
        if ask.kind.is_none() {
            return Some(Reason::UnknownKind);
        }
        if ask.reconnection && !self.is_known(&ask.token) {
            return Some(Reason::NeverSeen);
        }
        if ask.reconnection && !row::can_reconnect(self.graces, row, at) {
            return Some(Reason::SeenBefore);
        }
        if !ask.reconnection && row.is_some() {
            return Some(Reason::Duplicate);
        }
        None
    }

    /// Enters a refused request.
    fn refuse(&mut self, ask: &Request, reason: Reason, at: u64) -> Result<(), NoMemory>
        requires { spec.admission_refusal self.old ask.now at ≡ Some reason }
        ensures refused { OnOk result (self.new ≡ with_entry self.old (spec.refusal_entry ask.now at reason)) }
        ensures same { OnErr result (self.new ≡ self.old) }
        ensures was_legal { IsLegal self.old }
        ensures legal { IsLegal self.new }
    {
        let room = self.seats + self.open_keys.len() + 1;
        self.history.reserve(room)?;
        let did = Did::Refused {
            kind: ask.kind,
            reconnection: ask.reconnection,
            reason,
        };
        let entry = Past {
            at,
            key: key_of(ask),
            did,
        };
        enter_request(
            &mut self.rows,
            &mut self.history,
            &mut self.shortened_to,
            entry,
        );
        Ok(())
    }

    /// Admits the first link of a new session. Its row is put in before its record is kept, since that may take memory, and is taken
    /// out again where the record is not kept.
    fn admit_new<R: Keeper>(
        &mut self,
        alloc: Global,
        keeper: &mut R,
        ask: &Request,
        at: u64,
    ) -> Result<Seat, AdmitFault>
        requires accepted { spec.admission_refusal self.old ask.now at ≡ None }
        requires new { ask.now.reconnection ≡ false }
        requires kind { ask.now.kind ≢ Some kinds.Tunnel }
        requires moment { at < 2 ^ 53 }
        ensures answered { spec.Admits self.old ask.now at result self.new }
        ensures seat { IfOk result (λ seat. IsUnspent seat self.new.history) }
        ensures told { Keeps result at (R.told keeper.old) (R.told keeper.new) }
        ensures called { Calls result (R.calls keeper.old) (R.calls keeper.new) }
        ensures cause { HasKeepCause (R.faults keeper.old) (R.faults keeper.new) result }
        ensures was_legal { IsLegal self.old }
        ensures legal { IsLegal self.new }
    {
        let room = self.seats + self.open_keys.len() + 3;
        self.history.reserve(room)?;
        let key = key_of(ask);
        let epoch = 1;
        let row = row::admitted(None, epoch, at);
        add_row(&mut self.rows, &mut self.open_keys, &key, row)?;
        let record = Record {
            key: key.same(),
            epoch,
            at,
        };
        if let Err(fault) = keeper.append(alloc, &record) {
            remove_row(&mut self.rows, &mut self.open_keys, &key);
            return Err(not_kept(fault));
        }
        let did = Did::Admitted {
            epoch,
            reconnection: false,
        };
        let entry = Past {
            at,
            key: key.same(),
            did,
        };
        enter_request(
            &mut self.rows,
            &mut self.history,
            &mut self.shortened_to,
            entry,
        );
        self.seats += 1;
        Ok(Seat { key, epoch })
    }

    /// Admits a later link of a session.
    fn reconnect<R: Keeper>(
        &mut self,
        alloc: Global,
        keeper: &mut R,
        ask: &Request,
        at: u64,
    ) -> Result<Seat, AdmitFault>
        requires accepted { spec.admission_refusal self.old ask.now at ≡ None }
        requires later { ask.now.reconnection ≡ true }
        requires kind { ask.now.kind ≢ Some kinds.Tunnel }
        requires moment { at < 2 ^ 53 }
        ensures answered { spec.Admits self.old ask.now at result self.new }
        ensures seat { IfOk result (λ seat. IsUnspent seat self.new.history) }
        ensures told { Keeps result at (R.told keeper.old) (R.told keeper.new) }
        ensures called { Calls result (R.calls keeper.old) (R.calls keeper.new) }
        ensures cause { HasKeepCause (R.faults keeper.old) (R.faults keeper.new) result }
        ensures was_legal { IsLegal self.old }
        ensures legal { IsLegal self.new }
    {
        let room = self.seats + self.open_keys.len() + 3;
        self.history.reserve(room)?;
        let key = key_of(ask);
        let row = self.rows.get(&key).copied();
        let epoch = next_epoch(row);
        let record = Record {
            key: key.same(),
            epoch,
            at,
        };
        if let Err(fault) = keeper.append(alloc, &record) {
            return Err(not_kept(fault));
        }
        let did = Did::Admitted {
            epoch,
            reconnection: true,
        };
        let entry = Past {
            at,
            key: key.same(),
            did,
        };
        enter_request(
            &mut self.rows,
            &mut self.history,
            &mut self.shortened_to,
            entry,
        );
        set_row(&mut self.rows, &key, row::admitted(row, epoch, at));
        self.seats += 1;
        Ok(Seat { key, epoch })
    }

    /// Judges a request that has passed its handshake, and admits it where no reason is against it. All lost rows are shortened first,
    /// unless the keeper fails or memory is wanting. An acceptance is kept by the keeper and then entered, and room is taken for the
    /// seat's end and for the row's expiry.
    pub fn admit<R: Keeper>(
        &mut self,
        alloc: Global,
        keeper: &mut R,
        ask: Request,
        now: Moment,
    ) -> Result<Seat, AdmitFault>
        requires { ask.kind ≢ Some kinds.Tunnel }
        ensures answered { spec.Admits self.old ask now result self.new }
        ensures seat { IfOk result (λ seat. IsUnspent seat self.new.history) }
        ensures reconnected { is_some ask.kind ≡ true → ask.reconnection ≡ true → spec.can_reconnect self.old ask now ≡ true
            → spec.IsNotRefused result }
        // the keeper gets the record of an acceptance, and of no other answer
        ensures told { Keeps result now (R.told keeper.old) (R.told keeper.new) }
        ensures kept { IsKept (R.told keeper.old) self.old → IsKept (R.told keeper.new) self.new }
        ensures called { Calls result (R.calls keeper.old) (R.calls keeper.new) }
        // KeepFault is answered where the keeper failed, and nowhere else
        ensures cause { HasKeepCause (R.faults keeper.old) (R.faults keeper.new) result }
        ensures was_legal { IsLegal self.old }
        ensures legal { IsLegal self.new }
    {
        let at = now.millis();
        if let Some(reason) = self.first_reason(&ask, at) {
            self.refuse(&ask, reason, at)?;
            return Err(AdmitFault::Refused { reason });
        }
        if ask.reconnection {
            self.reconnect(alloc, keeper, &ask, at)
        } else {
            self.admit_new(alloc, keeper, &ask, at)
        }
    }
}
