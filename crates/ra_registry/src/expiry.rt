//! Rows whose grace is over.
ghost use Rattle.std.specs.Prelude.{◌≡◌, ◌≤◌, ◌<◌, ◌+◌, ℕ, Bool, true, false, not, ◌&&◌, [], ◌∷◌, ◌++◌, length, map, filter, slice_index_or, if◌then◌else◌};
ghost use Rattle.std.specs.Vec.{vec_capacity};
ghost use Rattle.std.specs.BTreeMap.{get};
ghost use Rattle.std.specs.BTreeSet.{contains, btree_set_len, IsOrdered};
ghost use Rattle.ra_base.specs.Keys.{key_cmp};
ghost use Rattle.ra_base.specs.declared.key.Key.{Key};
ghost use Rattle.ra_registry.specs.declared.past.Past.{Past};
ghost use Rattle.ra_registry.specs.RowChanges as changes;
ghost use Rattle.ra_registry.specs.Rows.{same_key};
ghost use Rattle.ra_registry.specs.Legal.{is_over_row};
ghost use Rattle.ra_registry.specs.Expiry.{expiry_of};
ghost use Rattle.ra_registry.specs.TableChanges.{ChangesRows, has_key};

use crate::past::{Did, Past};
use crate::registry::Registry;
use crate::row::{Graces, Row, is_over};
use crate::rows::expire_row;
use ra_base::{Key, Moment};
use std::collections::{BTreeMap, BTreeSet};

/// Whether the row of this key is lost and its grace is over.
fn has_expired(rows: &BTreeMap<Key, Row>, key: &Key, graces: Graces, at: u64) -> bool
    ensures { result ≡ is_over_row graces.long graces.short (get key_cmp rows.now key.now) at }
{
    match rows.get(key) {
        Some(row) => is_over(graces, row, at),
        None => false,
    }
}

/// Enters the expiry of this key where its grace is over. There is room for it.
fn enter_expiry(
    history: &mut Vec<Past>,
    rows: &BTreeMap<Key, Row>,
    key: &Key,
    graces: Graces,
    at: u64,
)
    requires { length history.old.items < vec_capacity history.old }
    ensures entered { history.new.items ≡ history.old.items
        ++ (if is_over_row graces.long graces.short (get key_cmp rows.now key.now) at then expiry_of at key.now ∷ [] else []) }
    ensures capacity { vec_capacity history.old ≤ vec_capacity history.new }
{
    if has_expired(rows, key, graces, at) {
        let expiry = Past {
            at,
            key: key.same(),
            did: Did::Expired,
        };
        history.push(expiry).unwrap();
    }
}

/// Enters the expiry of each open key whose grace is over, in the order of the keys. There is room for them.
fn enter_expiries(
    history: &mut Vec<Past>,
    rows: &BTreeMap<Key, Row>,
    open_keys: &BTreeSet<Key>,
    graces: Graces,
    at: u64,
)
    requires { length history.old.items + btree_set_len open_keys.now ≤ vec_capacity history.old }
    ensures entered { history.new.items ≡ history.old.items
        ++ map (expiry_of at) (filter (λ key. is_over_row graces.long graces.short (get key_cmp rows.now key) at) open_keys.now.keys) }
    ensures capacity { vec_capacity history.old ≤ vec_capacity history.new }
    ensures ordered { IsOrdered key_cmp open_keys.now }
{
    for key in open_keys.iter() {
        enter_expiry(history, rows, key, graces, at);
    }
}

/// Closes the rows of these expiries, whose keys are open and differ.
fn close_expired(rows: &mut BTreeMap<Key, Row>, open_keys: &mut BTreeSet<Key>, expiries: &[Past])
    requires there { (i : ℕ) (d : Past) → i < length expiries.now → contains key_cmp open_keys.old (slice_index_or expiries.now i d).key ≡ true }
    requires apart { (i j : ℕ) (d : Past) → i < j → j < length expiries.now
        → same_key (slice_index_or expiries.now i d).key (slice_index_or expiries.now j d).key ≡ false }
    ensures rows { ChangesRows rows.old rows.new expiries.now changes.expire }
    ensures keys { (k : Key) → contains key_cmp open_keys.new k ≡ (contains key_cmp open_keys.old k && not (has_key expiries.now k)) }
    ensures count { btree_set_len open_keys.new + length expiries.now ≡ btree_set_len open_keys.old }
{
    for expiry in expiries {
        expire_row(rows, &expiry.key);
        open_keys.remove(&expiry.key);
    }
}

impl Registry {
    ghost use Rattle.ra_registry.specs.Legal.{IsLegal};
    ghost use Rattle.ra_registry.specs.Expiry.{Expires};

    /// Closes each row that is lost and whose grace is over at this moment, with cause `GraceOver`, and answers how many these are. Each
    /// has an entry, in the order of the keys. It takes no memory.
    pub fn expire(&mut self, now: Moment) -> u64
        ensures expired { Expires self.old now result self.new }
        ensures was_legal { IsLegal self.old }
        ensures legal { IsLegal self.new }
    {
        let at = now.millis();
        let before = self.history.len();
        enter_expiries(
            &mut self.history,
            &self.rows,
            &self.open_keys,
            self.graces,
            at,
        );
        close_expired(
            &mut self.rows,
            &mut self.open_keys,
            &self.history.as_slice()[before..],
        );
        (self.history.len() - before) as u64
    }
}
