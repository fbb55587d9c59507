//! The table of all rows, the set of the keys whose rows are not closed, and the history behind them: what is done to them piece by
//! piece. Whether that is right is decided above.
ghost use Rattle.std.specs.Prelude.{◌≡◌, ◌+◌, ◌<◌, ◌≤◌, ◌∷◌, ◌++◌, [], true, false, is_some, length, drop, Some, None, OnOk, OnErr};
ghost use Rattle.std.specs.Vec.{vec_capacity};
ghost use Rattle.std.specs.BTreeMap.{get};
ghost use Rattle.std.specs.BTreeSet.{contains, btree_set_len};
ghost use Rattle.ra_base.specs.Keys.{key_cmp};
ghost use Rattle.ra_registry.specs.RowChanges as changes;
ghost use Rattle.ra_registry.specs.TableChanges.{SetsRow, ChangesRow, ChangesRows, SameRows, SetsKey, SameKeys};

use crate::past::Past;
use crate::row::{self, Row};
use ra_base::{Cause, Key, NoMemory};
use std::collections::{BTreeMap, BTreeSet};

/// The row of this key, where there is one, is shortened.
fn shorten_row(rows: &mut BTreeMap<Key, Row>, key: &Key, at: u64)
    ensures { ChangesRow rows.old rows.new key.now (changes.shorten at) }
{
    if let Some(row) = rows.get_mut(key) {
        *row = row::shorten(*row, at);
    }
}

/// The row of this key, where there is one, is lost where it is up with that epoch.
pub(crate) fn lose_row(rows: &mut BTreeMap<Key, Row>, key: &Key, epoch: u64, at: u64)
    ensures { ChangesRow rows.old rows.new key.now (changes.lose epoch at) }
{
    if let Some(row) = rows.get_mut(key) {
        *row = row::lose(*row, epoch, at);
    }
}

/// The row of this key, where there is one, is closed where it has that epoch.
pub(crate) fn close_row(rows: &mut BTreeMap<Key, Row>, key: &Key, epoch: u64, cause: Cause)
    ensures { ChangesRow rows.old rows.new key.now (changes.close epoch cause) }
{
    if let Some(row) = rows.get_mut(key) {
        *row = row::close(*row, epoch, cause);
    }
}

/// The row of this key, where there is one, is closed, since its grace is over.
pub(crate) fn expire_row(rows: &mut BTreeMap<Key, Row>, key: &Key)
    ensures { ChangesRow rows.old rows.new key.now changes.expire }
{
    if let Some(row) = rows.get_mut(key) {
        *row = row::expire(*row);
    }
}

/// The row of this key, which is there, is that one.
pub(crate) fn set_row(rows: &mut BTreeMap<Key, Row>, key: &Key, row: Row)
    requires { is_some (get key_cmp rows.old key.now) ≡ true }
    ensures { SetsRow rows.old rows.new key.now (Some row) }
{
    if let Some(kept) = rows.get_mut(key) {
        *kept = row;
    }
}

/// Adds the row of a new key. Where there is no room, nothing has changed.
pub(crate) fn add_row(
    rows: &mut BTreeMap<Key, Row>,
    open_keys: &mut BTreeSet<Key>,
    key: &Key,
    row: Row,
) -> Result<(), NoMemory>
    requires row { get key_cmp rows.old key.now ≡ None }
    requires absent { contains key_cmp open_keys.old key.now ≡ false }
    ensures rows { OnOk result (SetsRow rows.old rows.new key.now (Some row)) }
    ensures keys { OnOk result (SetsKey open_keys.old open_keys.new key.now true) }
    ensures count { OnOk result (btree_set_len open_keys.new ≡ btree_set_len open_keys.old + 1) }
    ensures same_rows { OnErr result (SameRows rows.old rows.new) }
    ensures same_keys { OnErr result (SameKeys open_keys.old open_keys.new) }
    ensures same_count { OnErr result (btree_set_len open_keys.new ≡ btree_set_len open_keys.old) }
{
    open_keys.insert(key.same())?;
    if rows.insert(key.same(), row).is_err() {
        open_keys.remove(key);
        return Err(NoMemory);
    }
    Ok(())
}

/// Takes a key out whose row was added last.
pub(crate) fn remove_row(rows: &mut BTreeMap<Key, Row>, open_keys: &mut BTreeSet<Key>, key: &Key)
    requires { contains key_cmp open_keys.old key.now ≡ true }
    ensures rows { SetsRow rows.old rows.new key.now None }
    ensures keys { SetsKey open_keys.old open_keys.new key.now false }
    ensures count { btree_set_len open_keys.new + 1 ≡ btree_set_len open_keys.old }
{
    rows.remove(key);
    open_keys.remove(key);
}

/// Takes a key out of the set where its row is closed.
pub(crate) fn forget_closed(rows: &BTreeMap<Key, Row>, open_keys: &mut BTreeSet<Key>, key: &Key)
    requires { changes.is_open (get key_cmp rows.now key.now) ≡ true → contains key_cmp open_keys.old key.now ≡ true }
    ensures keys { SetsKey open_keys.old open_keys.new key.now (changes.is_open (get key_cmp rows.now key.now)) }
    ensures count { btree_set_len open_keys.new ≤ btree_set_len open_keys.old }
{
    if !row::is_open(rows.get(key).copied()) {
        open_keys.remove(key);
    }
}

/// Shortens the rows of these entries' keys.
pub(crate) fn shorten_rows(rows: &mut BTreeMap<Key, Row>, entries: &[Past], at: u64)
    ensures { ChangesRows rows.old rows.new entries.now (changes.shorten at) }
{
    for entry in entries {
        shorten_row(rows, &entry.key, at);
    }
}

/// Enters a request, for which there is room: the rows of all entries behind the first `shortened_to` are shortened, and then the
/// entry stands behind them.
pub(crate) fn enter_request(
    rows: &mut BTreeMap<Key, Row>,
    history: &mut Vec<Past>,
    shortened_to: &mut usize,
    entry: Past,
)
    requires within { shortened_to.old ≤ length history.old.items }
    requires room { length history.old.items < vec_capacity history.old }
    ensures rows { ChangesRows rows.old rows.new (drop shortened_to.old history.old.items) (changes.shorten entry.at) }
    ensures history { history.new.items ≡ history.old.items ++ entry ∷ [] }
    ensures capacity { vec_capacity history.old ≤ vec_capacity history.new }
    ensures place { shortened_to.new ≡ length history.old.items + 1 }
{
    shorten_rows(rows, &history.as_slice()[*shortened_to..], entry.at);
    history.push(entry).unwrap();
    *shortened_to = history.len();
}
