//! A tick over all sessions of a map: those whose grace is over end, and the others see the moment.
ghost use Rattle.std.specs.Prelude.{◌≡◌, not};
ghost use Rattle.std.specs.BTreeMap.{get};
ghost use Rattle.ra_base.specs.Keys.{key_cmp};
ghost use Rattle.ra_hub.specs.HubSeats.{one_if};
ghost use Rattle.ra_hub.specs.Sweeping as spec;
ghost use Rattle.ra_hub.specs.Sweeping.{EndsAll, TicksAll};
ghost use Rattle.ra_hub.specs.Sweeps.{AreDistinct};

use crate::entry::SessionEntry;
use crate::sessions::{end_at, tick_at};
use ra_base::{Cause, Key, Moment};
use ra_registry::Past;
use std::alloc::Global;
use std::collections::BTreeMap;

/// The sessions of these entries end, since their grace is over.
pub(crate) fn end_all(sessions: &mut BTreeMap<Key, SessionEntry>, entries: &[Past])
    ensures { EndsAll entries.now sessions.old sessions.new }
{
    for entry in entries {
        end_at(sessions, &entry.key, Cause::GraceOver);
    }
}

/// Whether the session of this key is there and has not ended.
fn is_going(sessions: &BTreeMap<Key, SessionEntry>, key: &Key) -> bool
    ensures { result ≡ spec.is_going (get key_cmp sessions.now key.now) }
{
    match sessions.get(key) {
        Some(entry) => entry.cause().is_none(),
        None => false,
    }
}

/// The keys of the sessions that have ended go, and the others stay in their order. It takes no memory.
pub(crate) fn forget_ended(keys: &mut Vec<Key>, sessions: &BTreeMap<Key, SessionEntry>)
    ensures { keys.new.items ≡ spec.going_keys keys.old.items sessions.now }
{
    keys.retain(|key| is_going(sessions, key));
}

/// How many sessions found no memory, of one.
fn one_unless(ticked: bool) -> u64
    ensures { result ≡ one_if (not ticked) }
{
    if ticked { 0 } else { 1 }
}

/// The sessions of these keys see the moment. Answers how many found no memory, and are as before.
pub(crate) fn tick_all(
    sessions: &mut BTreeMap<Key, SessionEntry>,
    alloc: Global,
    keys: &[Key],
    now: Moment,
) -> u64
    ensures { AreDistinct keys.now → TicksAll keys.now now result sessions.old sessions.new }
{
    let mut short = 0;
    for key in keys {
        let ticked = tick_at(sessions, alloc, key, now);
        short += one_unless(ticked);
    }
    short
}
