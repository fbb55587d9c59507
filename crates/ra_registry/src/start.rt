//! A registry over kept records.
ghost use Rattle.std.specs.Prelude.{◌≡◌, [], max, IfOk, OnOk};
ghost use Rattle.std.specs.BTreeMap.{get};
ghost use Rattle.ra_base.specs.Keys.{key_cmp};
ghost use Rattle.ra_base.specs.declared.key.Key.{Key};
ghost use Rattle.ra_registry.specs.Rows.{start_row, with_record, epoch_of};

use crate::registry::Registry;
use crate::row::{Graces, Row, stopped};
use ra_base::{Key, NoMemory};
use ra_keep::Record;
use std::alloc::Global;
use std::collections::{BTreeMap, BTreeSet};

/// Copies the records.
fn copies(alloc: Global, records: &[Record]) -> Result<Vec<Record>, NoMemory>
    ensures { IfOk result (λ copied. copied.items ≡ records.now) }
{
    let mut copied = Vec::new(alloc);
    for kept in records {
        copied.push(kept.same())?;
    }
    Ok(copied)
}

/// The greater epoch of a row, where there is one, and a record.
fn greater_epoch(row: Option<Row>, epoch: u64) -> u64
    ensures { result ≡ max epoch (epoch_of row) }
{
    match row {
        Some(row) => epoch.max(row.epoch),
        None => epoch,
    }
}

/// Adds what one record says.
fn add_record(rows: &mut BTreeMap<Key, Row>, kept: &Record) -> Result<(), NoMemory>
    ensures { OnOk result ((key : Key) → get key_cmp rows.new key ≡ with_record key (get key_cmp rows.old key) kept.now) }
{
    let epoch = greater_epoch(rows.get(&kept.key).copied(), kept.epoch);
    rows.insert(kept.key.same(), stopped(epoch))?;
    Ok(())
}

/// The rows at the start.
fn start_rows(alloc: Global, records: &[Record]) -> Result<BTreeMap<Key, Row>, NoMemory>
    ensures { IfOk result (λ rows. (key : Key) → get key_cmp rows key ≡ start_row records.now key) }
{
    let mut rows = BTreeMap::new(alloc);
    for kept in records {
        add_record(&mut rows, kept)?;
    }
    Ok(rows)
}

impl Registry {
    /// A registry that starts from kept records. Each key among them has a row that is closed with `Stopped` and has the greatest epoch
    /// that was kept for it. The history is empty.
    pub fn from_records(
        alloc: Global,
        long_grace: u64,
        short_grace: u64,
        records: &[Record],
    ) -> Result<Registry, NoMemory>
        ensures { IfOk result (λ registry. registry ≡ record {
          long_grace = long_grace;
          short_grace = short_grace;
          start = records.now;
          history = [];
        }) }
    {
        let start = copies(alloc, records)?;
        let rows = start_rows(alloc, records)?;
        Ok(Registry {
            graces: Graces {
                long: long_grace,
                short: short_grace,
            },
            start,
            rows,
            open_keys: BTreeSet::new(alloc),
            history: Vec::new(alloc),
            shortened_to: 0,
            seats: 0,
        })
    }
}
