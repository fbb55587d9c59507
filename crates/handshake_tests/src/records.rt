//! Tests of ra_keep: a keeper in memory takes records and gives them back, and listed calls fail. A keeper that shuts at its first
//! failure is one too.
ghost use Rattle.std.specs.Prelude.{◌≡◌, ◌<◌, ◌^◌, false, Some, None, Err, IfOk, if◌then◌else◌};
ghost use Rattle.ra_keep.specs.Causes.{HasCause};
ghost use Rattle.ra_keep.specs.declared.keeper.KeepFault.TheVariants as faults;
ghost use Rattle.ra_base.specs.declared.kind.Kind.TheVariants.{Management};

use ra_base::{Key, Kind, Token};
use ra_keep::{KeepFault, Keeper, MemKeeper, Record};
use std::alloc::Global;
use std::test::Fail;

fn record_of(token: &str, at: u64) -> Result<Record, Fail>
    ensures { IfOk result (λ kept. (kept.key.kind ≡ Management) × (kept.epoch ≡ 1) × (kept.at ≡ at)) }
{
    let key = Key {
        kind: Kind::Management,
        token: Token::from_text(token)?,
    };
    Ok(Record { key, epoch: 1, at })
}

fn append<K: Keeper>(keeper: &mut K, alloc: Global, token: &str, at: u64) -> Result<bool, Fail>
    requires { at < 2 ^ 53 }
{
    let kept = record_of(token, at)?;
    Ok(keeper.append(alloc, &kept).is_ok())
}

/// A keeper that shuts where it fails, and then tells nothing.
#[derive(Drop)]
struct Shutting {
    inner: MemKeeper,
    is_open: bool,
    faults: u64,
}

impl Shutting {
    /// Shuts, counts a failure, and answers it.
    fn fail<T: Drop>(&mut self) -> Result<T, KeepFault>
        ensures fault { result ≡ Err faults.Failed }
        ensures cause { HasCause self.old.faults self.new.faults result }
        ensures shut { self.new.is_open ≡ false }
    {
        self.is_open = false;
        self.faults = self.faults.saturating_add(1);
        Err(KeepFault::Failed)
    }
}

impl Keeper for Shutting {
    ghost told = { λ k. if k.is_open then Some k.inner.records else None };

    ghost faults = { λ k. k.faults };

    ghost calls = { λ k. None };

    fn append(&mut self, alloc: Global, kept: &Record) -> Result<(), KeepFault> {
        if !self.is_open {
            return self.fail();
        }
        match self.inner.append(alloc, kept) {
            Ok(()) => Ok(()),
            Err(KeepFault::NoMemory) => Err(KeepFault::NoMemory),
            Err(KeepFault::Failed) => self.fail(),
        }
    }

    fn all(&mut self, alloc: Global) -> Result<Vec<Record>, KeepFault> {
        if !self.is_open {
            return self.fail();
        }
        match self.inner.all(alloc) {
            Ok(records) => Ok(records),
            Err(KeepFault::NoMemory) => Err(KeepFault::NoMemory),
            Err(KeepFault::Failed) => self.fail(),
        }
    }
}

/// The moments of the records, added.
fn sum_of_moments<K: Keeper>(keeper: &mut K, alloc: Global) -> Result<u64, Fail> {
    let mut sum = 0u64;
    for kept in keeper.all(alloc)?.iter() {
        sum = sum.saturating_add(kept.at);
    }
    Ok(sum)
}

#[test]
fn a_new_keeper_takes_all_records(rt: HostRuntime) -> Result<(), Fail> {
    let alloc = rt.alloc();
    let mut keeper = MemKeeper::new(alloc);
    assert!(rt; append(&mut keeper, alloc, "t1", 5)?);
    assert!(rt; append(&mut keeper, alloc, "t2", 7)?);
    assert_eq!(rt; sum_of_moments(&mut keeper, alloc)?, 12);
    Ok(())
}

#[test]
fn listed_calls_fail(rt: HostRuntime) -> Result<(), Fail> {
    let alloc = rt.alloc();
    let mut records = Vec::new(alloc);
    records.push(record_of("t1", 5)?)?;
    let mut failing = vec![in alloc; 1u64]?;
    failing.push(3)?;
    let mut keeper = MemKeeper::with(records, failing);
    assert!(rt; keeper.all(alloc).err() == Some(KeepFault::Failed));
    assert!(rt; append(&mut keeper, alloc, "t2", 7)?);
    assert!(rt; !append(&mut keeper, alloc, "t3", 9)?);
    assert_eq!(rt; sum_of_moments(&mut keeper, alloc)?, 12);
    Ok(())
}

#[test]
fn a_keeper_shuts_where_it_fails(rt: HostRuntime) -> Result<(), Fail> {
    let alloc = rt.alloc();
    let failing = vec![in alloc; 2u64]?;
    let mut keeper = Shutting {
        inner: MemKeeper::with(Vec::new(alloc), failing),
        is_open: true,
        faults: 0,
    };
    assert!(rt; append(&mut keeper, alloc, "t1", 5)?);
    assert!(rt; !append(&mut keeper, alloc, "t2", 7)?);
    assert!(rt; keeper.all(alloc).err() == Some(KeepFault::Failed));
    assert_eq!(rt; keeper.faults, 2);
    Ok(())
}
