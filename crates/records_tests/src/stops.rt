//! Disks that stop at each call in turn: whatever was kept is there after a restart, and at most the record in flight besides.
use crate::fixtures::{adopt, files_of, fused, record};
use ra_keep::{Keeper, Record};
use sqlite::Files;
use sqlite_disk::{Crash, Disk, Fuse, Memory};
use std::alloc::Global;
use std::test::*;

/// What a run came to: its files, how many records it kept, how many it tried, and whether it was stopped.
#[derive(Drop)]
struct Ran {
    files: Files<Fuse<Memory>>,
    kept: usize,
    tried: usize,
    is_stopped: bool,
}

/// Appends so many records, until one is refused: how many were kept, and how many tried.
fn append_all<R: Keeper>(
    keeper: &mut R,
    alloc: Global,
    wanted: u32,
) -> Result<(usize, usize), Fail> {
    let mut kept = 0usize;
    for n in 0..wanted {
        let next = record("token", u64::from(n) + 1, u64::from(n))?;
        if keeper.append(alloc, &next).is_err() {
            return Ok((kept, kept.saturating_add(1)));
        }
        kept = kept.saturating_add(1);
    }
    Ok((kept, kept))
}

/// A run over files that stop at the call behind so many.
fn run(alloc: Global, calls: u64, wanted: u32, frames: usize) -> Result<Ran, Fail> {
    match adopt(alloc, fused(alloc, calls), frames) {
        Ok(mut keeper) => {
            let (kept, tried) = append_all(&mut keeper, alloc, wanted)?;
            Ok(Ran {
                files: files_of(keeper),
                kept,
                tried,
                is_stopped: kept != tried,
            })
        }
        Err(files) => Ok(Ran {
            files,
            kept: 0,
            tried: 0,
            is_stopped: true,
        }),
    }
}

/// Whether the records are the first that a run appends.
fn are_first(records: &[Record]) -> bool {
    let mut due = 0u64;
    for kept in records {
        if kept.at != due {
            return false;
        }
        due = due.saturating_add(1);
        if kept.epoch != due {
            return false;
        }
    }
    true
}

/// How many records the keeper has, where they are the first that a run appends.
fn count<R: Keeper>(keeper: &mut R, alloc: Global) -> Option<usize> {
    match keeper.all(alloc) {
        Ok(records) if are_first(records.as_slice()) => Some(records.len()),
        Ok(_) | Err(_) => None,
    }
}

/// How many records are found in the files.
fn found<D: Disk + Drop>(alloc: Global, files: Files<D>) -> Option<usize> {
    match adopt(alloc, files, 1_000) {
        Ok(mut keeper) => count(&mut keeper, alloc),
        Err(_) => None,
    }
}

/// A file of all that was written to this one, synced or not.
fn written(alloc: Global, disk: &Fuse<Memory>) -> Result<Memory, Fail> {
    let mut file = Memory::new(alloc);
    file.write_at(0, disk.inner().bytes())?;
    Ok(file)
}

/// How many records are found where the crash keeps all that was written.
fn found_written(alloc: Global, files: &Files<Fuse<Memory>>) -> Result<Option<usize>, Fail> {
    let log = written(alloc, &files.log)?;
    let db = written(alloc, &files.db)?;
    Ok(found(alloc, Files { log, db }))
}

/// How many records are found where the crash loses all that was not synced.
fn found_synced(alloc: Global, mut files: Files<Fuse<Memory>>) -> Option<usize> {
    files.log.crash();
    files.db.crash();
    found(alloc, files)
}

fn is_within(found: Option<usize>, kept: usize, tried: usize) -> bool {
    found.is_some_and(|found| kept <= found && found <= tried)
}

/// What came of stopping at one call: whether the run was stopped, whether a restart found what it had to, and whether the record in flight
/// was there.
#[derive(Clone, Copy)]
struct Stop {
    is_stopped: bool,
    is_kept: bool,
    has_more: bool,
}

fn stop_at(alloc: Global, calls: u64, wanted: u32, frames: usize) -> Result<Stop, Fail> {
    let Ran {
        files,
        kept,
        tried,
        is_stopped,
    } = run(alloc, calls, wanted, frames)?;
    let with_written = found_written(alloc, &files)?;
    let with_synced = found_synced(alloc, files);
    Ok(Stop {
        is_stopped,
        is_kept: is_within(with_written, kept, tried) && is_within(with_synced, kept, tried),
        has_more: with_written.is_some_and(|found| found > kept),
    })
}

/// Stops at each call in turn until a run ends with no stop. Gives how many runs lost or added a record, and in how many the record in
/// flight was there; or nothing, where no run ends.
fn all_stops(alloc: Global, wanted: u32, frames: usize) -> Result<Option<(u32, u32)>, Fail> {
    let mut wrong = 0u32;
    let mut more = 0u32;
    for calls in 0..5_000u64 {
        let came = stop_at(alloc, calls, wanted, frames)?;
        if !came.is_kept {
            wrong = wrong.saturating_add(1);
        }
        if came.has_more {
            more = more.saturating_add(1);
        }
        if !came.is_stopped {
            return Ok(Some((wrong, more)));
        }
    }
    Ok(None)
}

#[test]
fn a_stop_loses_no_record(rt: HostRuntime) -> Result<(), Fail> {
    let (wrong, more) = all_stops(rt.alloc(), 12, 1_000)?.ok_or("no end")?;
    assert_eq!(rt; wrong, 0);
    assert!(rt; more > 0);
    Ok(())
}

#[test]
fn a_stop_while_the_log_is_copied_back_loses_no_record(rt: HostRuntime) -> Result<(), Fail> {
    let (wrong, _) = all_stops(rt.alloc(), 6, 1)?.ok_or("no end")?;
    assert_eq!(rt; wrong, 0);
    Ok(())
}
