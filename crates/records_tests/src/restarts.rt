//! Hubs that start again over what a hub before them kept: in memory, on a disk in memory, and in a file.
use crate::fixtures::{LONG, SHORT, admit, adopt, files_of, fused, refusal};
use ra_base::Reason;
use ra_hub::{Hub, PlainHub};
use ra_keep::Keeper;
use ra_keep_sql::SqlKeeper;
use std::alloc::Global;
use std::fs;
use std::test::*;

/// A hub over the keeper.
fn start<R: Keeper + Drop>(alloc: Global, keeper: R) -> Result<PlainHub<R>, Fail> {
    Ok(
        PlainHub::start(alloc, keeper, LONG, SHORT)
            .ok()
            .ok_or("not started")?,
    )
}

/// Admits two windows, and gives the keeper back.
fn first_run<R: Keeper + Drop>(alloc: Global, keeper: R) -> Result<R, Fail> {
    let mut hub = start(alloc, keeper)?;
    admit(&mut hub, alloc, "t1", 0)?;
    admit(&mut hub, alloc, "t2", 6)?;
    Ok(hub.into_keeper())
}

/// Whether the windows are seen before, and a third one was never seen.
fn knows_both<H: Hub>(hub: &mut H, alloc: Global) -> Result<[bool; 4], Fail> {
    Ok([
        refusal(hub, alloc, "t1", true, 10)? == Some(Reason::SeenBefore),
        refusal(hub, alloc, "t1", false, 11)? == Some(Reason::Duplicate),
        refusal(hub, alloc, "t2", false, 11)? == Some(Reason::Duplicate),
        refusal(hub, alloc, "t3", true, 12)? == Some(Reason::NeverSeen),
    ])
}

/// What a hub answers that starts from the keeper.
fn second_run<R: Keeper + Drop>(alloc: Global, keeper: R) -> Result<bool, Fail> {
    let mut hub = start(alloc, keeper)?;
    Ok(knows_both(&mut hub, alloc)? == [true; 4])
}

#[test]
fn a_hub_starts_again_in_memory(rt: HostRuntime) -> Result<(), Fail> {
    let keeper = SqlKeeper::in_memory(rt.alloc()).ok().ok_or("no keeper")?;
    let kept = first_run(rt.alloc(), keeper)?;
    assert!(rt; second_run(rt.alloc(), kept)?);
    Ok(())
}

/// A hub over a disk in memory ends, and another one starts over the same files.
fn starts_again(alloc: Global) -> Result<bool, Fail> {
    let keeper = adopt(alloc, fused(alloc, u64::MAX), 1_000)
        .ok()
        .ok_or("no keeper")?;
    let files = files_of(first_run(alloc, keeper)?);
    let again = adopt(alloc, files, 1_000).ok().ok_or("no keeper")?;
    second_run(alloc, again)
}

#[test]
fn a_hub_starts_again_over_a_disk(rt: HostRuntime) -> Result<(), Fail> {
    assert!(rt; starts_again(rt.alloc())?);
    Ok(())
}

/// Keeps two windows in a file, and drops the keeper with its log.
fn first_file(rt: &HostRuntime, path: &str) -> Result<(), Fail> {
    let keeper = SqlKeeper::open(rt, path).ok().ok_or("not opened")?;
    first_run(rt.alloc(), keeper)?;
    Ok(())
}

/// What a hub answers over the file, whose keeper is dropped.
fn next_file(rt: &HostRuntime, path: &str) -> Result<bool, Fail> {
    let keeper = SqlKeeper::open(rt, path).ok().ok_or("not opened")?;
    second_run(rt.alloc(), keeper)
}

/// Copies the log of the file back.
fn close_file(rt: &HostRuntime, path: &str) -> Result<(), Fail> {
    let keeper = SqlKeeper::open(rt, path).ok().ok_or("not opened")?;
    keeper.close().ok().ok_or("not closed")?;
    Ok(())
}

#[test]
fn a_hub_starts_again_over_a_file(rt: HostRuntime) -> Result<(), Fail> {
    let _ = fs::remove_dir_all(&rt, "records_test");
    fs::create_dir(&rt, "records_test")?;
    first_file(&rt, "records_test/kept.db")?;
    assert!(rt; next_file(&rt, "records_test/kept.db")?);
    close_file(&rt, "records_test/kept.db")?;
    assert!(rt; next_file(&rt, "records_test/kept.db")?);
    fs::remove_dir_all(&rt, "records_test")?;
    Ok(())
}
