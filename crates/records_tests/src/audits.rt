//! The audit of what a hub kept in a table, and of records out of turn.
ghost use Rattle.std.specs.Prelude.{All, IfOk};
ghost use Rattle.ra_keep.specs.Causes.{IsOfNoTunnel};

use crate::fixtures::{LONG, SHORT, admit, record};
use ra_audit::audit_run;
use ra_hub::PlainHub;
use ra_keep::{Keeper, MemKeeper};
use ra_keep_sql::SqlKeeper;
use ra_ports::MemSink;
use std::alloc::Global;
use std::test::*;

/// Whether the audit of the keeper has this status and text.
fn audits<R: Keeper>(keeper: &mut R, alloc: Global, status: u8, text: &str) -> bool {
    let mut sink = MemSink::new(alloc, Vec::new(alloc));
    audit_run(alloc, keeper, &mut sink) == status && sink.written() == text.as_bytes()
}

/// A keeper that has kept two windows.
fn kept_two<R: Keeper + Drop>(alloc: Global, keeper: R) -> Result<R, Fail> {
    let mut hub = PlainHub::start(alloc, keeper, LONG, SHORT)
        .ok()
        .ok_or("not started")?;
    admit(&mut hub, alloc, "t1", 0)?;
    admit(&mut hub, alloc, "t2", 6)?;
    Ok(hub.into_keeper())
}

/// What the audit of two windows answers over this keeper.
fn audits_two<R: Keeper + Drop>(alloc: Global, keeper: R) -> Result<bool, Fail> {
    let mut keeper = kept_two(alloc, keeper)?;
    Ok(audits(
        &mut keeper,
        alloc,
        0,
        "1 management t1 1 0\n2 management t2 1 6\nend records=2\n",
    ))
}

#[test]
fn two_windows_are_audited(rt: HostRuntime) -> Result<(), Fail> {
    let keeper = SqlKeeper::in_memory(rt.alloc()).ok().ok_or("no keeper")?;
    assert!(rt; audits_two(rt.alloc(), keeper)?);
    Ok(())
}

/// A keeper of two records, between which one is missing.
fn out_of_turn(alloc: Global) -> Result<MemKeeper, Fail> {
    let mut records = Vec::new(alloc);
    records.push(record("t1", 1, 0)?)?;
    records.push(record("t1", 3, 5)?)?;
    Ok(MemKeeper::with(records, Vec::new(alloc)))
}

#[test]
fn a_record_out_of_turn_is_named(rt: HostRuntime) -> Result<(), Fail> {
    let mut keeper = out_of_turn(rt.alloc())?;
    assert!(rt;
        audits(
            &mut keeper,
            rt.alloc(),
            5,
            "1 management t1 1 0\nrecord 2: epoch 3, expected 2\n"
        )
    );
    Ok(())
}
