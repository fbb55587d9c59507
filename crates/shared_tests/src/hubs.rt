//! Handles that are used in turn, expiries of another handle, keepers that fail, start records, and handles that are told apart.
ghost use Rattle.std.specs.Prelude.{◌≡◌, ◌<◌, ◌^◌, ◌+◌, All, IfSome, OnSome};
ghost use Rattle.ra_keep.specs.Causes.{IsOfNoTunnel};

use crate::calls::{admit, answer, at, cause, come_and_go, is_not_kept, key, refusal};
use crate::scripts::both_hear;
use ra_base::{Cause, Reason};
use ra_hub::{Hub, HubFault, PlainHub, Swept};
use ra_keep::{Keeper, MemKeeper, Record};
use ra_locked::EndFault;
use ra_registry::{Did, Past};
use ra_shared::{FinishFault, Finished, HubHandle, KeptAnswer, SharedHub, Told};
use std::alloc::Global;
use std::marker::Brand;
use std::sync::Wait;
use std::sync::ledger::{Blank, Ledger};
use std::test::Fail;

const LONG: u64 = 10_800_000;

const SHORT: u64 = 300_000;

/// A hub, of which no handle was made.
fn start<R: Wait + Copy, L: Ledger>(
    rt: R,
    alloc: Global,
    entries: Blank,
    keeper: MemKeeper,
) -> Option<SharedHub<R, MemKeeper, L>>
    requires { (entries.name ≡ L.name) × (entries.parts ≡ L.parts) × (L.parts ≡ 2 ^ 62) }
    ensures { IfSome result (λ hub. hub.registry.made ≡ 0) }
{
    SharedHub::start(rt, alloc, entries, keeper, LONG, SHORT).ok()
}

/// A handle.
fn handle<R: Wait + Copy, L: Ledger>(
    hub: &mut SharedHub<R, MemKeeper, L>,
) -> Option<HubHandle<R, MemKeeper, L>>
    requires { hub.old.registry.made < 2 ^ 61 }
    ensures { OnSome result (hub.new.registry.made ≡ hub.old.registry.made + 1) }
{
    hub.handle().ok()
}

/// The end of a hub to which one handle is given back.
fn end<R: Wait + Copy, L: Ledger>(
    alloc: Global,
    hub: SharedHub<R, MemKeeper, L>,
    one: HubHandle<R, MemKeeper, L>,
) -> Option<Result<Finished<MemKeeper>, FinishFault>>
    requires { L.parts ≡ 2 ^ 62 }
{
    let mut handles = Vec::new(alloc);
    if handles.push(one).is_err() {
        return None;
    }
    Some(hub.finish(handles))
}

/// The end of a hub to which two handles are given back.
fn end_both<R: Wait + Copy, L: Ledger>(
    alloc: Global,
    hub: SharedHub<R, MemKeeper, L>,
    one: HubHandle<R, MemKeeper, L>,
    two: HubHandle<R, MemKeeper, L>,
) -> Option<Result<Finished<MemKeeper>, FinishFault>>
    requires { L.parts ≡ 2 ^ 62 }
{
    let mut handles = Vec::new(alloc);
    if handles.push(one).is_err() {
        return None;
    }
    if handles.push(two).is_err() {
        return None;
    }
    Some(hub.finish(handles))
}

/// How many entries and calls of sessions there were; None where the handles are told apart.
fn counts(end: Option<Result<Finished<MemKeeper>, FinishFault>>) -> Option<(usize, u64)> {
    match end {
        Some(Ok(finished)) => Some((finished.registry.history.len(), finished.steps)),
        Some(Err(_)) | None => None,
    }
}

/// Why a hub did not end.
fn fault(end: Option<Result<Finished<MemKeeper>, FinishFault>>) -> Option<FinishFault> {
    end?.err()
}

/// The fault of the registry.
fn registry_fault(end: Option<Result<Finished<MemKeeper>, FinishFault>>) -> Option<EndFault> {
    match fault(end) {
        Some(FinishFault::Registry { fault }) => Some(fault),
        Some(FinishFault::Untrue { .. }) | None => None,
    }
}

fn a_hundred<R: Wait, K: Keeper + Drop, L: Ledger>(
    alloc: Global,
    mut handle: HubHandle<R, K, L>,
    from: u64,
) -> HubHandle<R, K, L> {
    for number in 0..100u64 {
        come_and_go(&mut handle, alloc, from.saturating_add(number));
    }
    handle
}

fn in_turn<L: Ledger, R: Wait + Copy>(rt: R, alloc: Global, entries: Blank) -> Option<(usize, u64)>
    requires { (entries.name ≡ L.name) × (entries.parts ≡ L.parts) × (L.parts ≡ 2 ^ 62) }
{
    let mut hub = start::<R, L>(rt, alloc, entries, MemKeeper::new(alloc))?;
    let one = handle(&mut hub)?;
    let two = handle(&mut hub)?;
    let one = a_hundred(alloc, one, 0);
    let two = a_hundred(alloc, two, 1000);
    counts(end_both(alloc, hub, one, two))
}

#[test]
fn two_handles_in_turn(rt: HostRuntime) -> Result<(), Fail> {
    let counts = in_turn::<Brand, _>(rt, rt.alloc(), Blank::new(1 << 62));
    assert_eq!(rt; counts, Some((400, 200)));
    Ok(())
}

fn one_is_missing<L: Ledger, R: Wait + Copy>(
    rt: R,
    alloc: Global,
    entries: Blank,
) -> Option<EndFault>
    requires { (entries.name ≡ L.name) × (entries.parts ≡ L.parts) × (L.parts ≡ 2 ^ 62) }
{
    let mut hub = start::<R, L>(rt, alloc, entries, MemKeeper::new(alloc))?;
    let dropped = handle(&mut hub)?;
    let one = handle(&mut hub)?;
    drop(dropped);
    registry_fault(end(alloc, hub, one))
}

#[test]
fn a_handle_is_missing(rt: HostRuntime) -> Result<(), Fail> {
    let fault = one_is_missing::<Brand, _>(rt, rt.alloc(), Blank::new(1 << 62));
    assert!(rt; matches!(fault, Some(EndFault::NotAll { given: 1, made: 2 })));
    Ok(())
}

/// A session that is gone expires by another handle, and nobody is told.
fn expires<H: Hub>(hub: &mut H, alloc: Global) -> bool {
    let early = hub.tick(alloc, at(LONG - 1));
    let late = hub.tick(alloc, at(LONG));
    let over = cause(hub, alloc, 1, LONG) == Some(Cause::GraceOver);
    let missed = matches!(answer(hub, alloc, 9, 0, LONG), Err(HubFault::NoSession));
    over && missed
        && early.expired == 0
        && late
            == (Swept {
                expired: 1,
                short: 0,
            })
}

fn is_expired_and_missed(history: &[Past]) -> bool {
    history.len() == 4 && history[2].did == Did::Expired && history[3].did == Did::Missed
}

fn another_expires<L: Ledger, R: Wait + Copy>(rt: R, alloc: Global, entries: Blank) -> Option<bool>
    requires { (entries.name ≡ L.name) × (entries.parts ≡ L.parts) × (L.parts ≡ 2 ^ 62) }
{
    let mut hub = start::<R, L>(rt, alloc, entries, MemKeeper::new(alloc))?;
    let mut one = handle(&mut hub)?;
    let mut two = handle(&mut hub)?;
    let well = come_and_go(&mut one, alloc, 1) && expires(&mut two, alloc);
    match end_both(alloc, hub, one, two)? {
        Ok(finished) => Some(well && is_expired_and_missed(finished.registry.history.as_slice())),
        Err(_) => None,
    }
}

#[test]
fn another_handle_expires_a_session(rt: HostRuntime) -> Result<(), Fail> {
    let well = another_expires::<Brand, _>(rt, rt.alloc(), Blank::new(1 << 62));
    assert!(rt; well == Some(true));
    Ok(())
}

/// The keeper fails at its calls 2, 4 and 6, and a session comes again each time.
fn comes_again<H: Hub>(hub: &mut H, alloc: Global) -> bool {
    let first = is_not_kept(hub, alloc, 1, 0) && come_and_go(hub, alloc, 1);
    let second = is_not_kept(hub, alloc, 2, 5) && come_and_go(hub, alloc, 2);
    let third = is_not_kept(hub, alloc, 3, 6) && come_and_go(hub, alloc, 3);
    first && second && third
}

/// A keeper that fails at these calls.
fn failing(alloc: Global) -> Option<MemKeeper> {
    let failing = vec![in alloc; 2, 4, 6].ok()?;
    Some(MemKeeper::with(Vec::new(alloc), failing))
}

fn faults_agree<L: Ledger, R: Wait + Copy>(
    rt: R,
    alloc: Global,
    entries: Blank,
) -> Option<(usize, u64)>
    requires { (entries.name ≡ L.name) × (entries.parts ≡ L.parts) × (L.parts ≡ 2 ^ 62) }
{
    let mut hub = start::<R, L>(rt, alloc, entries, failing(alloc)?)?;
    let mut one = handle(&mut hub)?;
    if !comes_again(&mut one, alloc) {
        return None;
    }
    counts(end(alloc, hub, one))
}

#[test]
fn a_keeper_fails_three_times(rt: HostRuntime) -> Result<(), Fail> {
    let counts = faults_agree::<Brand, _>(rt, rt.alloc(), Blank::new(1 << 62));
    assert_eq!(rt; counts, Some((6, 3)));
    Ok(())
}

fn faults_differ<L: Ledger, R: Wait + Copy>(
    rt: R,
    alloc: Global,
    entries: Blank,
) -> Option<EndFault>
    requires { (entries.name ≡ L.name) × (entries.parts ≡ L.parts) × (L.parts ≡ 2 ^ 62) }
{
    let mut hub = start::<R, L>(rt, alloc, entries, failing(alloc)?)?;
    let mut one = handle(&mut hub)?;
    comes_again(&mut one, alloc);
    one.registry.keep_faults = one.registry.keep_faults.saturating_add(1);
    registry_fault(end(alloc, hub, one))
}

#[test]
fn a_fault_more_is_told_apart(rt: HostRuntime) -> Result<(), Fail> {
    let fault = faults_differ::<Brand, _>(rt, rt.alloc(), Blank::new(1 << 62));
    assert!(rt;
        matches!(
            fault,
            Some(EndFault::KeepUnlike {
                answered: 4,
                failed: 3
            })
        )
    );
    Ok(())
}

/// An answer of session 1 that was none.
fn wrong_answer(alloc: Global) -> Option<KeptAnswer> {
    let key = key(alloc, 1)?;
    let cause = Cause::Disconnected;
    let told = Told::Ended { cause };
    Some(KeptAnswer { key, told })
}

fn untrue_answer<L: Ledger, R: Wait + Copy>(
    rt: R,
    alloc: Global,
    entries: Blank,
) -> Option<FinishFault>
    requires { (entries.name ≡ L.name) × (entries.parts ≡ L.parts) × (L.parts ≡ 2 ^ 62) }
{
    let mut hub = start::<R, L>(rt, alloc, entries, MemKeeper::new(alloc))?;
    let mut one = handle(&mut hub)?;
    come_and_go(&mut one, alloc, 1);
    let wrong = wrong_answer(alloc)?;
    if one.answers.push(wrong).is_err() {
        return None;
    }
    fault(end(alloc, hub, one))
}

#[test]
fn an_answer_that_is_not_so_is_told_apart(rt: HostRuntime) -> Result<(), Fail> {
    let fault = untrue_answer::<Brand, _>(rt, rt.alloc(), Blank::new(1 << 62));
    assert!(rt; matches!(fault, Some(FinishFault::Untrue { handle: 0, .. })));
    Ok(())
}

/// What both sessions hand out over a handle, and how many entries and calls of sessions there were.
fn heard_over_a_handle<L: Ledger, R: Wait + Copy>(
    rt: R,
    alloc: Global,
    entries: Blank,
) -> Option<(Vec<u8>, Option<(usize, u64)>)>
    requires { (entries.name ≡ L.name) × (entries.parts ≡ L.parts) × (L.parts ≡ 2 ^ 62) }
{
    let mut hub = start::<R, L>(rt, alloc, entries, MemKeeper::new(alloc))?;
    let mut one = handle(&mut hub)?;
    let bytes = both_hear(&mut one, alloc)?;
    Some((bytes, counts(end(alloc, hub, one))))
}

/// What both sessions hand out over a hub of one thread.
fn heard_plainly(alloc: Global) -> Option<Vec<u8>> {
    let mut hub = PlainHub::new(alloc, LONG, SHORT);
    both_hear(&mut hub, alloc)
}

fn are_equal(shared: Option<(Vec<u8>, Option<(usize, u64)>)>, plain: Option<Vec<u8>>) -> bool {
    match (shared, plain) {
        (Some((shared, counts)), Some(plain)) => {
            !plain.is_empty() && shared.as_slice() == plain.as_slice() && counts == Some((8, 18))
        }
        (_, _) => false,
    }
}

#[test]
fn a_handle_hands_out_what_a_hub_of_one_thread_does(rt: HostRuntime) -> Result<(), Fail> {
    let shared = heard_over_a_handle::<Brand, _>(rt, rt.alloc(), Blank::new(1 << 62));
    let plain = heard_plainly(rt.alloc());
    assert!(rt; are_equal(shared, plain));
    Ok(())
}

/// The record of session 1, as a hub has it kept.
fn kept_one(alloc: Global) -> Option<Vec<Record>>
    ensures { IfSome result (λ records. All IsOfNoTunnel records.items) }
{
    let mut hub = PlainHub::new(alloc, LONG, SHORT);
    come_and_go(&mut hub, alloc, 1);
    hub.into_keeper().all(alloc).ok()
}

/// A keeper that has the record of session 1.
fn keeper_of_one(alloc: Global) -> Option<MemKeeper> {
    let records = kept_one(alloc)?;
    Some(MemKeeper::with(records, Vec::new(alloc)))
}

/// A session of the start records does not come again.
fn is_remembered<H: Hub>(hub: &mut H, alloc: Global) -> bool {
    let before = refusal(hub, alloc, 1, true, 10) == Some(Reason::SeenBefore);
    let twice = refusal(hub, alloc, 1, false, 11) == Some(Reason::Duplicate);
    let never = refusal(hub, alloc, 3, true, 12) == Some(Reason::NeverSeen);
    let stopped = cause(hub, alloc, 1, 13) == Some(Cause::Stopped);
    let new = admit(hub, alloc, 2, false, 14).is_some();
    before && twice && never && stopped && new
}

fn starts_again<L: Ledger, R: Wait + Copy>(
    rt: R,
    alloc: Global,
    entries: Blank,
) -> Option<(usize, u64)>
    requires { (entries.name ≡ L.name) × (entries.parts ≡ L.parts) × (L.parts ≡ 2 ^ 62) }
{
    let mut hub = start::<R, L>(rt, alloc, entries, keeper_of_one(alloc)?)?;
    let mut one = handle(&mut hub)?;
    if !is_remembered(&mut one, alloc) {
        return None;
    }
    counts(end(alloc, hub, one))
}

#[test]
fn start_records_are_remembered(rt: HostRuntime) -> Result<(), Fail> {
    let counts = starts_again::<Brand, _>(rt, rt.alloc(), Blank::new(1 << 62));
    assert_eq!(rt; counts, Some((4, 0)));
    Ok(())
}
