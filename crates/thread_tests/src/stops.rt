//! The flag that stops workers.
use ra_jobs::Stop;
use std::alloc::Global;
use std::test::Fail;

/// What two holders see before the first sets the flag, and after it: seen by the first, and by the second.
fn seen(alloc: Global) -> Result<(bool, bool, bool), Fail> {
    let mut first = Stop::new(alloc)?;
    let mut second = first.share()?;
    let before = second.is_set();
    first.set();
    Ok((before, first.is_set(), second.is_set()))
}

#[test]
fn all_holders_see_the_flag(rt: HostRuntime) -> Result<(), Fail> {
    let (before, first, second) = seen(rt.alloc())?;
    assert!(rt; !before && first && second);
    Ok(())
}
