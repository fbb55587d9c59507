//! Grand worlds: a run of a hub, a client and its links.
use crate::fixtures::key;
use ra_grand::{GrandFault, GrandRunFault, run_grand};
use ra_script::GrandEvent;
use std::alloc::Global;
use std::test::Fail;

/// How many clients, links and jobs there are behind a client's first link.
fn link_once(alloc: Global) -> Result<(u64, u64, u64), Fail> {
    let events = [
        GrandEvent::Client { key: key()? },
        GrandEvent::Step { client: 1 },
        GrandEvent::Linked { client: 1 },
    ];
    let world = run_grand(alloc, &events)?;
    Ok((world.clients(), world.links(), world.jobs()))
}

/// The same, and a second link while the first attempt goes on.
fn link_twice(alloc: Global) -> Result<Option<GrandRunFault>, Fail> {
    let events = [
        GrandEvent::Client { key: key()? },
        GrandEvent::Step { client: 1 },
        GrandEvent::Linked { client: 1 },
        GrandEvent::Linked { client: 1 },
    ];
    Ok(run_grand(alloc, &events).err())
}

#[test]
fn a_run_has_all_its_events(rt: HostRuntime) -> Result<(), Fail> {
    let found = link_once(rt.alloc())?;
    assert!(rt; found == (1, 1, 0));
    Ok(())
}

#[test]
fn a_run_ends_at_the_first_event_that_is_refused(rt: HostRuntime) -> Result<(), Fail> {
    let refused = link_twice(rt.alloc())?;
    assert!(rt;
        matches!(
            refused,
            Some(GrandRunFault {
                at: 3,
                fault: GrandFault::NotDialling { client: 1 }
            })
        )
    );
    Ok(())
}
