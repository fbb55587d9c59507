//! Tests of ra_edge: what gives links and opens them in memory, tasks in threads and on the caller, and the clock of the host.
ghost use Rattle.std.specs.Prelude.{All, IfOk};
ghost use Rattle.ra_edge.specs.LineScripts.{IsNew};

use ra_edge::{Accept, Dial, HostClock, MemAccept, MemDial, Run, Spawner};
use ra_ports::{Clock, Got, Link, LinkStep, MemLink};
use std::alloc::Global;
use std::sync::{Arc, Mutex, Wait};
use std::test::Fail;
use std::thread;

/// A link that ends at once.
fn ending(alloc: Global) -> MemLink
    ensures { IsNew result }
{
    MemLink::new(alloc, Vec::new(alloc), Vec::new(alloc), Vec::new(alloc))
}

/// A link that fails once, and then ends.
fn failing_once(alloc: Global) -> Result<MemLink, Fail>
    ensures { IfOk result IsNew }
{
    let mut steps = Vec::new(alloc);
    steps.push(LinkStep::Fault)?;
    if !steps.iter().all(|step| step.is_filled()) {
        return Err("an empty piece".into());
    }
    Ok(MemLink::new(alloc, steps, Vec::new(alloc), Vec::new(alloc)))
}

fn two_links(alloc: Global) -> Result<Vec<MemLink>, Fail>
    ensures { IfOk result (λ links. All IsNew links.items) }
{
    let mut links = Vec::new(alloc);
    links.push(ending(alloc))?;
    links.push(failing_once(alloc)?)?;
    Ok(links)
}

/// What the first call of a link gives: whether it ends.
fn ends<L: Link>(link: &mut L) -> bool {
    let mut into = [0u8; 1];
    link.recv(&mut into) == Ok(Got::End)
}

/// Whether a link is given, and ends at once.
fn accepts<A: Accept>(accept: &mut A) -> Option<bool> {
    let mut link = accept.next().ok()?;
    Some(ends(&mut link))
}

#[test]
fn links_in_memory_are_accepted_in_order(rt: HostRuntime) -> Result<(), Fail> {
    let failing = vec![in rt.alloc(); 2u64]?;
    let mut accept = MemAccept::new(two_links(rt.alloc())?, failing);
    for found in [Some(true), None, Some(false), None] {
        assert_eq!(rt; accepts(&mut accept), found);
    }
    assert_eq!(rt; accept.given(), 2);
    Ok(())
}

/// A dial of two links, whose second call fails.
fn dial_of_two(alloc: Global) -> Result<MemDial, Fail> {
    let failing = vec![in alloc; 2u64]?;
    Ok(MemDial::new(alloc, two_links(alloc)?, failing))
}

/// Whether a link is opened and ends at once. It is given back.
fn dials<D: Dial>(dial: &mut D) -> Option<bool> {
    let mut link = dial.connect().ok()?;
    let over = ends(&mut link);
    dial.give_back(link);
    Some(over)
}

#[test]
fn links_in_memory_are_opened_in_order_and_kept(rt: HostRuntime) -> Result<(), Fail> {
    let mut dial = dial_of_two(rt.alloc())?;
    for found in [Some(true), None, Some(false), None] {
        assert_eq!(rt; dials(&mut dial), found);
    }
    assert_eq!(rt; dial.returned().len(), 2);
    assert_eq!(rt; (dial.line_faults(), dial.short()), (1, 0));
    Ok(())
}

/// Counts up a number that is shared.
#[derive(Drop)]
struct Counts<R: Wait> {
    rt: R,
    count: Arc<Mutex<u64>, Global>,
}

impl<R: Wait + Send + Drop> Run for Counts<R> {
    fn run(self) {
        let mut count = self.count.lock(&self.rt);
        *count = count.saturating_add(1);
    }
}

#[test]
fn a_task_runs_in_a_thread(rt: HostRuntime) -> Result<(), Fail> {
    let count = Arc::new(rt.alloc(), Mutex::new(0u64))?;
    let mut spawner = Spawner::in_threads(rt, rt.alloc());
    let theirs = Arc::try_clone(&count)?;
    assert!(rt; spawner.start(Counts { rt, count: theirs }).is_ok());
    for _ in rt.forever() {
        if *count.lock(&rt) == 1 {
            break;
        }
        thread::yield_now();
    }
    Ok(())
}

#[test]
fn a_task_runs_on_the_caller_unless_its_start_is_listed(rt: HostRuntime) -> Result<(), Fail> {
    let count = Arc::new(rt.alloc(), Mutex::new(0u64))?;
    let mut spawner: Spawner<HostRuntime> = Spawner::here(vec![in rt.alloc(); 1u64]?);
    for started in [false, true] {
        let theirs = Arc::try_clone(&count)?;
        let start = spawner.start(Counts { rt, count: theirs });
        assert_eq!(rt; start.is_ok(), started);
    }
    assert_eq!(rt; *count.lock(&rt), 1);
    assert_eq!(rt; spawner.faults(), 1);
    Ok(())
}

#[test]
fn a_copy_of_the_clock_of_the_host_goes_on_with_it(rt: HostRuntime) -> Result<(), Fail> {
    let mut clock = HostClock::new(rt);
    let mut copy = clock.clone()?;
    let first = clock.now().millis();
    clock.rest(20);
    let second = copy.now().millis();
    assert!(rt; second >= first + 10, "{first} and then {second}");
    Ok(())
}
