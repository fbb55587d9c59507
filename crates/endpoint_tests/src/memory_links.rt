//! Tests of ra_ports: what a link and a clock in memory give at each call.

use ra_base::{Message, Moment};
use ra_ports::{Clock, Got, Link, LinkStep, MemClock, MemLink, send_all};
use std::alloc::Global;
use std::process::Abort;
use std::test::Fail;

fn piece(alloc: Global, bytes: &[u8]) -> Result<LinkStep, Fail> {
    Ok(LinkStep::Piece {
        bytes: Message::copy(alloc, bytes)?,
    })
}

/// `abc`, an idle, a fault, and `d`.
fn four_steps(alloc: Global) -> Result<Vec<LinkStep>, Fail> {
    let mut steps = Vec::new(alloc);
    steps.push(piece(alloc, b"abc")?)?;
    steps.push(LinkStep::Idle)?;
    steps.push(LinkStep::Fault)?;
    steps.push(piece(alloc, b"d")?)?;
    Ok(steps)
}

fn one_step(alloc: Global, bytes: &[u8]) -> Result<Vec<LinkStep>, Fail> {
    let mut steps = Vec::new(alloc);
    steps.push(piece(alloc, bytes)?)?;
    Ok(steps)
}

/// A link that gives the steps `before`, and the steps `after` once it is framed.
fn link_of(
    rt: &impl Abort,
    alloc: Global,
    before: Vec<LinkStep>,
    after: Vec<LinkStep>,
    failing: Vec<u64>,
) -> MemLink {
    assert!(rt; before.iter().all(|step| step.is_filled()));
    assert!(rt; after.iter().all(|step| step.is_filled()));
    MemLink::new(alloc, before, after, failing)
}

/// A link of four steps, which gives `xy` once it is framed.
fn link_of_four(rt: &impl Abort, alloc: Global) -> Result<MemLink, Fail> {
    let before = four_steps(alloc)?;
    let after = one_step(alloc, b"xy")?;
    Ok(link_of(rt, alloc, before, after, Vec::new(alloc)))
}

/// A link that gives `a`, and whose calls 2 and 3 fail.
fn failing_link(rt: &impl Abort, alloc: Global) -> Result<MemLink, Fail> {
    let before = one_step(alloc, b"a")?;
    let failing = Vec::from_array(alloc, [2u64, 3])?;
    Ok(link_of(rt, alloc, before, Vec::new(alloc), failing))
}

/// What one call gives, with room for two bytes: the bytes, or `idle`, `end` or `fault`.
fn received<'a, L: Link>(link: &mut L, into: &'a mut [u8; 2]) -> &'a [u8] {
    match link.recv(into) {
        Ok(Got::Bytes { n }) => &into[..n],
        Ok(Got::NotYet) => b"idle",
        Ok(Got::End) => b"end",
        Err(_) => b"fault",
    }
}

/// The next call gives these bytes.
fn gives<L: Link>(link: &mut L, bytes: &[u8]) -> bool {
    let mut into = [0u8; 2];
    received(link, &mut into) == bytes
}

fn sends<L: Link>(link: &mut L, bytes: &[u8]) -> bool {
    send_all(link, bytes).is_ok()
}

fn becomes_framed<L: Link>(link: &mut L, rest: &[u8]) -> bool {
    link.go_framed(rest).is_ok()
}

/// What the calls of a link of four steps give.
const GIVEN: [&[u8]; 7] = [b"ab", b"c", b"idle", b"fault", b"d", b"end", b"end"];

#[test]
fn a_link_in_memory_gives_its_steps(rt: HostRuntime) -> Result<(), Fail> {
    let mut link = link_of_four(&rt, rt.alloc())?;
    for bytes in GIVEN {
        assert!(rt; gives(&mut link, bytes), "{bytes:?}");
    }
    Ok(())
}

#[test]
fn listed_calls_of_a_link_in_memory_fail(rt: HostRuntime) -> Result<(), Fail> {
    let mut link = failing_link(&rt, rt.alloc())?;
    assert!(rt; sends(&mut link, b"go"));
    assert!(rt; !sends(&mut link, b"no"));
    assert!(rt; gives(&mut link, b"fault"));
    assert!(rt; gives(&mut link, b"a"));
    assert!(rt; sends(&mut link, b"on"));
    assert_eq!(rt; link.sent(), b"goon".as_slice());
    assert_eq!(rt; link.short(), 0);
    Ok(())
}

#[test]
fn a_framed_link_in_memory_gives_its_other_steps(rt: HostRuntime) -> Result<(), Fail> {
    let mut link = link_of_four(&rt, rt.alloc())?;
    assert!(rt; gives(&mut link, b"ab"));
    assert!(rt; becomes_framed(&mut link, b""));
    assert!(rt; gives(&mut link, b"xy"));
    assert!(rt; gives(&mut link, b"end"));
    assert!(rt; becomes_framed(&mut link, b"v"));
    assert!(rt; gives(&mut link, b"end"));
    Ok(())
}

#[test]
fn a_framed_link_in_memory_gives_what_it_was_handed(rt: HostRuntime) -> Result<(), Fail> {
    let mut link = link_of_four(&rt, rt.alloc())?;
    assert!(rt; gives(&mut link, b"ab"));
    assert!(rt; becomes_framed(&mut link, b"uvw"));
    for bytes in [b"uv".as_slice(), b"w", b"xy", b"end"] {
        assert!(rt; gives(&mut link, bytes), "{bytes:?}");
    }
    Ok(())
}

/// A clock of 0 ms and 5 ms.
fn clock_of_two(rt: &impl Abort, alloc: Global) -> Result<MemClock, Fail> {
    let later = Moment::of_millis(5).ok_or("no moment")?;
    let moments = Vec::from_array(alloc, [Moment::start(), later])?;
    assert!(rt; !moments.is_empty());
    Ok(MemClock::new(moments))
}

/// The next moment, in milliseconds.
fn millis<C: Clock>(clock: &mut C) -> u64 {
    clock.rest(1000);
    clock.now().millis()
}

fn millis_of_copy(clock: &MemClock) -> Result<u64, Fail> {
    let mut copy = clock.clone()?;
    Ok(millis(&mut copy))
}

#[test]
fn the_last_moment_in_memory_is_repeated(rt: HostRuntime) -> Result<(), Fail> {
    let mut clock = clock_of_two(&rt, rt.alloc())?;
    assert_eq!(rt; millis_of_copy(&clock)?, 0);
    for expected in [0, 5, 5] {
        assert_eq!(rt; millis(&mut clock), expected);
    }
    Ok(())
}
