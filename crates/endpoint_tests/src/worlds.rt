//! Tests of ra_world: two endpoints, the links between them, and what each event does.

use ra_base::{Count, Event, Message, Side};
use ra_model::{EndFault, Up};
use ra_world::{Effect, EventFault, World, run_world};
use std::alloc::Global;
use std::process::Abort;
use std::test::Fail;

/// The answer of an event that may come from anywhere.
fn answer(world: &mut World, event: &Event) -> Result<Effect, EventFault> {
    if let Event::At { now } = event {
        if *now >= 1 << 53 {
            return Err(EventFault::NoMemory);
        }
    }
    world.apply(event)
}

fn does(rt: &impl Abort, world: &mut World, event: &Event, effect: &Effect) -> Result<(), Fail> {
    let found = answer(world, event)?;
    assert!(rt; found == *effect);
    Ok(())
}

fn is_done(rt: &impl Abort, world: &mut World, event: Event) -> Result<(), Fail> {
    does(rt, world, &event, &Effect::Done)
}

fn begins(rt: &impl Abort, world: &mut World, side: Side, link: u64) -> Result<(), Fail> {
    let count = Count::Exact { n: 0 };
    is_done(rt, world, Event::Begin { side, link, count })
}

fn says(
    rt: &impl Abort,
    alloc: Global,
    world: &mut World,
    side: Side,
    text: &[u8],
) -> Result<(), Fail> {
    let body = Message::copy(alloc, text)?;
    does(
        rt,
        world,
        &Event::Say { side, body },
        &Effect::Said { id: 1 },
    )
}

fn writes(
    rt: &impl Abort,
    alloc: Global,
    world: &mut World,
    side: Side,
    bytes: &[u8],
) -> Result<(), Fail> {
    let count = Count::Most {
        n: bytes.len() as u64,
    };
    let bytes = Message::copy(alloc, bytes)?;
    does(
        rt,
        world,
        &Event::Write { side, count },
        &Effect::Wrote { bytes },
    )
}

fn reads(rt: &impl Abort, world: &mut World, side: Side, link: u64, n: u64) -> Result<(), Fail> {
    let count = Count::Exact { n };
    does(
        rt,
        world,
        &Event::Read { side, link, count },
        &Effect::Read { n },
    )
}

fn takes(rt: &impl Abort, world: &mut World, side: Side, effect: Effect) -> Result<(), Fail> {
    does(rt, world, &Event::Take { side }, &effect)
}

fn hears(
    rt: &impl Abort,
    alloc: Global,
    world: &mut World,
    side: Side,
    text: &[u8],
) -> Result<(), Fail> {
    let body = Message::copy(alloc, text)?;
    takes(
        rt,
        world,
        side,
        Effect::Up {
            up: Up::Message { id: 1, body },
        },
    )?;
    takes(rt, world, side, Effect::Nothing)
}

fn ticks(
    rt: &impl Abort,
    world: &mut World,
    side: Side,
    now: u64,
    timed_out: bool,
) -> Result<(), Fail> {
    is_done(rt, world, Event::At { now })?;
    does(
        rt,
        world,
        &Event::Tick { side },
        &Effect::Ticked { timed_out },
    )
}

fn links(rt: &impl Abort, world: &mut World, link: u64) -> Result<(), Fail> {
    does(rt, world, &Event::Link, &Effect::Link { link })?;
    begins(rt, world, Side::A, link)?;
    begins(rt, world, Side::B, link)
}

/// The link is cut and lost, and the next one begins and joins.
fn joins_again(rt: &impl Abort, world: &mut World) -> Result<(), Fail> {
    is_done(rt, world, Event::Cut { link: 1 })?;
    is_done(rt, world, Event::Lose { side: Side::A })?;
    is_done(rt, world, Event::Lose { side: Side::B })?;
    links(rt, world, 2)?;
    is_done(rt, world, Event::Finish { side: Side::A })?;
    is_done(rt, world, Event::Finish { side: Side::B })
}

fn is_refused(rt: &impl Abort, world: &mut World, event: Event, fault: EventFault) {
    let found = answer(world, &event);
    assert!(rt; found == Err(fault));
}

/// A message is said, written in these bytes, and read and heard at the other end.
fn delivers(
    rt: &impl Abort,
    alloc: Global,
    world: &mut World,
    (from, to): (Side, Side),
    text: &[u8],
    bytes: &[u8],
) -> Result<(), Fail> {
    says(rt, alloc, world, from, text)?;
    writes(rt, alloc, world, from, bytes)?;
    reads(rt, world, to, 1, bytes.len() as u64)?;
    hears(rt, alloc, world, to, text)
}

/// Two ends that are linked.
fn linked(rt: &impl Abort, alloc: Global) -> Result<World, Fail> {
    let mut world = World::new(alloc)?;
    links(rt, &mut world, 1)?;
    Ok(world)
}

const HI: &[u8] = b"\x01\0\0\0\x01\0\0\0\0\0\0\0\x02hi";

const A: &[u8] = b"\x01\0\0\0\x01\0\0\0\0\0\0\0\x01a";

const ANSWER: &[u8] = b"\x01\0\0\0\x01\0\0\0\x01\0\0\0\x01a";

#[test]
fn a_message_and_its_answer(rt: HostRuntime) -> Result<(), Fail> {
    let alloc = rt.alloc();
    let mut world = linked(&rt, alloc)?;
    delivers(&rt, alloc, &mut world, (Side::A, Side::B), b"hi", HI)?;
    delivers(&rt, alloc, &mut world, (Side::B, Side::A), b"a", ANSWER)?;
    assert_eq!(rt; world.said(Side::A).len(), world.heard(Side::A).len());
    assert_eq!(rt; world.end(Side::A).owed().len(), 0);
    assert_eq!(rt; world.links(), 1);
    Ok(())
}

/// A says a message, of which this part is written and read.
fn says_in_part(
    rt: &impl Abort,
    alloc: Global,
    world: &mut World,
    text: &[u8],
    part: &[u8],
) -> Result<(), Fail> {
    says(rt, alloc, world, Side::A, text)?;
    writes(rt, alloc, world, Side::A, part)?;
    reads(rt, world, Side::B, 1, part.len() as u64)
}

/// The next link joins, and brings an Ack and the message in these bytes.
fn hears_again(
    rt: &impl Abort,
    alloc: Global,
    world: &mut World,
    text: &[u8],
    bytes: &[u8],
) -> Result<(), Fail> {
    joins_again(rt, world)?;
    writes(rt, alloc, world, Side::A, bytes)?;
    reads(rt, world, Side::B, 2, bytes.len() as u64)?;
    takes(rt, world, Side::B, Effect::Up { up: Up::Quiet })?;
    hears(rt, alloc, world, Side::B, text)
}

#[test]
fn a_link_is_cut_within_a_body(rt: HostRuntime) -> Result<(), Fail> {
    let part = b"\x01\0\0\0\x01\0\0\0\0\0\0\0\x02h";
    let again = b"\x03\0\0\0\0\0\0\0\0\0\0\0\0\x01\0\0\0\x01\0\0\0\0\0\0\0\x02hi";
    let mut world = linked(&rt, rt.alloc())?;
    says_in_part(&rt, rt.alloc(), &mut world, b"hi", part)?;
    takes(&rt, &mut world, Side::B, Effect::Nothing)?;
    hears_again(&rt, rt.alloc(), &mut world, b"hi", again)
}

#[test]
fn a_link_is_cut_within_a_header(rt: HostRuntime) -> Result<(), Fail> {
    let part = b"\x01\0\0\0\x01\0\0\0\0\0";
    let again = b"\x03\0\0\0\0\0\0\0\0\0\0\0\0\x01\0\0\0\x01\0\0\0\0\0\0\0\x01a";
    let mut world = linked(&rt, rt.alloc())?;
    says_in_part(&rt, rt.alloc(), &mut world, b"a", part)?;
    hears_again(&rt, rt.alloc(), &mut world, b"a", again)
}

/// At this moment B writes these bytes.
fn writes_at(
    rt: &impl Abort,
    alloc: Global,
    world: &mut World,
    now: u64,
    bytes: &[u8],
) -> Result<(), Fail> {
    ticks(rt, world, Side::B, now, false)?;
    writes(rt, alloc, world, Side::B, bytes)
}

#[test]
fn a_message_is_acknowledged_after_two_seconds(rt: HostRuntime) -> Result<(), Fail> {
    let alloc = rt.alloc();
    let ack = b"\x03\0\0\0\0\0\0\0\x01\0\0\0\0";
    let mut world = linked(&rt, alloc)?;
    delivers(&rt, alloc, &mut world, (Side::A, Side::B), b"a", A)?;
    writes_at(&rt, alloc, &mut world, 2004, b"")?;
    writes_at(&rt, alloc, &mut world, 2005, ack)
}

/// A world of one link, which has begun at A.
fn begun(rt: &impl Abort, alloc: Global) -> Result<World, Fail> {
    let Ok(mut world) = run_world(alloc, &[Event::Link]) else {
        return Err("refused".into());
    };
    begins(rt, &mut world, Side::A, 1)?;
    Ok(world)
}

/// A has not timed out at 19,999 ms, and has at the next tick after 20,000 ms, whatever its moment.
fn times_out(rt: &impl Abort, world: &mut World) -> Result<(), Fail> {
    ticks(rt, world, Side::A, 19_999, false)?;
    is_done(rt, world, Event::At { now: 20_000 })?;
    ticks(rt, world, Side::A, 5, true)
}

#[test]
fn a_silent_peer(rt: HostRuntime) -> Result<(), Fail> {
    let mut world = begun(&rt, rt.alloc())?;
    says(&rt, rt.alloc(), &mut world, Side::A, b"a")?;
    times_out(&rt, &mut world)
}

#[test]
fn events_that_are_refused(rt: HostRuntime) -> Result<(), Fail> {
    let mut world = World::new(rt.alloc())?;
    links(&rt, &mut world, 1)?;
    let (side, count) = (Side::B, Count::Exact { n: 5 });
    let many = EventFault::TooMany { asked: 5, there: 0 };
    is_refused(
        &rt,
        &mut world,
        Event::Cut { link: 3 },
        EventFault::NoSuchLink { link: 3 },
    );
    is_refused(&rt, &mut world, Event::Write { side, count }, many);
    is_refused(
        &rt,
        &mut world,
        Event::Begin {
            side,
            link: 1,
            count,
        },
        many,
    );
    Ok(())
}

fn end_refuses(rt: &impl Abort, world: &mut World, event: Event, fault: EndFault) {
    is_refused(rt, world, event, EventFault::End { fault });
}

/// Two linked ends that have no ids left.
fn with_no_ids(rt: &impl Abort, alloc: Global) -> Result<World, Fail> {
    let mut world = World::from_base(alloc, u64::MAX)?;
    links(rt, &mut world, 1)?;
    Ok(world)
}

fn refuses_to_say(
    rt: &impl Abort,
    alloc: Global,
    world: &mut World,
    side: Side,
) -> Result<(), Fail> {
    let body = Message::copy(alloc, b"a")?;
    end_refuses(rt, world, Event::Say { side, body }, EndFault::IdsSpent);
    Ok(())
}

#[test]
fn an_end_with_no_ids_refuses(rt: HostRuntime) -> Result<(), Fail> {
    let mut world = with_no_ids(&rt, rt.alloc())?;
    let (side, count, link) = (Side::B, Count::All, 1);
    let begin = Event::Begin { side, link, count };
    end_refuses(&rt, &mut world, begin, EndFault::Stale { current: 1 });
    let finish = Event::Finish { side };
    end_refuses(&rt, &mut world, finish, EndFault::NotJoining);
    refuses_to_say(&rt, rt.alloc(), &mut world, side)
}

#[test]
fn an_end_with_no_link_refuses(rt: HostRuntime) -> Result<(), Fail> {
    let mut world = with_no_ids(&rt, rt.alloc())?;
    let side = Side::B;
    is_done(&rt, &mut world, Event::Lose { side })?;
    end_refuses(&rt, &mut world, Event::Pause { side }, EndFault::NoLink);
    is_done(&rt, &mut world, Event::Leave { side })?;
    end_refuses(&rt, &mut world, Event::Resume { side }, EndFault::Ended);
    Ok(())
}
