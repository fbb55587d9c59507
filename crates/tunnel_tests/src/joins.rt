//! Tests of ra_tunnel: a client and a target in memory that are joined.
ghost use Rattle.std.specs.Prelude.{All, IfOk, length, ◌≡◌};
ghost use Rattle.ra_edge.specs.LineScripts.{IsNew};

use ra_base::Message;
use ra_edge::MemDial;
use ra_ports::{LinkStep, MemLink};
use ra_tunnel::{PipeEnd, TunnelSide, join_target};
use std::alloc::Global;
use std::test::Fail;

/// A link that gives one piece and then ends, and whose listed call fails.
fn link_of(alloc: Global, piece: &[u8], failing: Vec<u64>) -> Result<MemLink, Fail>
    ensures { IfOk result IsNew }
{
    let mut steps = Vec::new(alloc);
    let bytes = Message::copy(alloc, piece)?;
    steps.push(LinkStep::Piece { bytes })?;
    if !steps.iter().all(|step| step.is_filled()) {
        return Err("an empty piece".into());
    }
    Ok(MemLink::new(alloc, steps, Vec::new(alloc), failing))
}

/// A dial of one such link.
fn dial_of(alloc: Global, piece: &[u8], failing: Vec<u64>) -> Result<MemDial, Fail> {
    let mut links = Vec::new(alloc);
    links.push(link_of(alloc, piece, failing)?)?;
    Ok(MemDial::new(alloc, links, Vec::new(alloc)))
}

/// Joins them, with `yes` for the client and `rest` for the target.
fn joined(client: &mut MemLink, dial: &mut MemDial, turns: u64) -> Option<PipeEnd> {
    let mut buffer = [0u8; 16];
    join_target(client, dial, b"yes", b"rest", &mut buffer, turns)
}

/// Whether the target that came back was sent this.
fn was_sent(dial: &MemDial, bytes: &[u8]) -> bool {
    match dial.returned().first() {
        Some(line) => line.sent() == bytes,
        None => false,
    }
}

#[test]
fn both_are_sent_what_the_other_gave(rt: HostRuntime) -> Result<(), Fail> {
    let mut client = link_of(rt.alloc(), b"hi", Vec::new(rt.alloc()))?;
    let mut dial = dial_of(rt.alloc(), b"ok", Vec::new(rt.alloc()))?;
    let end = joined(&mut client, &mut dial, 10);
    let by = TunnelSide::Client;
    assert_eq!(rt; end, Some(PipeEnd::Closed { by }));
    assert!(rt; client.sent() == b"yesok".as_slice());
    assert!(rt; was_sent(&dial, b"resthi"));
    Ok(())
}

#[test]
fn without_a_target_nothing_is_sent(rt: HostRuntime) -> Result<(), Fail> {
    let mut client = link_of(rt.alloc(), b"hi", Vec::new(rt.alloc()))?;
    let mut dial = MemDial::new(rt.alloc(), Vec::new(rt.alloc()), Vec::new(rt.alloc()));
    assert_eq!(rt; joined(&mut client, &mut dial, 10), None);
    assert!(rt; client.sent().is_empty());
    Ok(())
}

#[test]
fn a_target_that_fails_comes_back_and_is_counted(rt: HostRuntime) -> Result<(), Fail> {
    let failing = vec![in rt.alloc(); 2u64]?;
    let mut client = link_of(rt.alloc(), b"hi", Vec::new(rt.alloc()))?;
    let mut dial = dial_of(rt.alloc(), b"ok", failing)?;
    assert_eq!(rt;
        joined(&mut client, &mut dial, 10),
        Some(PipeEnd::TargetFault)
    );
    assert_eq!(rt; dial.line_faults(), 1);
    assert!(rt; was_sent(&dial, b"rest"));
    Ok(())
}

#[test]
fn turns_are_of_both_together(rt: HostRuntime) -> Result<(), Fail> {
    let mut client = link_of(rt.alloc(), b"hi", Vec::new(rt.alloc()))?;
    let mut dial = dial_of(rt.alloc(), b"ok", Vec::new(rt.alloc()))?;
    assert_eq!(rt;
        joined(&mut client, &mut dial, 2),
        Some(PipeEnd::TurnsSpent)
    );
    assert!(rt; client.sent() == b"yesok".as_slice());
    Ok(())
}
