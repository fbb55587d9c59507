//! A load of sessions that are lost or have ended, each after a long message, and of ticks over them.
ghost use Rattle.std.specs.Prelude.{◌≡◌, ◌≢◌, Some, IfOk};
ghost use Rattle.ra_base.specs.declared.kind.Kind.TheVariants as kinds;

use ra_base::{Cause, Kind, Moment, Request, Token};
use ra_frame::append_written;
use ra_hub::{Hub, HubFault, PlainHub};
use std::alloc::Global;

/// The request for an extension host's session, whose token has this number.
fn request(alloc: Global, n: u32) -> Result<Request, HubFault>
    ensures { IfOk result (λ ask. ask.kind ≢ Some kinds.Tunnel) }
{
    let text = format!(in alloc; "s{n}")?;
    let Ok(token) = Token::from_text(text.as_str()) else {
        return Err(HubFault::NoSession);
    };
    Ok(Request {
        kind: Some(Kind::ExtensionHost),
        token,
        reconnection: false,
    })
}

/// The first message of a client, of so many bytes.
fn message(alloc: Global, size: usize) -> Result<Vec<u8>, HubFault> {
    let mut bytes = Vec::new(alloc);
    if size <= 268_000_000 {
        let body = vec![in alloc; 120; size]?;
        append_written(&mut bytes, 1, 1, 0, body.as_slice())?;
    }
    Ok(bytes)
}

/// What becomes of a session.
#[derive(Clone, Copy, Debug, PartialEq, Eq)]
pub enum Fate {
    Stays,
    Lost,
    Ends,
}

/// A session begins, hears a message, and then this becomes of it.
#[tactic(auto, using(crate::proofs::Stays::then_still))]
fn session<H: Hub>(
    hub: &mut H,
    alloc: Global,
    n: u32,
    piece: &[u8],
    fate: Fate,
    now: Moment,
) -> Result<(), HubFault> {
    let ask = request(alloc, n)?;
    let seat = hub.admit(alloc, ask, now)?;
    hub.attach(alloc, &seat, &[], now)?;
    hub.turn(alloc, &seat, piece, now)?;
    match fate {
        Fate::Stays => {}
        Fate::Lost => hub.lost(seat, now),
        Fate::Ends => hub.close(seat, Cause::Disconnected, now),
    }
    Ok(())
}

/// So many sessions, from this number on.
fn sessions<H: Hub>(
    hub: &mut H,
    alloc: Global,
    first: u32,
    count: u32,
    piece: &[u8],
    fate: Fate,
    now: Moment,
) -> Result<(), HubFault> {
    for n in 0..count {
        session(hub, alloc, first.saturating_add(n), piece, fate, now)?;
    }
    Ok(())
}

/// So many sessions, each of which hears a message of that many bytes and is then lost or ends. How many there were is told.
pub fn run(alloc: Global, fate: Fate, count: u32, size: usize) -> Result<u32, HubFault> {
    let Some(now) = Moment::of_millis(0) else {
        return Ok(0);
    };
    let piece = message(alloc, size)?;
    let mut hub = PlainHub::new(alloc, 10_800_000, 300_000);
    sessions(&mut hub, alloc, 0, count, piece.as_slice(), fate, now)?;
    Ok(count)
}

/// So many sessions that have ended, 100 that have not, and so many ticks. How many ticks there were is told.
pub fn ticks(alloc: Global, ended: u32, count: u32) -> Result<u32, HubFault> {
    let Some(now) = Moment::of_millis(0) else {
        return Ok(0);
    };
    let mut hub = PlainHub::new(alloc, 10_800_000, 300_000);
    sessions(&mut hub, alloc, 0, 100, &[], Fate::Stays, now)?;
    sessions(&mut hub, alloc, 100, ended, &[], Fate::Ends, now)?;
    for _ in 0..count {
        hub.tick(alloc, now);
    }
    Ok(count)
}
