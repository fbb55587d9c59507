//! A load for the registry: sessions that come and end, and then sessions that come, are lost, come again and end.
ghost use Rattle.std.specs.Prelude.{◌≡◌, ◌≢◌, Some, IfOk};
ghost use Rattle.ra_base.specs.declared.kind.Kind.TheVariants as kinds;
ghost use Rattle.ra_registry.specs.Seats.{IsUnspent};

use ra_base::{Cause, Kind, Moment, Request, Seat, Token};
use ra_keep::MemKeeper;
use ra_registry::{AdmitFault, Registry};
use std::alloc::Global;

/// The request for the session of that number.
fn request(alloc: Global, number: u64, reconnection: bool) -> Result<Request, AdmitFault>
    ensures { IfOk result (λ ask. ask.kind ≢ Some kinds.Tunnel) }
{
    let name = format!(in alloc; "session-{number}")?;
    match Token::from_text(name.as_str()) {
        Ok(token) => Ok(Request {
            kind: Some(Kind::Management),
            token,
            reconnection,
        }),
        Err(_) => Err(AdmitFault::NoMemory),
    }
}

/// Admits the session of that number.
fn admit(
    alloc: Global,
    registry: &mut Registry,
    keeper: &mut MemKeeper,
    number: u64,
    reconnection: bool,
) -> Result<Seat, AdmitFault>
    ensures { IfOk result (λ seat. IsUnspent seat registry.new.history) }
{
    let ask = request(alloc, number, reconnection)?;
    registry.admit(alloc, keeper, ask, Moment::start())
}

/// A session that comes and ends.
fn come_and_end(
    alloc: Global,
    registry: &mut Registry,
    keeper: &mut MemKeeper,
    number: u64,
) -> Result<(), AdmitFault> {
    let seat = admit(alloc, registry, keeper, number, false)?;
    registry.close(seat, Cause::Disconnected, Moment::start());
    Ok(())
}

/// A session that comes, is lost, comes again and ends.
fn come_twice(
    alloc: Global,
    registry: &mut Registry,
    keeper: &mut MemKeeper,
    number: u64,
) -> Result<(), AdmitFault> {
    let seat = admit(alloc, registry, keeper, number, false)?;
    registry.lost(seat, Moment::start());
    let seat = admit(alloc, registry, keeper, number, true)?;
    registry.close(seat, Cause::Disconnected, Moment::start());
    Ok(())
}

/// So many sessions that come and end, and then so many that come twice. The number of entries is told.
pub fn run(alloc: Global, ended: u64, twice: u64) -> Result<usize, AdmitFault> {
    let mut registry = Registry::new(alloc, 10_800_000, 300_000);
    let mut keeper = MemKeeper::new(alloc);
    for number in 0..ended {
        come_and_end(alloc, &mut registry, &mut keeper, number)?;
    }
    for number in ended..ended.saturating_add(twice) {
        come_twice(alloc, &mut registry, &mut keeper, number)?;
    }
    Ok(registry.history().len())
}
