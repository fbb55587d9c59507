//! The calls of a hub in memory, each of which leads from the server that it was to the one that it is then.
ghost use Rattle.std.specs.Prelude.{◌≢◌, ◌<◌, Some, IfOk};
ghost use Rattle.ra_base.specs.declared.kind.Kind.TheVariants as kinds;
ghost use Rattle.ra_hub.specs.Keeping.{seats_of};
ghost use Rattle.ra_session.specs.View.{TellFits};
ghost use Rattle.ra_record_laws.specs.Servers as servers;
ghost use Rattle.ra_record_laws.specs.Servers.{Steps, Begins};

use ra_base::{Cause, Key, Moment, Request, Seat};
use ra_hub::{Hub, HubFault, PlainHub, StartFault, Swept};
use ra_keep::Keeper;
use ra_session::{Tell, Turn};
use std::alloc::Global;

/// `PlainHub::start`.
pub fn start<R: Keeper + Drop>(
    alloc: Global,
    keeper: R,
    long_grace: u64,
    short_grace: u64,
) -> Result<PlainHub<R>, StartFault<R>>
    ensures { IfOk result (λ hub. Begins R.told long_grace short_grace keeper hub) }
{
    PlainHub::start(alloc, keeper, long_grace, short_grace)
}

/// `Hub::admit` of a `PlainHub`.
pub fn admit<R: Keeper + Drop>(
    hub: &mut PlainHub<R>,
    alloc: Global,
    ask: Request,
    now: Moment,
) -> Result<Seat, HubFault>
    requires { ask.kind ≢ Some kinds.Tunnel }
    ensures { Steps R.told (servers.admit ask now result) hub.old hub.new }
{
    hub.admit(alloc, ask, now)
}

/// `Hub::attach` of a `PlainHub`.
pub fn attach<R: Keeper + Drop>(
    hub: &mut PlainHub<R>,
    alloc: Global,
    seat: &Seat,
    chunk: &[u8],
    now: Moment,
) -> Result<(), HubFault>
    requires { 0 < seats_of hub.old seat.now }
    ensures { Steps R.told (servers.attach seat.now chunk.now now result) hub.old hub.new }
{
    hub.attach(alloc, seat, chunk, now)
}

/// `Hub::turn` of a `PlainHub`.
pub fn turn<R: Keeper + Drop>(
    hub: &mut PlainHub<R>,
    alloc: Global,
    seat: &Seat,
    piece: &[u8],
    now: Moment,
) -> Result<Turn, HubFault>
    requires { 0 < seats_of hub.old seat.now }
    ensures { Steps R.told (servers.turn seat.now piece.now now result) hub.old hub.new }
{
    hub.turn(alloc, seat, piece, now)
}

/// `Hub::tell` of a `PlainHub`.
pub fn tell<R: Keeper + Drop>(
    hub: &mut PlainHub<R>,
    alloc: Global,
    key: &Key,
    word: Tell,
    now: Moment,
) -> Result<(), HubFault>
    requires { TellFits word }
    ensures { Steps R.told (servers.tell key.now word now result) hub.old hub.new }
{
    hub.tell(alloc, key, word, now)
}

/// `Hub::lost` of a `PlainHub`.
pub fn lose<R: Keeper + Drop>(hub: &mut PlainHub<R>, seat: Seat, now: Moment)
    requires { 0 < seats_of hub.old seat }
    ensures { Steps R.told (servers.lose seat now) hub.old hub.new }
{
    hub.lost(seat, now);
}

/// `Hub::close` of a `PlainHub`.
pub fn close<R: Keeper + Drop>(hub: &mut PlainHub<R>, seat: Seat, cause: Cause, now: Moment)
    requires { 0 < seats_of hub.old seat }
    ensures { Steps R.told (servers.close seat cause now) hub.old hub.new }
{
    hub.close(seat, cause, now);
}

/// `Hub::tick` of a `PlainHub`.
pub fn tick<R: Keeper + Drop>(hub: &mut PlainHub<R>, alloc: Global, now: Moment) -> Swept
    ensures { Steps R.told (servers.tick now result.expired result.short) hub.old hub.new }
{
    hub.tick(alloc, now)
}
