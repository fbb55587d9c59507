//! A load for the hub: sessions, and calls that come over the links of all of them in turn and are answered by hand.
ghost use Rattle.std.specs.Prelude.{◌≡◌, ◌≢◌, ◌<◌, All, Some, IfOk};
ghost use Rattle.ra_base.specs.declared.kind.Kind.TheVariants as kinds;
ghost use Rattle.ra_hub.specs.HubSeats.{Stay};

use ra_base::{Kind, Moment, Request, Seat, Token};
use ra_hub::{Hub, HubFault, PlainHub};
use ra_ipc::Answer;
use ra_session::{Happened, Tell, Turn, Work};
use ra_values::Value;
use std::alloc::Global;

/// The context `window` and Initialize, as the frames of a client.
const OPENING: &[u8] =
    b"\x01\0\0\0\x01\0\0\0\0\0\0\0\x08\x01\x06window\x01\0\0\0\x02\0\0\0\0\0\0\0\x06\x04\x01\x06\xc8\x01\0";

/// The call 0, of `echo` with the text `hi`.
const ECHO: &[u8] = b"\x04\x04\x06\x64\x06\0\x01\x05tools\x01\x04echo\x01\x02hi";

/// The frame of a client's call: it is the message with this id, and acknowledges those up to the other.
fn frame(alloc: Global, id: u32, ack: u32) -> Result<Vec<u8>, HubFault> {
    let mut frame = Vec::with_capacity(alloc, 64)?;
    frame.push(1)?;
    frame.extend_from_slice(&id.to_be_bytes())?;
    frame.extend_from_slice(&ack.to_be_bytes())?;
    frame.extend_from_slice(&[0, 0, 0, 23])?;
    frame.extend_from_slice(ECHO)?;
    Ok(frame)
}

/// The call of this turn is answered. How many are answered is told: one, or none where there was no call.
fn answer<H: Hub>(
    hub: &mut H,
    alloc: Global,
    seat: &Seat,
    turn: Turn,
    now: Moment,
) -> Result<u64, HubFault>
    ensures { Stay (H.seats hub.old) (H.seats hub.new) }
{
    let Some(
        Happened::Work {
            work: Work::Call { id, .. },
        },
    ) = turn.happened
    else {
        return Ok(0);
    };
    let tell = Tell::Answer {
        id,
        answer: Answer::Success {
            body: Value::Undefined,
        },
        fire: None,
    };
    hub.tell(alloc, &seat.key, tell, now)?;
    Ok(1)
}

/// One call comes over the link of this seat, and is answered.
#[tactic(auto, using(crate::proofs::Stays::then_still))]
fn echo<H: Hub>(
    hub: &mut H,
    alloc: Global,
    seat: &Seat,
    piece: &[u8],
    now: Moment,
) -> Result<u64, HubFault>
    requires { 0 < H.seats hub.old seat.now }
    ensures { Stay (H.seats hub.old) (H.seats hub.new) }
{
    let turn = hub.turn(alloc, seat, piece, now)?;
    answer(hub, alloc, seat, turn, now)
}

/// One call comes over the link of each seat, and is answered. How many were answered is told.
fn echo_all<H: Hub>(
    hub: &mut H,
    alloc: Global,
    seats: &[Seat],
    piece: &[u8],
    now: Moment,
) -> Result<u64, HubFault>
    requires { All (λ seat. 0 < H.seats hub.old seat) seats.now }
    ensures { All (λ seat. 0 < H.seats hub.new seat) seats.now }
{
    let mut answered: u64 = 0;
    for seat in seats {
        let answer = echo(hub, alloc, seat, piece, now)?;
        answered = answered.saturating_add(answer);
    }
    Ok(answered)
}

/// The request for a new session, whose token has this number.
fn request(alloc: Global, n: u32) -> Result<Request, HubFault>
    ensures { IfOk result (λ ask. ask.kind ≢ Some kinds.Tunnel) }
{
    let text = format!(in alloc; "s{n}")?;
    let Ok(token) = Token::from_text(text.as_str()) else {
        return Err(HubFault::NoSession);
    };
    Ok(Request {
        kind: Some(Kind::Management),
        token,
        reconnection: false,
    })
}

/// A session begins, and hears the context and Initialize.
#[tactic(auto)]
fn open<H: Hub>(hub: &mut H, alloc: Global, n: u32, now: Moment) -> Result<Seat, HubFault>
    ensures seat { IfOk result (λ seat. 0 < H.seats hub.new seat) }
    ensures others { (seat : Seat) → 0 < H.seats hub.old seat → 0 < H.seats hub.new seat }
{
    let ask = request(alloc, n)?;
    let seat = hub.admit(alloc, ask, now)?;
    begin(hub, alloc, &seat, now)?;
    Ok(seat)
}

/// A link begins, and the session hears the context and Initialize.
#[tactic(auto, using(crate::proofs::Stays::then_still))]
fn begin<H: Hub>(hub: &mut H, alloc: Global, seat: &Seat, now: Moment) -> Result<(), HubFault>
    requires { 0 < H.seats hub.old seat.now }
    ensures { Stay (H.seats hub.old) (H.seats hub.new) }
{
    hub.attach(alloc, seat, OPENING, now)?;
    hub.turn(alloc, seat, &[], now)?;
    hub.turn(alloc, seat, &[], now)?;
    Ok(())
}

/// So many sessions begin.
fn open_all<H: Hub>(
    hub: &mut H,
    alloc: Global,
    count: u32,
    now: Moment,
) -> Result<Vec<Seat>, HubFault>
    ensures { IfOk result (λ seats. All (λ seat. 0 < H.seats hub.new seat) seats.items) }
{
    let mut seats = Vec::new(alloc);
    for n in 0..count {
        let seat = open(hub, alloc, n, now)?;
        seats.push(seat)?;
    }
    Ok(seats)
}

/// So many rounds, in each of which one call comes over each link and is answered. How many were answered is told.
fn rounds<H: Hub>(
    hub: &mut H,
    alloc: Global,
    seats: &[Seat],
    rounds: u32,
    now: Moment,
) -> Result<u64, HubFault>
    requires seats { All (λ seat. 0 < H.seats hub.old seat) seats.now }
    requires few { rounds < 1000000 }
{
    let mut answered: u64 = 0;
    for round in 0..rounds {
        let piece = frame(alloc, round + 3, round + 1)?;
        let more = echo_all(hub, alloc, seats, piece.as_slice(), now)?;
        answered = answered.saturating_add(more);
    }
    Ok(answered)
}

/// So many sessions in one hub, and so many rounds of calls. How many calls were answered is told.
pub fn run(alloc: Global, sessions: u32, count: u32) -> Result<u64, HubFault> {
    let Some(now) = Moment::of_millis(0) else {
        return Ok(0);
    };
    if count >= 1_000_000 {
        return Ok(0);
    }
    let mut hub = PlainHub::new(alloc, 10_800_000, 300_000);
    let seats = open_all(&mut hub, alloc, sessions, now)?;
    rounds(&mut hub, alloc, seats.as_slice(), count, now)
}
