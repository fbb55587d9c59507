//! A window's session over two links, by a core that is given its bytes piece by piece.
ghost use Rattle.std.specs.Prelude.{Some, IfOk};
ghost use Rattle.ra_values.specs.Spelling.{Fits, levels};
ghost use Rattle.ra_values.specs.View.{tree};
ghost use Rattle.ra_session.specs.View.{FireFits, TellFits};
ghost use Rattle.ra_link_core.specs.Cores.{seat_in};
ghost use Rattle.ra_link_core.specs.Makes.{Holds};

use crate::fixtures::{
    ACK_2, Around, FIRST, GREETING, SECOND, SERVER_1, append_control, at, head, key, make_around,
};
use ra_base::NoMemory;
use ra_chan_server::Fire;
use ra_hub::{Hub, PlainHub};
use ra_ipc::Answer;
use ra_link::LinkCore;
use ra_session::Tell;
use ra_values::{Text, Value};
use std::alloc::Global;
use std::test::Fail;

const OK: &[u8] = br#"{"type":"ok"}"#;

const CLIENT_3: &[u8] =
    b"\x01\0\0\0\x03\0\0\0\x01\0\0\0\x17\x04\x04\x06\x64\x06\0\x01\x05tools\x01\x04echo\x01\x02hi";

const SERVER_2: &[u8] = b"\x01\0\0\0\x02\0\0\0\x03\0\0\0\x0b\x04\x02\x06\xc9\x01\x06\0\x01\x02hi";

const CLIENT_4: &[u8] =
    b"\x01\0\0\0\x04\0\0\0\x01\0\0\0\x14\x04\x04\x06\x66\x06\x01\x01\x05tools\x01\x04said\0";

const ACK_4: &[u8] = b"\x03\0\0\0\0\0\0\0\x04\0\0\0\0";

/// An Ack of 2, and client message 5.
const CLIENT_5: &[u8] =
    b"\x03\0\0\0\0\0\0\0\x02\0\0\0\0\x01\0\0\0\x05\0\0\0\x02\0\0\0\x19\x04\x04\x06\x64\x06\x02\x01\x05tools\x01\x06length\x01\x02hi";

const SERVER_3: &[u8] = b"\x01\0\0\0\x03\0\0\0\x05\0\0\0\x09\x04\x02\x06\xc9\x01\x06\x02\x06\x02";

const CLIENT_6: &[u8] =
    b"\x01\0\0\0\x06\0\0\0\x03\0\0\0\x16\x04\x04\x06\x64\x06\x03\x01\x05tools\x01\x03say\x01\x02hi";

/// Server messages 4 and 5: the event, and the answer.
const SERVER_4_5: &[u8] =
    b"\x01\0\0\0\x04\0\0\0\x06\0\0\0\x0b\x04\x02\x06\xcc\x01\x06\x01\x01\x02hi\x01\0\0\0\x05\0\0\0\x06\0\0\0\x08\x04\x02\x06\xc9\x01\x06\x03\0";

/// What is written for a piece, where the link goes on.
fn feed<H: Hub>(core: &mut LinkCore, hub: &mut H, around: &mut Around, piece: &[u8]) -> Vec<u8>
    requires { Holds (H.seats hub.old) (seat_in core.old) }
    ensures { Holds (H.seats hub.new) (seat_in core.new) }
{
    let (alloc, now) = (around.alloc, around.now);
    let (jobs, entropy) = (&mut around.jobs, &mut around.entropy);
    let (signer, settings) = (&around.signer, &around.settings);
    let mut out = Vec::new(alloc);
    let end = core.piece(
        alloc, hub, jobs, entropy, signer, settings, piece, now, &mut out,
    );
    if end.is_some() {
        out.clear();
    }
    out
}

/// These bytes are written for a piece.
fn says<H: Hub>(
    core: &mut LinkCore,
    hub: &mut H,
    around: &mut Around,
    piece: &[u8],
    bytes: &[u8],
) -> bool
    requires { Holds (H.seats hub.old) (seat_in core.old) }
    ensures { Holds (H.seats hub.new) (seat_in core.new) }
{
    let out = feed(core, hub, around, piece);
    out.as_slice() == bytes
}

/// The text `hi`.
fn hi(alloc: Global) -> Result<Value, Fail>
    ensures { IfOk result (λ value. Fits levels (tree value)) }
{
    let text = Text::of(alloc, "hi")?;
    Ok(Value::Text { text })
}

/// The event `said` of `hi`.
fn said(alloc: Global) -> Result<Fire, Fail>
    ensures { IfOk result (λ fire. FireFits (Some fire)) }
{
    Ok(Fire {
        channel: Text::of(alloc, "tools")?,
        event: Text::of(alloc, "said")?,
        body: hi(alloc)?,
    })
}

fn answer(id: i32, body: Value, fire: Option<Fire>) -> Tell
    requires body { Fits levels (tree body) }
    requires fire { FireFits fire }
    ensures { TellFits result }
{
    let answer = Answer::Success { body };
    Tell::Answer { id, answer, fire }
}

/// The answer to `echo`, to `length` and to `say`, by the id of the call.
fn answer_to(alloc: Global, id: i32) -> Result<Tell, Fail>
    ensures { IfOk result TellFits }
{
    match id {
        0 => Ok(answer(id, hi(alloc)?, None)),
        2 => Ok(answer(id, Value::Int { n: 2 }, None)),
        _ => Ok(answer(id, Value::Undefined, Some(said(alloc)?))),
    }
}

/// The call with this id is answered.
#[tactic(auto, using(ra_link_core::proofs::SeatLemmas::holds_stay))]
fn tell<H: Hub>(core: &LinkCore, hub: &mut H, around: &Around, id: i32) -> Result<bool, Fail>
    requires { Holds (H.seats hub.old) (seat_in core.now) }
    ensures { Holds (H.seats hub.new) (seat_in core.now) }
{
    let key = key()?;
    let tell = answer_to(around.alloc, id)?;
    Ok(hub.tell(around.alloc, &key, tell, around.now).is_ok())
}

/// A tick.
#[tactic(auto, using(ra_link_core::proofs::SeatLemmas::holds_stay))]
fn tick<H: Hub>(core: &LinkCore, hub: &mut H, around: &Around)
    requires { Holds (H.seats hub.old) (seat_in core.now) }
    ensures { Holds (H.seats hub.new) (seat_in core.now) }
{
    hub.tick(around.alloc, around.now);
}

/// A short body as the bytes of a control frame.
fn control(alloc: Global, body: &[u8]) -> Result<Vec<u8>, NoMemory> {
    let mut bytes = Vec::new(alloc);
    append_control(&mut bytes, body)?;
    Ok(bytes)
}

/// Whether these bytes end what is written for the second message of the handshake.
fn is_accepted<H: Hub>(
    core: &mut LinkCore,
    hub: &mut H,
    around: &mut Around,
    reconnection: bool,
    bytes: &[u8],
) -> Result<bool, Fail>
    requires { Holds (H.seats hub.old) (seat_in core.old) }
    ensures { Holds (H.seats hub.new) (seat_in core.new) }
{
    let head = head(around.alloc, "t1", reconnection, true)?;
    let first = control(around.alloc, FIRST)?;
    let second = control(around.alloc, SECOND)?;
    feed(core, hub, around, &head);
    feed(core, hub, around, &first);
    Ok(feed(core, hub, around, &second).ends_with(bytes))
}

/// The first link, up to the acknowledgement of the listen.
fn first<H: Hub>(core: &mut LinkCore, hub: &mut H, around: &mut Around) -> Result<bool, Fail>
    requires { Holds (H.seats hub.old) (seat_in core.old) }
    ensures { Holds (H.seats hub.new) (seat_in core.new) }
{
    let accepted = is_accepted(core, hub, around, false, OK)?;
    let greeted = says(core, hub, around, GREETING, SERVER_1);
    let called = says(core, hub, around, CLIENT_3, &[]);
    let told = tell(core, hub, around, 0)?;
    let answered = says(core, hub, around, &[], SERVER_2);
    let listened = says(core, hub, around, CLIENT_4, &[]);
    around.now = at(2_005);
    tick(core, hub, around);
    let acknowledged = says(core, hub, around, ACK_2, ACK_4);
    Ok(accepted && greeted && called && told && answered && listened && acknowledged)
}

/// The second link, up to the event and the last answer.
fn second<H: Hub>(core: &mut LinkCore, hub: &mut H, around: &mut Around) -> Result<bool, Fail>
    requires { Holds (H.seats hub.old) (seat_in core.old) }
    ensures { Holds (H.seats hub.new) (seat_in core.new) }
{
    let accepted = is_accepted(core, hub, around, true, ACK_4)?;
    let called = says(core, hub, around, CLIENT_5, &[]);
    let told = tell(core, hub, around, 2)?;
    let answered = says(core, hub, around, &[], SERVER_3);
    let heard = says(core, hub, around, CLIENT_6, &[]);
    let said = tell(core, hub, around, 3)?;
    let fired = says(core, hub, around, &[], SERVER_4_5);
    Ok(accepted && called && told && answered && heard && said && fired)
}

fn first_link<H: Hub>(hub: &mut H, around: &mut Around) -> Result<bool, Fail> {
    let mut core = LinkCore::new(around.alloc);
    let done = first(&mut core, hub, around)?;
    around.now = at(10_000);
    core.leave(hub, around.now);
    Ok(done)
}

fn second_link<H: Hub>(hub: &mut H, around: &mut Around) -> Result<bool, Fail> {
    let mut core = LinkCore::new(around.alloc);
    let done = second(&mut core, hub, around)?;
    core.leave(hub, around.now);
    Ok(done)
}

#[test]
fn a_session_goes_on_over_a_second_link(rt: HostRuntime) -> Result<(), Fail> {
    let mut hub = PlainHub::new(rt.alloc(), 10_800_000, 300_000);
    let mut around = make_around(rt.alloc())?;
    assert!(rt; first_link(&mut hub, &mut around)?);
    assert!(rt; second_link(&mut hub, &mut around)?);
    Ok(())
}
