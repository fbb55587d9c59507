//! A whole connection over a link.
ghost use Rattle.std.specs.Prelude.{◌≡◌, ◌≤◌, ◌<◌, ◌++◌, ℕ, Bool, true, false, List, [], Option, Some, None, length, IfOk, IfSome};
ghost use Rattle.ra_items.specs.Heads.{Head, IsRequestOf};
ghost use Rattle.ra_upgrade.specs.declared.request_head.HeadFault.{HeadFault};
ghost use Rattle.ra_upgrade.specs.declared.request_head.Upgrade.{Upgrade};
ghost use Rattle.ra_opening.specs.Openings.{grounds_of};
ghost use Rattle.ra_ports.specs.Causes.{Rose};
ghost use Rattle.ra_ports.specs.Links.{StartsPayload, IsHanded};
ghost use Rattle.ra_base.specs.declared.key.Seat.{Seat};
ghost use Rattle.ra_hub.specs.Hubs as spec;
ghost use Rattle.ra_hub.specs.Jobs.{SeenJob};
ghost use Rattle.ra_link_core.specs.Carried.{EndCarries};
ghost use Rattle.ra_link.specs.Carried.{LinkCarries};
ghost use Rattle.ra_link_core.specs.LinkRuns.{Serving, piece_done, with_piece, new_serving};
ghost use Rattle.ra_link_core.specs.Makes.{Happens, Holds, Balance};
ghost use Rattle.ra_link_core.specs.Cores.{CoreStands, NotHeld, IsHeld, IsBehindHead, OnHeld, OnNoHead, SetsFramed, seat_in};
ghost use Rattle.ra_link.specs.Served.{AfterPiece, Starts, WasServed, IsServed, IsComplete, IsPieceEnd, OnSome, OnBroke, OnNotKept, EndedSo, OnFramed, Frames, LinkKnows, MadeCalls, raised, link_outcome, link_end, broken_end, got_len};

use crate::ends::LinkEnd;
use ra_base::Moment;
use ra_hub::{Hub, JobSink};
use ra_link_core::{CoreEnd, LinkCore, Settings};
use ra_ports::{Clock, Entropy, Got, Link, LinkFault, Signer, send_all};
use std::alloc::{AllocError, Global};

/// How many bytes a link is asked for at a time.
const PIECE: usize = 65_536;

fn link_end(end: CoreEnd) -> LinkEnd
    ensures value { result ≡ link_end end }
    ensures carries { EndCarries end → LinkCarries result }
{
    match end {
        CoreEnd::BadHead { fault } => LinkEnd::BadHead { fault },
        CoreEnd::Refused { reason } => LinkEnd::Refused { reason },
        CoreEnd::TooLong { stated } => LinkEnd::TooLong { stated },
        CoreEnd::BadIpc { fault, message } => LinkEnd::BadIpc { fault, message },
        CoreEnd::Stale { current } => LinkEnd::Stale { current },
        CoreEnd::NoLink => LinkEnd::NoLink,
        CoreEnd::Ended { cause } => LinkEnd::Ended { cause },
        CoreEnd::IdsSpent => LinkEnd::IdsSpent,
        CoreEnd::KeepFault => LinkEnd::KeepFault,
        CoreEnd::NoMemory => LinkEnd::NoMemory,
    }
}

/// The end where not all could be sent.
fn broken_by(end: CoreEnd) -> LinkEnd
    ensures value { result ≡ broken_end (Some end) }
    ensures carries { LinkCarries result }
{
    match end {
        CoreEnd::NoMemory => LinkEnd::NoMemory,
        CoreEnd::KeepFault => LinkEnd::KeepFault,
        CoreEnd::BadHead { fault: _ }
        | CoreEnd::Refused { reason: _ }
        | CoreEnd::TooLong { stated: _ }
        | CoreEnd::Stale { current: _ }
        | CoreEnd::NoLink
        | CoreEnd::Ended { cause: _ }
        | CoreEnd::IdsSpent => LinkEnd::LinkFault,
        CoreEnd::BadIpc { fault: _, message } => {
            drop(message);
            LinkEnd::LinkFault
        }
    }
}

fn broken(end: Option<CoreEnd>) -> LinkEnd
    ensures value { result ≡ broken_end end }
    ensures carries { LinkCarries result }
{
    match end {
        Some(end) => broken_by(end),
        None => LinkEnd::LinkFault,
    }
}

/// Goes over to a framed stream, where the head asks for it.
fn frame_link<L: Link>(link: &mut L, core: &mut LinkCore) -> Option<LinkEnd>
    ensures unheld { NotHeld core.old
        → (result ≡ None) × (core.new ≡ core.old) × (L.incoming link.new ≡ L.incoming link.old) }
    ensures held { IsHeld core.old → OnFramed result (SetsFramed core.old core.new) (core.new ≡ core.old) }
    ensures framed { result ≡ None → NotHeld core.new }
    ensures payload { result ≡ None
        → OnHeld core.old (λ front. StartsPayload (L.incoming link.old) (L.incoming link.new) front) }
    ensures handed { result ≡ None
        → OnHeld core.old (λ front. IsHanded (L.sent link.old) (L.incoming link.new) front) }
    ensures unframed { IfSome result (λ _. (L.incoming link.new).framed ≡ (L.incoming link.old).framed) }
    ensures seat { seat_in core.new ≡ seat_in core.old }
    ensures sent { L.sent link.new ≡ L.sent link.old }
    ensures ended { (L.incoming link.new).ended ≡ (L.incoming link.old).ended }
    ensures calls { (L.incoming link.new).receives ≡ (L.incoming link.old).receives }
    ensures room { (L.incoming link.new).room ≡ (L.incoming link.old).room }
    ensures later { L.faults link.old ≤ L.faults link.new }
    ensures cause { OnSome result (λ end. OnBroke end (Rose (L.faults link.old) (L.faults link.new))) }
    ensures carries { IfSome result LinkCarries }
{
    let framed = match core.framing() {
        None => return None,
        Some(rest) => link.go_framed(rest),
    };
    match framed {
        Ok(()) => {
            core.set_framed();
            None
        }
        Err(LinkFault::Failed) => Some(LinkEnd::LinkFault),
        Err(LinkFault::NoMemory) => Some(LinkEnd::NoMemory),
    }
}

/// One piece: what it comes to is sent.
fn serve_piece<L: Link, H: Hub, J: JobSink, E: Entropy, G: Signer>(
    alloc: Global,
    link: &mut L,
    hub: &mut H,
    jobs: &mut J,
    entropy: &mut E,
    signer: &G,
    settings: &Settings,
    core: &mut LinkCore,
    piece: &[u8],
    now: Moment,
) -> Option<LinkEnd>
    requires { Holds (H.seats hub.old) (seat_in core.old) }
    ensures holds { Holds (H.seats hub.new) (seat_in core.new) }
    ensures seats { Balance (seat_in core.old) (H.seats hub.old) (seat_in core.new) (H.seats hub.new) }
    ensures framed { result ≡ None → NotHeld core.new }
    ensures ended { (L.incoming link.new).ended ≡ (L.incoming link.old).ended }
    ensures calls { (L.incoming link.new).receives ≡ (L.incoming link.old).receives }
    ensures room { (L.incoming link.new).room ≡ (L.incoming link.old).room }
    ensures later { L.faults link.old ≤ L.faults link.new }
    ensures cause { OnSome result (λ end. OnBroke end (Rose (L.faults link.old) (L.faults link.new))) }
    ensures carries { IfSome result LinkCarries }
    ensures kept_later { H.keep_faults hub.old ≤ H.keep_faults hub.new }
    ensures kept { OnSome result (λ end. OnNotKept end (Rose (H.keep_faults hub.old) (H.keep_faults hub.new))) }
    ensures never { OnSome result IsPieceEnd }
    ensures made { (draw : ℕ → List ℕ) (head : Head Upgrade HeadFault) (text first : List ℕ) (start s : Serving)
        → IsRequestOf (text ++ piece.now) head → NotHeld core.old
        → let grounds = grounds_of settings.now.shake (G.signature_of signer.now) (G.counts signer.now) draw in
        CoreStands core.old grounds head text s.out (E.draw entropy.old) (H.stands hub.old) (J.told jobs.old) [] s
        → L.sent link.old ≡ Some (first ++ s.out) → Happens start s
        → AfterPiece result core.new grounds head (with_piece head text piece.now) (E.draw entropy.new) first
        (L.sent link.new) (H.stands hub.new) (J.told jobs.new) (Rose (L.faults link.old) (L.faults link.new)) start
        (piece_done grounds head text (record { bytes = piece.now; now = now }) s) }
    ensures known { OnNoHead core.old (λ unread. LinkKnows result (unread ++ piece.now)) }
    ensures came { (draw : ℕ → List ℕ) (head : Head Upgrade HeadFault) (text first : List ℕ) (s : Serving)
        → IsRequestOf (text ++ piece.now) head → NotHeld core.old → IsBehindHead core.old head text
        → let grounds = grounds_of settings.now.shake (G.signature_of signer.now) (G.counts signer.now) draw in
        CoreStands core.old grounds head text s.out (E.draw entropy.old) (H.stands hub.old) (J.told jobs.old) [] s
        → L.sent link.old ≡ Some (first ++ s.out)
        → Frames result head text piece.now
        (length (first ++ (piece_done grounds head text (record { bytes = piece.now; now = now }) s).out))
        (L.incoming link.old) (L.incoming link.new) }
{
    let mut out = Vec::new(alloc);
    let end = core.piece(
        alloc, hub, jobs, entropy, signer, settings, piece, now, &mut out,
    );
    match send_all(link, &out) {
        Err(_) => Some(broken(end)),
        Ok(()) => match end {
            Some(end) => Some(link_end(end)),
            None => frame_link(link, core),
        },
    }
}

/// How a connection ended, and the last moment that was told.
#[derive(Drop)]
struct Closing {
    end: LinkEnd,
    now: Moment,
}

fn ending_at(end: LinkEnd, now: Moment) -> Closing
    ensures { result ≡ record { end = end; now = now } }
{
    Closing { end, now }
}

/// How many bytes a link gave, where it is not over.
fn got_len(got: Got) -> Option<usize>
    ensures { result ≡ got_len got }
{
    match got {
        Got::Bytes { n } => Some(n),
        Got::NotYet => Some(0),
        Got::End => None,
    }
}

/// The pieces of a connection, one after another.
fn serve_pieces<L: Link, H: Hub, J: JobSink, C: Clock, E: Entropy, G: Signer>(
    alloc: Global,
    link: &mut L,
    hub: &mut H,
    jobs: &mut J,
    clock: &mut C,
    entropy: &mut E,
    signer: &G,
    settings: &Settings,
    core: &mut LinkCore,
    into: &mut [u8],
    turns: u64,
) -> Closing
    requires some { 0 < length into.old }
    requires holds { Holds (H.seats hub.old) (seat_in core.old) }
    requires framed { NotHeld core.old }
    ensures holds { Holds (H.seats hub.new) (seat_in core.new) }
    ensures seats { Balance (seat_in core.old) (H.seats hub.old) (seat_in core.new) (H.seats hub.new) }
    ensures cause { OnBroke (link_outcome result.end) (Rose (L.faults link.old) (L.faults link.new)) }
    ensures carries { LinkCarries result.end }
    ensures kept { OnNotKept (link_outcome result.end) (Rose (H.keep_faults hub.old) (H.keep_faults hub.new)) }
    ensures ended { (L.incoming link.old).ended ≡ false
        → EndedSo (link_outcome result.end) (L.incoming link.new).ended }
    ensures calls { MadeCalls (link_outcome result.end) turns (length into.old) (L.incoming link.old) (L.incoming link.new) }
    ensures made { (draw : ℕ → List ℕ) (first : List ℕ) (start : Serving) (moments : ℕ → ℕ)
        → let grounds = grounds_of settings.now.shake (G.signature_of signer.now) (G.counts signer.now) draw in
        Starts grounds start first moments (L.sent link.old) core.old (E.draw entropy.old) (H.stands hub.old)
        (J.told jobs.old) (C.tells clock.old) (C.moment clock.old)
        → WasServed result.end grounds start first moments turns (L.incoming link.old) (L.incoming link.new)
        (L.sent link.new) (seat_in core.new) (H.stands hub.new) (J.told jobs.new)
        (Rose (L.faults link.old) (L.faults link.new)) result.now }
{
    let mut now = Moment::start();
    for turn in 0..turns {
        let got = link.recv(into);
        now = clock.now();
        match got {
            Err(_) => return ending_at(LinkEnd::LinkFault, now),
            Ok(got) => match got_len(got) {
                None => return ending_at(LinkEnd::Closed, now),
                Some(n) => {
                    let piece = &into[..n];
                    match serve_piece(
                        alloc, link, hub, jobs, entropy, signer, settings, core, piece, now,
                    ) {
                        Some(end) => return ending_at(end, now),
                        None => {}
                    }
                }
            },
        }
    }
    ending_at(LinkEnd::TurnsSpent, now)
}

/// A buffer of that many bytes.
fn make_buffer(alloc: Global, len: usize) -> Result<Vec<u8>, AllocError>
    ensures { IfOk result (λ buffer. length buffer.items ≡ len) }
{
    vec![in alloc; 0; len]
}

/// Serves a connection over a link, from its first byte to its end.
///
/// The link is asked at most `turns` times, for 65,536 bytes each time, and the clock is read once after each time. All that is
/// answered to a piece is sent before the next one is asked for. Where the head asks for WebSocket messages, the link goes over to
/// frames once the answer to the head is sent, and is handed all that was read behind the head. The seat that the connection got is
/// spent when this returns: its session is closed where the client left or sent a bad message, and else the link is reported lost.
pub fn serve_link<L: Link, H: Hub, J: JobSink, C: Clock, E: Entropy, G: Signer>(
    alloc: Global,
    link: &mut L,
    hub: &mut H,
    jobs: &mut J,
    clock: &mut C,
    entropy: &mut E,
    signer: &G,
    settings: &Settings,
    turns: u64,
) -> LinkEnd
    ensures seats { (other : Seat) → H.seats hub.new other ≡ H.seats hub.old other }
    ensures cause { OnBroke (link_outcome result) (Rose (L.faults link.old) (L.faults link.new)) }
    // over any link, hub, jobs and clock, what the end carries is true
    ensures carries { LinkCarries result }
    ensures kept { OnNotKept (link_outcome result) (Rose (H.keep_faults hub.old) (H.keep_faults hub.new)) }
    ensures ended { (L.incoming link.old).ended ≡ false → EndedSo (link_outcome result) (L.incoming link.new).ended }
    ensures calls { MadeCalls (link_outcome result) turns 65536 (L.incoming link.old) (L.incoming link.new) }
    ensures made { (first : List ℕ) (h : spec.Hub) (js : List SeenJob)
        → L.sent link.old ≡ Some first → H.stands hub.old h → J.told jobs.old ≡ Some js → C.tells clock.old ≡ true
        → IsServed result
        (grounds_of settings.now.shake (G.signature_of signer.now) (G.counts signer.now) (E.draw entropy.old))
        (new_serving h js) first (C.moment clock.old) turns (L.incoming link.old) (L.incoming link.new)
        (L.sent link.new) (H.stands hub.new) (J.told jobs.new) (Rose (L.faults link.old) (L.faults link.new)) }
    ensures complete { (first : List ℕ) (h : spec.Hub) (js : List SeenJob)
        → L.sent link.old ≡ Some first → H.stands hub.old h → J.told jobs.old ≡ Some js → C.tells clock.old ≡ true
        → (Rose (L.faults link.old) (L.faults link.new) → ⊥)
        → (Rose (H.keep_faults hub.old) (H.keep_faults hub.new) → ⊥)
        → IsComplete result
        (grounds_of settings.now.shake (G.signature_of signer.now) (G.counts signer.now) (E.draw entropy.old))
        (new_serving h js) first (C.moment clock.old) turns (L.incoming link.old) (L.incoming link.new)
        (L.sent link.new) (H.stands hub.new) (J.told jobs.new) (Rose (L.faults link.old) (L.faults link.new)) }
{
    let mut core = LinkCore::new(alloc);
    let Ok(mut into) = make_buffer(alloc, PIECE) else {
        return LinkEnd::NoMemory;
    };
    let served = serve_pieces(
        alloc, link, hub, jobs, clock, entropy, signer, settings, &mut core, &mut into, turns,
    );
    core.leave(hub, served.now);
    served.end
}
