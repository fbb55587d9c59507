//! What a client that asks for a session is answered, and how its session begins.
ghost use Rattle.std.specs.Prelude.{◌≡◌, ◌≢◌, ◌<◌, ◌≤◌, ℕ, Some, None};
ghost use Rattle.ra_base.specs.declared.kind.Kind.TheVariants as kinds;
ghost use Rattle.ra_registry.specs.Admission.{key_of};
ghost use Rattle.ra_link_core.specs.Carried.{Carries};
ghost use Rattle.ra_link_core.specs.LinkRuns.{Serving, attached, asked, welcomed, writes};
ghost use Rattle.ra_link_core.specs.Makes.{Base, IsGoing, Happens, Makes, RefusesRequest, Holds, Balance, NotUnkept, IsSeated, HasEndCause, outcome_of, over_by};
ghost use Rattle.ra_opening.specs.Verdicts.{acceptance_bytes};

use crate::ends::CoreEnd;
use crate::turns::{Step, hub_end, serve_turns};
use ra_base::{Kind, Moment, Request, Seat};
use ra_hub::{Hub, HubFault, JobSink};
use ra_opening::{write_acceptance, write_refusal};
use std::alloc::Global;

/// A link without a seat that has ended.
fn over_by(end: CoreEnd) -> Step
    ensures value { result ≡ over_by end }
    ensures seated { IsSeated result }
{
    Step {
        seat: None,
        end: Some(end),
    }
}

/// The session begins, with what was read behind the request.
fn begin<H: Hub, J: JobSink>(
    alloc: Global,
    hub: &mut H,
    jobs: &mut J,
    seat: Seat,
    chunk: &[u8],
    now: Moment,
    out: &mut Vec<u8>,
) -> Step
    requires { 0 < H.seats hub.old seat }
    ensures holds { Holds (H.seats hub.new) result.seat }
    ensures seats { Balance (Some seat) (H.seats hub.old) result.seat (H.seats hub.new) }
    ensures kept { H.keep_faults hub.new ≡ H.keep_faults hub.old }
    ensures never { NotUnkept result.end }
    ensures carries { Carries result.end }
    ensures seated { IsSeated result }
    ensures made { (base : Base) (s v : Serving)
        → IsGoing (Some seat) (H.stands hub.old) (J.told jobs.old) base out.old.items v → Happens s v
        → Makes (outcome_of result.end) result.seat (H.stands hub.new) (J.told jobs.new) base out.new.items s
        (attached seat chunk.now now v) }
{
    match hub.attach(alloc, &seat, chunk, now) {
        Err(fault) => Step {
            seat: Some(seat),
            end: Some(hub_end(fault)),
        },
        Ok(()) => serve_turns(alloc, hub, jobs, seat, &[], chunk.len() / 13, now, out),
    }
}

/// Answers a request that the hub refuses.
fn refuse(alloc: Global, fault: HubFault, out: &mut Vec<u8>) -> Step
    ensures answers { RefusesRequest fault result out.old.items out.new.items }
    ensures carries { Carries result.end }
    ensures seated { IsSeated result }
{
    match fault {
        HubFault::Refused { reason } => match write_refusal(alloc, reason, out) {
            Ok(()) => over_by(CoreEnd::Refused { reason }),
            Err(_) => over_by(CoreEnd::NoMemory),
        },
        HubFault::KeepFault => over_by(CoreEnd::KeepFault),
        HubFault::NoSession | HubFault::Session { fault: _ } | HubFault::NoMemory => {
            over_by(CoreEnd::NoMemory)
        }
    }
}

/// Answers a client that was admitted, and begins its session.
fn welcome<H: Hub, J: JobSink>(
    alloc: Global,
    hub: &mut H,
    jobs: &mut J,
    seat: Seat,
    kind: Kind,
    chunk: &[u8],
    now: Moment,
    out: &mut Vec<u8>,
) -> Step
    requires seat { 0 < H.seats hub.old seat }
    requires kind { kind ≢ kinds.Tunnel }
    ensures holds { Holds (H.seats hub.new) result.seat }
    ensures seats { Balance (Some seat) (H.seats hub.old) result.seat (H.seats hub.new) }
    ensures kept { H.keep_faults hub.new ≡ H.keep_faults hub.old }
    ensures never { NotUnkept result.end }
    ensures carries { Carries result.end }
    ensures seated { IsSeated result }
    ensures made { (place : ℕ) (base : Base) (s v : Serving) → kind ≡ seat.key.kind
        → IsGoing (Some seat) (H.stands hub.old) (J.told jobs.old) base out.old.items (record v { seat = Some seat })
        → Happens s (record v { seat = Some seat })
        → Makes (outcome_of result.end) result.seat (H.stands hub.new) (J.told jobs.new) base out.new.items s
        (attached seat chunk.now now (welcomed seat place (writes (acceptance_bytes seat.key.kind) v))) }
{
    match write_acceptance(alloc, kind, out) {
        Err(_) => Step {
            seat: Some(seat),
            end: Some(CoreEnd::NoMemory),
        },
        Ok(()) => begin(alloc, hub, jobs, seat, chunk, now, out),
    }
}

/// The kind of the session that a request is about.
fn kind_of(request: &Request) -> Kind
    requires { request.now.kind ≢ Some kinds.Tunnel }
    ensures value { result ≡ (key_of request.now).kind }
    ensures kind { result ≢ kinds.Tunnel }
{
    match request.kind {
        Some(kind) => kind,
        None => Kind::Management,
    }
}

/// A client asks for a session.
pub(crate) fn ask<H: Hub, J: JobSink>(
    alloc: Global,
    hub: &mut H,
    jobs: &mut J,
    request: Request,
    chunk: &[u8],
    now: Moment,
    out: &mut Vec<u8>,
) -> Step
    requires { request.kind ≢ Some kinds.Tunnel }
    ensures holds { Holds (H.seats hub.new) result.seat }
    ensures seats { Balance None (H.seats hub.old) result.seat (H.seats hub.new) }
    ensures cause { HasEndCause (H.keep_faults hub.old) (H.keep_faults hub.new) result.end }
    ensures carries { Carries result.end }
    ensures seated { IsSeated result }
    ensures made { (place : ℕ) (base : Base) (s v : Serving)
        → IsGoing None (H.stands hub.old) (J.told jobs.old) base out.old.items v → Happens s v
        → Makes (outcome_of result.end) result.seat (H.stands hub.new) (J.told jobs.new) base out.new.items s
        (asked request place chunk.now now v) }
{
    let kind = kind_of(&request);
    match hub.admit(alloc, request, now) {
        Err(fault) => refuse(alloc, fault, out),
        Ok(seat) => welcome(alloc, hub, jobs, seat, kind, chunk, now, out),
    }
}
