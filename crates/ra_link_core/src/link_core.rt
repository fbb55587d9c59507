//! One connection, piece by piece.
ghost use Rattle.std.specs.Prelude.{◌≡◌, ◌++◌, ℕ, List, None, IsSome, MatchOption};
ghost use Rattle.ra_items.specs.Heads.{Head, IsRequestOf};
ghost use Rattle.ra_upgrade.specs.declared.request_head.HeadFault.{HeadFault};
ghost use Rattle.ra_upgrade.specs.declared.request_head.Upgrade.{Upgrade};
ghost use Rattle.ra_opening.specs.Comes.{AsksFraming};
ghost use Rattle.ra_opening.specs.Openings.{grounds_of};
ghost use Rattle.ra_opening.specs.Stands.{HasNoHead, IsOpen, IsInShake, NeedsFraming, new_opening};
ghost use Rattle.ra_hub.specs.Hubs as spec;
ghost use Rattle.ra_opening.specs.Budget.{IsLong};
ghost use Rattle.ra_link_core.specs.Carried.{EndCarries, Carries};
ghost use Rattle.ra_link_core.specs.LinkRuns.{Serving, piece_done, with_piece, hub_left};
ghost use Rattle.ra_link_core.specs.Makes.{Holds, Balance, HasEndCause, outcome_of, opening_end};
ghost use Rattle.ra_link_core.specs.Cores.{IsFit, IsOpening, CoreStands, CoreMakes, NotHeld, KnowsHead, OnNoHead, OnOver, HeldOrShort, IsHeld, IsHeldWith, IsPastHead, OnHeld, SetsFramed, seat_in, phase_of, IsDone};

use crate::ask::ask;
use crate::ends::CoreEnd;
use crate::phase::Phase;
use crate::turns::{Step, serve_turns};
use ra_base::{Cause, Moment, Seat};
use ra_hub::{Hub, JobSink};
use ra_opening::{Opening, OpeningEnd, OpeningStep};
use ra_ports::{Entropy, Signer};
use ra_shake::ShakeSettings;
use std::alloc::Global;
use std::marker::Model;
use std::mem;

/// What links are served by.
#[derive(Drop)]
pub struct Settings {
    pub shake: ShakeSettings,
}

/// How far a link is after a piece, and whether it ended.
#[derive(Drop)]
struct After {
    phase: Phase,
    end: Option<CoreEnd>,
}

/// The end that the end of an opening makes.
fn opening_end(end: OpeningEnd) -> CoreEnd
    ensures value { result ≡ opening_end end }
    ensures carries { IsLong end → EndCarries result }
{
    match end {
        OpeningEnd::BadHead { fault } => CoreEnd::BadHead { fault },
        OpeningEnd::Refused { reason } => CoreEnd::Refused { reason },
        OpeningEnd::TooLong { stated } => CoreEnd::TooLong { stated },
        OpeningEnd::Left => CoreEnd::Ended {
            cause: Cause::Disconnected,
        },
        OpeningEnd::NoMemory => CoreEnd::NoMemory,
    }
}

/// How far a link with that seat is, which has ended or not.
fn phase_of(seat: Option<Seat>, end: &Option<CoreEnd>) -> Phase
    ensures { result ≡ phase_of seat end.now }
{
    match seat {
        Some(seat) => match end {
            Some(_) => Phase::Ended { seat },
            None => Phase::Seated { seat },
        },
        None => Phase::Over,
    }
}

fn after_step(step: Step) -> After
    ensures { result ≡ record { phase = phase_of step.seat step.end; end = step.end } }
{
    let Step { seat, end } = step;
    let phase = phase_of(seat, &end);
    After { phase, end }
}

/// A piece of an opening.
fn open_piece<H: Hub, J: JobSink, E: Entropy, G: Signer>(
    alloc: Global,
    mut opening: Opening,
    hub: &mut H,
    jobs: &mut J,
    entropy: &mut E,
    signer: &G,
    settings: &Settings,
    piece: &[u8],
    now: Moment,
    out: &mut Vec<u8>,
) -> After
    requires { IsOpen opening }
    ensures fit { IsFit result.phase }
    ensures holds { Holds (H.seats hub.new) (seat_in result.phase) }
    ensures seats { Balance None (H.seats hub.old) (seat_in result.phase) (H.seats hub.new) }
    ensures cause { HasEndCause (H.keep_faults hub.old) (H.keep_faults hub.new) result.end }
    ensures carries { Carries result.end }
    ensures done { IsSome result.end → IsDone result.phase }
    ensures made { (draw : ℕ → List ℕ) (head : Head Upgrade HeadFault) (text before : List ℕ) (s : Serving)
        → IsRequestOf (text ++ piece.now) head → (NeedsFraming opening.phase → ⊥)
        → let grounds = grounds_of settings.now.shake (G.signature_of signer.now) (G.counts signer.now) draw in
        IsOpening opening grounds head text before (E.draw entropy.old) (H.stands hub.old) (J.told jobs.old)
        out.old.items s
        → CoreMakes (outcome_of result.end) result.phase grounds head (with_piece head text piece.now) before
        (E.draw entropy.new) (H.stands hub.new) (J.told jobs.new) out.new.items s
        (piece_done grounds head text (record { bytes = piece.now; now = now }) s) }
    ensures known { HasNoHead opening → KnowsHead (outcome_of result.end) (opening.reader.unread ++ piece.now) }
    ensures framing { HasNoHead opening → AsksFraming (opening.reader.unread ++ piece.now)
        → HeldOrShort (outcome_of result.end) result.phase }
    ensures once { IsInShake opening.phase → NotHeld result.phase }
    ensures unread { (draw : ℕ → List ℕ) (head : Head Upgrade HeadFault) (text before : List ℕ) (s : Serving)
        → IsRequestOf (text ++ piece.now) head → (NeedsFraming opening.phase → ⊥)
        → let grounds = grounds_of settings.now.shake (G.signature_of signer.now) (G.counts signer.now) draw in
        IsOpening opening grounds head text before (E.draw entropy.old) (H.stands hub.old) (J.told jobs.old)
        out.old.items s
        → OnHeld result.phase (λ front. text ++ piece.now ≡ with_piece head text piece.now ++ front) }
{
    match opening.piece(alloc, entropy, signer, &settings.shake, piece, out) {
        OpeningStep::Waits => After {
            phase: Phase::Opening { opening },
            end: None,
        },
        OpeningStep::Ask { request } => {
            after_step(ask(alloc, hub, jobs, request, opening.unread(), now, out))
        }
        OpeningStep::End { end } => After {
            phase: Phase::Over,
            end: Some(opening_end(end)),
        },
    }
}

/// A piece, by how far the link is.
fn take_piece<H: Hub, J: JobSink, E: Entropy, G: Signer>(
    alloc: Global,
    phase: Phase,
    hub: &mut H,
    jobs: &mut J,
    entropy: &mut E,
    signer: &G,
    settings: &Settings,
    piece: &[u8],
    now: Moment,
    out: &mut Vec<u8>,
) -> After
    requires fit { IsFit phase }
    requires holds { Holds (H.seats hub.old) (seat_in phase) }
    ensures fit { IsFit result.phase }
    ensures holds { Holds (H.seats hub.new) (seat_in result.phase) }
    ensures seats { Balance (seat_in phase) (H.seats hub.old) (seat_in result.phase) (H.seats hub.new) }
    ensures cause { HasEndCause (H.keep_faults hub.old) (H.keep_faults hub.new) result.end }
    ensures carries { Carries result.end }
    ensures made { (draw : ℕ → List ℕ) (head : Head Upgrade HeadFault) (text before : List ℕ) (s : Serving)
        → IsRequestOf (text ++ piece.now) head → NotHeld phase
        → let grounds = grounds_of settings.now.shake (G.signature_of signer.now) (G.counts signer.now) draw in
        CoreStands phase grounds head text before (E.draw entropy.old) (H.stands hub.old) (J.told jobs.old)
        out.old.items s
        → CoreMakes (outcome_of result.end) result.phase grounds head (with_piece head text piece.now) before
        (E.draw entropy.new) (H.stands hub.new) (J.told jobs.new) out.new.items s
        (piece_done grounds head text (record { bytes = piece.now; now = now }) s) }
    ensures known { OnNoHead phase (λ unread. KnowsHead (outcome_of result.end) (unread ++ piece.now)) }
    ensures framing { OnNoHead phase (λ unread. AsksFraming (unread ++ piece.now)
        → HeldOrShort (outcome_of result.end) result.phase) }
    ensures once { IsPastHead phase → NotHeld result.phase }
    ensures unread { (draw : ℕ → List ℕ) (head : Head Upgrade HeadFault) (text before : List ℕ) (s : Serving)
        → IsRequestOf (text ++ piece.now) head → NotHeld phase
        → let grounds = grounds_of settings.now.shake (G.signature_of signer.now) (G.counts signer.now) draw in
        CoreStands phase grounds head text before (E.draw entropy.old) (H.stands hub.old) (J.told jobs.old)
        out.old.items s
        → OnHeld result.phase (λ front. text ++ piece.now ≡ with_piece head text piece.now ++ front) }
    ensures over { OnOver phase ((result ≡ record { phase = phase; end = None }) × (out.new.items ≡ out.old.items)
        × (hub.new ≡ hub.old) × (jobs.new ≡ jobs.old)) }
    ensures done { IsSome result.end → IsDone result.phase }
{
    match phase {
        Phase::Opening { opening } => open_piece(
            alloc, opening, hub, jobs, entropy, signer, settings, piece, now, out,
        ),
        Phase::Seated { seat } => after_step(serve_turns(
            alloc,
            hub,
            jobs,
            seat,
            piece,
            piece.len() / 13,
            now,
            out,
        )),
        Phase::Ended { seat } => After {
            phase: Phase::Ended { seat },
            end: None,
        },
        Phase::Over => After {
            phase: Phase::Over,
            end: None,
        },
    }
}

/// One connection, served piece by piece. A contract sees it as how far it is.
#[derive(Drop)]
pub struct LinkCore {
    phase: Phase,
}

impl Model for LinkCore {
    ghost use Rattle.ra_link_core.specs.declared.phase.Phase.{Phase};
    ghost use Rattle.ra_link_core.specs.Cores.{IsFit};

    ghost Value = { Phase };

    ghost view = { λ c. c.phase };

    ghost invariant = { λ c. IsFit c.phase };
}

impl LinkCore {
    /// A link on which nothing came. It takes no memory.
    pub fn new(alloc: Global) -> LinkCore
        ensures { result ≡ Phase.Opening new_opening }
    {
        LinkCore {
            phase: Phase::Opening {
                opening: Opening::new(alloc),
            },
        }
    }

    /// Handles all that is whole by the end of a piece, and writes what is answered. An empty piece stands for a moment at which
    /// nothing came. The settings and the signer are to be the same for all pieces of a link. After an end it does nothing more.
    ///
    /// Where memory runs out, what was done stays done, and the link ends.
    pub fn piece<H: Hub, J: JobSink, E: Entropy, G: Signer>(
        &mut self,
        alloc: Global,
        hub: &mut H,
        jobs: &mut J,
        entropy: &mut E,
        signer: &G,
        settings: &Settings,
        piece: &[u8],
        now: Moment,
        out: &mut Vec<u8>,
    ) -> Option<CoreEnd>
        requires { Holds (H.seats hub.old) (seat_in self.old) }
        ensures holds { Holds (H.seats hub.new) (seat_in self.new) }
        ensures seats { Balance (seat_in self.old) (H.seats hub.old) (seat_in self.new) (H.seats hub.new) }
        ensures cause { HasEndCause (H.keep_faults hub.old) (H.keep_faults hub.new) result }
        // over any hub, what an end carries is true
        ensures carries { Carries result }
        ensures made { (draw : ℕ → List ℕ) (head : Head Upgrade HeadFault) (text before : List ℕ) (s : Serving)
            → IsRequestOf (text ++ piece.now) head → NotHeld self.old
            → let grounds = grounds_of settings.now.shake (G.signature_of signer.now) (G.counts signer.now) draw in
            CoreStands self.old grounds head text before (E.draw entropy.old) (H.stands hub.old) (J.told jobs.old)
            out.old.items s
            → CoreMakes (outcome_of result) self.new grounds head (with_piece head text piece.now) before
            (E.draw entropy.new) (H.stands hub.new) (J.told jobs.new) out.new.items s
            (piece_done grounds head text (record { bytes = piece.now; now = now }) s) }
        ensures known { OnNoHead self.old (λ unread. KnowsHead (outcome_of result) (unread ++ piece.now)) }
        ensures framing { OnNoHead self.old (λ unread. AsksFraming (unread ++ piece.now)
            → HeldOrShort (outcome_of result) self.new) }
        // it waits to be framed only as its head ends, and what is unread then is what does not count
        ensures once { IsPastHead self.old → NotHeld self.new }
        ensures unread { (draw : ℕ → List ℕ) (head : Head Upgrade HeadFault) (text before : List ℕ) (s : Serving)
            → IsRequestOf (text ++ piece.now) head → NotHeld self.old
            → let grounds = grounds_of settings.now.shake (G.signature_of signer.now) (G.counts signer.now) draw in
            CoreStands self.old grounds head text before (E.draw entropy.old) (H.stands hub.old) (J.told jobs.old)
            out.old.items s
            → OnHeld self.new (λ front. text ++ piece.now ≡ with_piece head text piece.now ++ front) }
        // after an end it does nothing more
        ensures over { OnOver self.old ((result ≡ None) × (self.new ≡ self.old) × (out.new.items ≡ out.old.items)
            × (hub.new ≡ hub.old) × (jobs.new ≡ jobs.old)) }
        ensures done { IsSome result → IsDone self.new }
    {
        let phase = mem::replace(&mut self.phase, Phase::Over);
        let after = take_piece(
            alloc, phase, hub, jobs, entropy, signer, settings, piece, now, out,
        );
        let After { phase, end } = after;
        self.phase = phase;
        end
    }

    /// Where the head asks for WebSocket messages and the link is not framed yet: the front of the framed stream that was read
    /// already. Nothing behind the head is handled before `set_framed`.
    pub fn framing(&self) -> Option<&[u8]>
        ensures { MatchOption result (NotHeld self.now) (λ rest. IsHeldWith self.now rest.now) }
    {
        match &self.phase {
            Phase::Opening { opening } => framing_of(opening),
            Phase::Seated { seat: _ } | Phase::Ended { seat: _ } | Phase::Over => None,
        }
    }

    /// From here on the pieces are those of the framed stream's payload.
    pub fn set_framed(&mut self)
        requires { IsHeld self.old }
        ensures made { SetsFramed self.old self.new }
        ensures framed { NotHeld self.new }
        ensures seat { seat_in self.new ≡ None }
    {
        match &mut self.phase {
            Phase::Opening { opening } => opening.set_framed(),
            Phase::Seated { seat: _ } | Phase::Ended { seat: _ } | Phase::Over => unreachable!(),
        }
    }

    /// Reports the seat lost, where there is one. It takes no memory.
    pub fn leave<H: Hub>(self, hub: &mut H, now: Moment)
        requires { Holds (H.seats hub.old) (seat_in self) }
        ensures seats { Balance (seat_in self) (H.seats hub.old) None (H.seats hub.new) }
        ensures kept { H.keep_faults hub.new ≡ H.keep_faults hub.old }
        ensures made { (h : spec.Hub) → H.stands hub.old h → H.stands hub.new (hub_left (seat_in self) now h) }
    {
        let LinkCore { phase } = self;
        leave_in(phase, hub, now);
    }
}

/// The unread bytes of an opening that waits for its link to be framed.
fn framing_of(opening: &Opening) -> Option<&[u8]>
    ensures { MatchOption result (NeedsFraming opening.now.phase → ⊥)
        (λ rest. NeedsFraming opening.now.phase × (rest.now ≡ opening.now.reader.unread)) }
{
    if opening.needs_framing() {
        Some(opening.unread())
    } else {
        None
    }
}

/// Reports the seat of a link lost.
fn leave_in<H: Hub>(phase: Phase, hub: &mut H, now: Moment)
    requires { Holds (H.seats hub.old) (seat_in phase) }
    ensures seats { Balance (seat_in phase) (H.seats hub.old) None (H.seats hub.new) }
    ensures kept { H.keep_faults hub.new ≡ H.keep_faults hub.old }
    ensures made { (h : spec.Hub) → H.stands hub.old h → H.stands hub.new (hub_left (seat_in phase) now h) }
{
    match phase {
        Phase::Seated { seat } => hub.lost(seat, now),
        Phase::Ended { seat } => hub.lost(seat, now),
        Phase::Opening { opening } => drop(opening),
        Phase::Over => {}
    }
}
