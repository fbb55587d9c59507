//! The running opening: it takes what comes on a link in pieces, and writes what is answered.
ghost use Rattle.std.specs.Prelude.{◌≡◌, ◌≢◌, ◌↔◌, ◌-◌, ◌++◌, ℕ, Bool, List, [], true, false, length, take, IsTrue, OnOk, OnErr};
ghost use Rattle.ra_items.specs.Heads.{Head, IsRequestOf};
ghost use Rattle.ra_shake.specs.declared.server.Stage.TheVariants as stages;
ghost use Rattle.ra_shake.specs.declared.settings.ShakeSettings.{ShakeSettings};
ghost use Rattle.ra_upgrade.specs.declared.request_head.HeadFault.{HeadFault};
ghost use Rattle.ra_upgrade.specs.declared.request_head.Upgrade.{Upgrade};
ghost use Rattle.ra_opening.specs.Openings.{Grounds, grounds_of};
ghost use Rattle.ra_opening.specs.Stands.{OpeningState, Stands, IsShaking, IsUnopened, IsFed, IsOpen, IsFinished, HasNoHead, PhaseFits, IsInShake, NeedsFraming, new_opening, framed_phase};
ghost use Rattle.ra_opening.specs.Budget.{WaitsBounded, EndsLong};
ghost use Rattle.ra_opening.specs.declared.ends.OpeningEnd.{OpeningEnd};
ghost use Rattle.ra_opening.specs.Comes.{Comes, IsKnown, AsksFraming, WaitsForFraming, AsksServed};

use crate::ends::{OpeningEnd, OpeningStep};
use crate::heading::{Headed, open_head};
use crate::phase::Phase;
use crate::shaking::{ended, shake_on};
use ra_items::ItemReader;
use ra_ports::{Entropy, Signer};
use ra_shake::{ServerShake, ShakeSettings};
use std::alloc::Global;
use std::marker::Model;
use std::mem;

/// What a piece comes to, and how far the opening is then.
#[derive(Drop)]
struct Taken {
    step: OpeningStep,
    phase: Phase,
}

fn over(step: OpeningStep) -> Taken
    ensures { result ≡ record { step = step; phase = Phase.Over } }
{
    Taken {
        step,
        phase: Phase::Over,
    }
}

fn waiting(phase: Phase) -> Taken
    ensures { result ≡ record { step = OpeningStep.Waits; phase = phase } }
{
    Taken {
        step: OpeningStep::Waits,
        phase,
    }
}

/// The frames of the handshake that have come.
fn go_on<G: Signer>(
    alloc: Global,
    reader: &mut ItemReader,
    mut shake: ServerShake,
    signer: &G,
    out: &mut Vec<u8>,
) -> Taken
    requires behind { reader.old.behind_head ≡ true }
    requires open { shake.stage ≢ stages.Over }
    ensures made { (settings : ShakeSettings) (draw : ℕ → List ℕ) (head : Head Upgrade HeadFault)
        (text before : List ℕ) (next : ℕ → List ℕ)
        → let grounds = grounds_of settings (G.signature_of signer.now) (G.counts signer.now) draw in
        IsShaking grounds head text before next reader.old shake out.old.items
        → Comes result.step grounds head text before next (record { reader = reader.new; phase = result.phase })
        out.new.items }
    ensures served { AsksServed result.step }
    ensures bounded { WaitsBounded result.phase reader.new }
    ensures long { EndsLong result.step }
    ensures fits { PhaseFits result.phase reader.new }
    ensures once { NeedsFraming result.phase → ⊥ }
    ensures open { result.step ≡ OpeningStep.Waits → result.phase ≢ Phase.Over }
{
    match shake_on(alloc, reader, &mut shake, signer, out) {
        OpeningStep::Waits => waiting(Phase::Shaking { shake }),
        OpeningStep::Ask { request } => over(OpeningStep::Ask { request }),
        OpeningStep::End { end } => over(OpeningStep::End { end }),
    }
}

/// The head and what follows it, as far as it has come.
fn begin<E: Entropy, G: Signer>(
    alloc: Global,
    reader: &mut ItemReader,
    entropy: &mut E,
    signer: &G,
    settings: &ShakeSettings,
    out: &mut Vec<u8>,
) -> Taken
    requires { reader.old.behind_head ≡ false }
    ensures made { (draw : ℕ → List ℕ) (head : Head Upgrade HeadFault) (text before : List ℕ)
        → IsRequestOf text head
        → let grounds = grounds_of settings.now (G.signature_of signer.now) (G.counts signer.now) draw in
        IsUnopened grounds head text before (E.draw entropy.old) reader.old out.old.items
        → Comes result.step grounds head text before (E.draw entropy.new)
        (record { reader = reader.new; phase = result.phase }) out.new.items }
    ensures known { IsKnown result.step reader.old.unread }
    ensures framing { AsksFraming reader.old.unread
        → WaitsForFraming result.step result.phase out.old.items out.new.items }
    ensures served { AsksServed result.step }
    ensures bounded { WaitsBounded result.phase reader.new }
    ensures long { EndsLong result.step }
    ensures fits { PhaseFits result.phase reader.new }
    ensures open { result.step ≡ OpeningStep.Waits → result.phase ≢ Phase.Over }
{
    match open_head(alloc, reader, entropy, settings, out) {
        Headed::Waits => waiting(Phase::Heading),
        Headed::End { end } => over(OpeningStep::End { end }),
        Headed::Begun { shake, skip_frames } => {
            if skip_frames {
                go_on(alloc, reader, shake, signer, out)
            } else {
                waiting(Phase::Held { shake })
            }
        }
    }
}

/// What has come and is unread, by how far the opening is.
fn take_piece<E: Entropy, G: Signer>(
    alloc: Global,
    reader: &mut ItemReader,
    phase: Phase,
    entropy: &mut E,
    signer: &G,
    settings: &ShakeSettings,
    out: &mut Vec<u8>,
) -> Taken
    requires fits { PhaseFits phase reader.old }
    requires open { phase ≢ Phase.Over }
    ensures made { (draw : ℕ → List ℕ) (head : Head Upgrade HeadFault) (text before : List ℕ)
        → IsRequestOf text head
        → let grounds = grounds_of settings.now (G.signature_of signer.now) (G.counts signer.now) draw in
        IsFed phase grounds head text before (E.draw entropy.old) reader.old out.old.items
        → Comes result.step grounds head text before (E.draw entropy.new)
        (record { reader = reader.new; phase = result.phase }) out.new.items }
    ensures known { phase ≡ Phase.Heading → IsKnown result.step reader.old.unread }
    ensures framing { phase ≡ Phase.Heading → AsksFraming reader.old.unread
        → WaitsForFraming result.step result.phase out.old.items out.new.items }
    ensures once { IsInShake phase → NeedsFraming result.phase → ⊥ }
    ensures draws { (phase ≡ Phase.Heading → ⊥) → E.draw entropy.new ≡ E.draw entropy.old }
    ensures served { AsksServed result.step }
    ensures bounded { WaitsBounded result.phase reader.new }
    ensures long { EndsLong result.step }
    ensures fits { PhaseFits result.phase reader.new }
    ensures open { result.step ≡ OpeningStep.Waits → result.phase ≢ Phase.Over }
{
    match phase {
        Phase::Heading => begin(alloc, reader, entropy, signer, settings, out),
        Phase::Held { shake } => waiting(Phase::Held { shake }),
        Phase::Shaking { shake } => go_on(alloc, reader, shake, signer, out),
        Phase::Over => unreachable!(),
    }
}

/// The phase of a link that was framed.
fn framed(phase: Phase) -> Phase
    ensures { result ≡ framed_phase phase }
{
    match phase {
        Phase::Held { shake } => Phase::Shaking { shake },
        other => other,
    }
}

/// The opening of one link. A contract sees it as its unread bytes and how far it is.
#[derive(Drop)]
pub struct Opening {
    reader: ItemReader,
    phase: Phase,
}

impl Model for Opening {
    ghost use Rattle.ra_opening.specs.Stands.{OpeningState, PhaseFits};

    ghost Value = { OpeningState };

    ghost view = { λ o. record { reader = o.reader; phase = o.phase } };

    ghost invariant = { λ o. PhaseFits o.phase o.reader };
}

impl Opening {
    /// The opening of a link on which nothing came. It takes no memory.
    pub fn new(alloc: Global) -> Opening
        ensures { result ≡ new_opening }
    {
        Opening {
            reader: ItemReader::new(alloc),
            phase: Phase::Heading,
        }
    }

    /// Whether it has asked, or is over without.
    pub fn is_over(&self) -> bool
        ensures { IsTrue result ↔ IsFinished self.now }
    {
        match &self.phase {
            Phase::Over => true,
            Phase::Heading | Phase::Held { shake: _ } | Phase::Shaking { shake: _ } => false,
        }
    }

    /// Takes the next piece, and keeps what is unread of it.
    fn take<E: Entropy, G: Signer>(
        &mut self,
        alloc: Global,
        entropy: &mut E,
        signer: &G,
        settings: &ShakeSettings,
        piece: &[u8],
        out: &mut Vec<u8>,
    ) -> OpeningStep
        requires { IsOpen self.old }
        ensures made { (draw : ℕ → List ℕ) (head : Head Upgrade HeadFault) (text before : List ℕ)
            → IsRequestOf (text ++ piece.now) head
            → let grounds = grounds_of settings.now (G.signature_of signer.now) (G.counts signer.now) draw in
            Stands grounds head text before (E.draw entropy.old) self.old out.old.items
            → Comes result grounds head (text ++ piece.now) before (E.draw entropy.new) self.new out.new.items }
        ensures known { HasNoHead self.old → IsKnown result (self.old.reader.unread ++ piece.now) }
        ensures framing { HasNoHead self.old → AsksFraming (self.old.reader.unread ++ piece.now)
            → WaitsForFraming result self.new.phase out.old.items out.new.items }
        ensures once { IsInShake self.old.phase → NeedsFraming self.new.phase → ⊥ }
        ensures draws { (HasNoHead self.old → ⊥) → E.draw entropy.new ≡ E.draw entropy.old }
        ensures served { AsksServed result }
        ensures bounded { WaitsBounded self.new.phase self.new.reader }
        ensures long { EndsLong result }
        ensures open { result ≡ OpeningStep.Waits → IsOpen self.new }
    {
        let phase = mem::replace(&mut self.phase, Phase::Over);
        match self.reader.feed(piece) {
            Err(_) => ended(OpeningEnd::NoMemory),
            Ok(()) => {
                let reader = &mut self.reader;
                let taken = take_piece(alloc, reader, phase, entropy, signer, settings, out);
                self.phase = taken.phase;
                taken.step
            }
        }
    }

    /// Takes the next piece, and writes what is answered to all that is whole then. The settings and the signer are to be
    /// the same for all pieces of a link. Where the head asks for WebSocket messages, nothing behind it is looked at before
    /// `set_framed`.
    pub fn piece<E: Entropy, G: Signer>(
        &mut self,
        alloc: Global,
        entropy: &mut E,
        signer: &G,
        settings: &ShakeSettings,
        piece: &[u8],
        out: &mut Vec<u8>,
    ) -> OpeningStep
        requires { IsOpen self.old }
        ensures made { (draw : ℕ → List ℕ) (head : Head Upgrade HeadFault) (text before : List ℕ)
            → IsRequestOf (text ++ piece.now) head
            → let grounds = grounds_of settings.now (G.signature_of signer.now) (G.counts signer.now) draw in
            Stands grounds head text before (E.draw entropy.old) self.old out.old.items
            → Comes result grounds head (text ++ piece.now) before (E.draw entropy.new) self.new out.new.items }
        ensures known { HasNoHead self.old → IsKnown result (self.old.reader.unread ++ piece.now) }
        ensures framing { HasNoHead self.old → AsksFraming (self.old.reader.unread ++ piece.now)
            → WaitsForFraming result self.new.phase out.old.items out.new.items }
        ensures once { IsInShake self.old.phase → NeedsFraming self.new.phase → ⊥ }
        ensures draws { (HasNoHead self.old → ⊥) → E.draw entropy.new ≡ E.draw entropy.old }
        ensures served { AsksServed result }
        // at most a head, or the header and the body of a text, wait for what is missing of them
        ensures bounded { WaitsBounded self.new.phase self.new.reader }
        ensures long { EndsLong result }
        ensures given_up { (end : OpeningEnd) → result ≡ OpeningStep.End end → self.new.reader.unread ≡ [] }
        ensures open { result ≡ OpeningStep.Waits → IsOpen self.new }
    {
        match self.take(alloc, entropy, signer, settings, piece, out) {
            OpeningStep::Waits => OpeningStep::Waits,
            OpeningStep::Ask { request } => OpeningStep::Ask { request },
            OpeningStep::End { end } => {
                self.reader.clear();
                OpeningStep::End { end }
            }
        }
    }

    /// Whether the head was accepted and asks for WebSocket messages, and the link was not framed yet.
    pub fn needs_framing(&self) -> bool
        ensures { IsTrue result ↔ NeedsFraming self.now.phase }
    {
        match &self.phase {
            Phase::Held { shake: _ } => true,
            Phase::Heading | Phase::Shaking { shake: _ } | Phase::Over => false,
        }
    }

    /// The unread bytes: where the link is to be framed the front of its framed stream, and behind a request what the
    /// session begins with.
    pub fn unread(&self) -> &[u8]
        ensures { result.now ≡ self.now.reader.unread }
    {
        self.reader.unread()
    }

    /// From here on the pieces are those of the framed stream's payload. The unread bytes are discarded.
    pub fn set_framed(&mut self)
        requires { NeedsFraming self.old.phase }
        ensures made { (grounds : Grounds) (head : Head Upgrade HeadFault) (text before : List ℕ)
            (next : ℕ → List ℕ) (out : List ℕ)
            → Stands grounds head text before next self.old out
            → Stands grounds head (take (length text - length self.old.reader.unread) text) before next self.new out }
        ensures open { IsOpen self.new }
        ensures done { NeedsFraming self.new.phase → ⊥ }
    {
        self.reader.clear();
        let phase = mem::replace(&mut self.phase, Phase::Over);
        self.phase = framed(phase);
    }
}
