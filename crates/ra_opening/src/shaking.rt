//! The frames of a handshake.
ghost use Rattle.std.specs.Prelude.{◌≡◌, ◌≢◌, ◌<◌, ◌⊎◌, ℕ, List, Some, true, false, length};
ghost use Rattle.ra_model.specs.declared.frame.Frame.{Frame};
ghost use Rattle.ra_model.specs.FirstFrame.{first_frame};
ghost use Rattle.ra_items.specs.Heads.{Head};
ghost use Rattle.ra_frame.specs.Fronts.{states_above};
ghost use Rattle.ra_shake.specs.Limits.{text_limit};
ghost use Rattle.ra_shake.specs.declared.server.Stage.TheVariants as stages;
ghost use Rattle.ra_shake.specs.declared.settings.ShakeSettings.{ShakeSettings};
ghost use Rattle.ra_shake.specs.States.{ServerState};
ghost use Rattle.ra_upgrade.specs.declared.request_head.HeadFault.{HeadFault};
ghost use Rattle.ra_upgrade.specs.declared.request_head.Upgrade.{Upgrade};
ghost use Rattle.ra_opening.specs.Openings.{Grounds, grounds_of};
ghost use Rattle.ra_opening.specs.Stands.{IsShaking};
ghost use Rattle.ra_opening.specs.Budget.{FoundWithin, WaitsWithin, FoundLong, EndsLong};
ghost use Rattle.ra_opening.specs.Comes.{PassesOver, Finds, Answers, Refuses, Shakes, AsksServed, IsControl, found_of};

use crate::ends::{OpeningEnd, OpeningStep};
use crate::writing::{write_control, write_refusal};
use ra_base::{Message, Reason, Request};
use ra_frame::FrameFault;
use ra_items::ItemReader;
use ra_ports::Signer;
use ra_shake::{ServerShake, ShakeStep, TEXT_LIMIT};
use std::alloc::Global;

/// The types of the frames that count in a handshake.
const CONTROL: u8 = 2;

const DISCONNECT: u8 = 5;

/// What the frames of a handshake come to, up to the first that counts.
#[derive(Drop)]
pub(crate) enum Found {
    /// No frame is whole.
    Waits,
    /// A control frame with that body.
    Control { body: Message },
    /// A Disconnect.
    Left,
    TooLong { stated: u32 },
    NoMemory,
}

/// What a message of the handshake comes to.
#[derive(Drop)]
pub(crate) enum Controlled {
    /// It was answered, and the handshake waits for the next one.
    Said,
    Ask { request: Request },
    /// It was refused, and that was written.
    Refused { reason: Reason },
    NoMemory,
}

fn found_of(fault: FrameFault) -> Found
    ensures { result ≡ found_of fault }
{
    match fault {
        FrameFault::TooLong { stated } => Found::TooLong { stated },
        FrameFault::NoMemory => Found::NoMemory,
    }
}

/// Passes over the frames that say nothing to a handshake, without a copy of their bodies, up to one that counts, or that is not whole.
/// Answers false at a header that states more than a text of a handshake has.
fn pass_over(reader: &mut ItemReader) -> bool
    requires { reader.old.behind_head ≡ true }
    ensures passed { PassesOver reader.old reader.new }
    ensures within { result ≡ true → states_above text_limit reader.new.unread ≡ false }
    ensures counts { result ≡ true → (f : Frame) (rest : List ℕ) → first_frame reader.new.unread ≡ Some (f, rest)
        → (f.kind ≡ 2) ⊎ (f.kind ≡ 5) }
{
    'frames: loop {
        if reader.states_above(TEXT_LIMIT) {
            return false;
        }
        let Some((kind, size)) = reader.ahead() else {
            return true;
        };
        if kind == CONTROL || kind == DISCONNECT {
            return true;
        }
        reader.skip(size);
    }
}

/// The first frame that counts in a handshake.
fn find(alloc: Global, reader: &mut ItemReader) -> Found
    requires { reader.old.behind_head ≡ true }
    ensures behind { reader.new.behind_head ≡ true }
    ensures shorter { IsControl result → length reader.new.unread < length reader.old.unread }
    ensures bounded { FoundWithin result reader.new }
    ensures long { FoundLong result }
    ensures found { (grounds : Grounds) (head : Head Upgrade HeadFault) (text before : List ℕ) (next : ℕ → List ℕ)
        (shake : ServerState) (out : List ℕ)
        → IsShaking grounds head text before next reader.old shake out
        → Finds result grounds head text before next reader.new shake out }
{
    if !pass_over(reader) {
        return Found::NoMemory;
    }
    match reader.next_frame(alloc) {
        Err(fault) => found_of(fault),
        Ok(None) => Found::Waits,
        Ok(Some(frame)) => {
            if frame.kind == CONTROL {
                Found::Control { body: frame.body }
            } else {
                Found::Left
            }
        }
    }
}

/// Judges a message of the handshake, and writes what it says.
fn answer_control<G: Signer>(
    alloc: Global,
    shake: &mut ServerShake,
    signer: &G,
    body: &[u8],
    out: &mut Vec<u8>,
) -> Controlled
    requires { shake.old.stage ≢ stages.Over }
    ensures { Answers result (G.signature_of signer.now) (G.counts signer.now) shake.old shake.new body.now
        out.old.items out.new.items }
{
    match shake.on_control(alloc, signer, body) {
        Err(_) => Controlled::NoMemory,
        Ok(ShakeStep::Ask { request }) => Controlled::Ask { request },
        Ok(ShakeStep::Say { text }) => match write_control(out, text.as_slice()) {
            Ok(()) => Controlled::Said,
            Err(_) => Controlled::NoMemory,
        },
        Ok(ShakeStep::Refuse { reason }) => refuse(alloc, reason, out),
    }
}

/// Writes a refusal.
fn refuse(alloc: Global, reason: Reason, out: &mut Vec<u8>) -> Controlled
    ensures { Refuses result reason out.old.items out.new.items }
{
    match write_refusal(alloc, reason, out) {
        Ok(()) => Controlled::Refused { reason },
        Err(_) => Controlled::NoMemory,
    }
}

/// The frames of a handshake, as many as are whole.
pub(crate) fn shake_on<G: Signer>(
    alloc: Global,
    reader: &mut ItemReader,
    shake: &mut ServerShake,
    signer: &G,
    out: &mut Vec<u8>,
) -> OpeningStep
    requires behind { reader.old.behind_head ≡ true }
    requires open { shake.old.stage ≢ stages.Over }
    ensures made { (settings : ShakeSettings) (draw : ℕ → List ℕ) (head : Head Upgrade HeadFault)
        (text before : List ℕ) (next : ℕ → List ℕ)
        → let grounds = grounds_of settings (G.signature_of signer.now) (G.counts signer.now) draw in
        IsShaking grounds head text before next reader.old shake.old out.old.items
        → Shakes result grounds head text before next reader.new shake.new out.new.items }
    ensures served { AsksServed result }
    ensures bounded { WaitsWithin result reader.new }
    ensures long { EndsLong result }
    ensures open { result ≡ OpeningStep.Waits → shake.new.stage ≢ stages.Over }
    ensures behind { reader.new.behind_head ≡ true }
{
    'controls: loop {
        let body = match find(alloc, reader) {
            Found::Waits => return OpeningStep::Waits,
            Found::Left => return ended(OpeningEnd::Left),
            Found::TooLong { stated } => return ended(OpeningEnd::TooLong { stated }),
            Found::NoMemory => return ended(OpeningEnd::NoMemory),
            Found::Control { body } => body,
        };
        match answer_control(alloc, shake, signer, body.as_slice(), out) {
            Controlled::Said => {}
            Controlled::Ask { request } => return OpeningStep::Ask { request },
            Controlled::Refused { reason } => return ended(OpeningEnd::Refused { reason }),
            Controlled::NoMemory => return ended(OpeningEnd::NoMemory),
        }
    }
}

pub(crate) fn ended(end: OpeningEnd) -> OpeningStep
    ensures { result ≡ OpeningStep.End end }
{
    OpeningStep::End { end }
}
