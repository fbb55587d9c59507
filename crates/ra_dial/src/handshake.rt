//! The handshake of one link: bytes come in any pieces, and the server's answer and its frames are looked at one by one.
//!
//! When it has taken too long, and what is done where it fails, is not known here.
ghost use Rattle.std.specs.Prelude.{◌≡◌, ◌≢◌, ◌≤◌, ◌++◌, [], true, Ok, Some, None, IfOk, OnOk, OnErr, length, drop};
ghost use Rattle.std.specs.Vec.{vec_capacity};
ghost use Rattle.ra_model.specs.Frames.{IsFrame, body_limit, frame_bytes};
ghost use Rattle.ra_model.specs.FrameKinds.{frame_kind};
ghost use Rattle.ra_upgrade.specs.AnswerHeads.{AnswerIs};
ghost use Rattle.ra_upgrade.specs.declared.answer_head.AnswerFault.TheVariants as answer_faults;
ghost use Rattle.ra_frame.specs.declared.reader.FrameFault.TheVariants as frame_faults;
ghost use Rattle.ra_sign.specs.Signature.{signature_text};
ghost use Rattle.ra_dial.specs.ShortTexts.{IsShortShake};
ghost use Rattle.ra_dial.specs.Budget.{is_over_budget};
ghost use Rattle.ra_dial.specs.Handshakes as spec;
ghost use Rattle.ra_dial.specs.Handshakes.{Came, Handles, Head, fed, in_frame, goes_on, look_of};

use crate::client::Client;
use ra_base::{Message, NoMemory};
use ra_frame::{Frame, FrameFault, FrameReader, append, header};
use ra_shake::{ClientShake, ClientStep, TEXT_LIMIT};
use ra_sign::Keyed;
use ra_upgrade::{AnswerFault, read_answer};
use std::alloc::Global;
use std::marker::Model;

/// The types of the frames that count in a handshake.
const CONTROL: u8 = 2;

const DISCONNECT: u8 = 5;

const PAUSE: u8 = 7;

/// The bytes of a header.
const HEADER: usize = 13;

/// The handshake of one link. A contract sees it as what it keeps.
#[derive(Drop)]
pub struct Shaking {
    key: Option<[u8; 16]>,
    rest: Option<Message>,
    unread: FrameReader,
    shake: ClientShake,
    pause: Message,
}

impl Model for Shaking {
    ghost use Rattle.ra_dial.specs.ShakingStates.{ShakingState};
    ghost use Rattle.ra_dial.specs.ShortTexts.{IsShortShake};

    ghost Value = { ShakingState };

    ghost view = { λ s. record { key = s.key; rest = s.rest; unread = s.unread; shake = s.shake; pause = s.pause } };

    ghost invariant = { λ s. IsShortShake s.shake };
}

/// What came of looking at the unread bytes.
#[derive(Drop)]
pub enum Handled {
    /// No whole head and no whole frame is there.
    Waits,
    /// It went on. A text in a frame is to be written, or nothing.
    GoesOn { header: Message, text: Message },
    /// What came is no part of a handshake.
    Fails,
    /// The server refuses, by this text.
    Refuses { reason: Message },
    /// The server accepts. These bytes are the first ones of the session.
    Accepts { chunk: Message },
}

/// The text is to be written in a control frame. It takes no memory, where the header has room.
fn says(room: Vec<u8>, text: Message) -> Handled
    requires empty { room.items ≡ [] }
    requires room { 13 ≤ vec_capacity room }
    requires short { length text ≤ body_limit }
    ensures { look_of result ≡ goes_on (in_frame text) }
{
    let frame = Frame {
        kind: CONTROL,
        wide: false,
        id: 0,
        ack: 0,
        body: text,
    };
    let mut bytes = room;
    let Ok(()) = bytes.extend_from_slice(&header(&frame)) else {
        unreachable!();
    };
    Handled::GoesOn {
        header: Message::from_vec(bytes),
        text: frame.body,
    }
}

/// The bytes of a frame.
fn bytes_of(alloc: Global, frame: &Frame) -> Result<Message, NoMemory>
    requires { IsFrame frame.now }
    ensures { IfOk result (λ bytes. bytes ≡ frame_bytes frame.now) }
{
    let mut bytes = Vec::new(alloc);
    append(frame, &mut bytes)?;
    Ok(Message::from_vec(bytes))
}

/// One behind the other.
fn joined(alloc: Global, front: &[u8], back: &[u8]) -> Result<Message, NoMemory>
    ensures { IfOk result (λ bytes. bytes ≡ front.now ++ back.now) }
{
    let mut bytes = Vec::from_slice(alloc, front)?;
    bytes.extend_from_slice(back)?;
    Ok(Message::from_vec(bytes))
}

/// What comes of a faulty answer: it fails, unless memory ran out.
fn bad_answer(fault: AnswerFault) -> Result<Handled, NoMemory>
    ensures fails { IfOk result (λ h. h ≡ Handled.Fails) }
    ensures judged { OnOk result (fault ≢ answer_faults.NoMemory) }
{
    match fault {
        AnswerFault::NoMemory => Err(NoMemory),
        AnswerFault::TooLong
        | AnswerFault::BadHead
        | AnswerFault::Status { .. }
        | AnswerFault::BadAccept => Ok(Handled::Fails),
    }
}

impl Shaking {
    /// A handshake of which nothing was read: the answer to a request with this key is waited for.
    pub fn new(alloc: Global, key: [u8; 16], shake: ClientShake) -> Shaking
        requires { IsShortShake shake }
        ensures { result ≡ record { key = Some key; rest = None; unread = []; shake = shake; pause = [] } }
    {
        Shaking {
            key: Some(key),
            rest: None,
            unread: FrameReader::new(alloc),
            shake,
            pause: Message::empty(alloc),
        }
    }

    /// Whether a header states more than a text of a handshake has, behind the answer.
    fn is_over_budget(&self) -> bool
        ensures { result ≡ is_over_budget self.now }
    {
        self.key.is_none() && self.rest.is_none() && self.unread.states_above(TEXT_LIMIT)
    }

    /// Bytes of the link come. None are taken behind a header that states more than a text of a handshake has.
    pub fn feed(&mut self, alloc: Global, piece: &[u8]) -> Result<(), NoMemory>
        ensures ok { OnOk result (self.new ≡ fed piece.now self.old) }
        ensures same { OnErr result (self.new ≡ self.old) }
        ensures budget { is_over_budget self.old ≡ true → OnOk result ⊥ }
    {
        if self.is_over_budget() {
            return Err(NoMemory);
        }
        if let Some(rest) = &self.rest {
            let longer = joined(alloc, rest.as_slice(), piece)?;
            self.rest = Some(longer);
            return Ok(());
        }
        self.unread.feed(piece)
    }

    /// The server's answer is good, and has that many bytes.
    fn pass_answer(
        &mut self,
        alloc: Global,
        skip_frames: bool,
        len: usize,
    ) -> Result<Handled, NoMemory>
        requires within { len ≤ length self.old.unread }
        ensures came { IfOk result (λ h. Came self.old self.new h (spec.on_answer skip_frames (Ok (Some len)) self.old)) }
        ensures same { OnErr result (self.new ≡ self.old) }
    {
        let room = Vec::with_capacity(alloc, HEADER)?;
        let text = self.shake.first(alloc)?;
        if skip_frames {
            self.key = None;
            self.unread.skip(len);
            return Ok(says(room, text));
        }
        let rest = Message::copy(alloc, &self.unread.unread()[len..])?;
        self.key = None;
        self.rest = Some(rest);
        self.unread.clear();
        Ok(says(room, text))
    }

    /// Looks at the server's answer to a request with that key.
    fn take_answer(
        &mut self,
        alloc: Global,
        skip_frames: bool,
        key: [u8; 16],
    ) -> Result<Handled, NoMemory>
        ensures came { IfOk result (λ h. (head : Head) × AnswerIs key self.old.unread head × Came self.old self.new h (spec.on_answer skip_frames head self.old)) }
        ensures same { OnErr result (self.new ≡ self.old) }
    {
        match read_answer(alloc, key, self.unread.unread()) {
            Ok(None) => Ok(Handled::Waits),
            Ok(Some(len)) => self.pass_answer(alloc, skip_frames, len),
            Err(fault) => bad_answer(fault),
        }
    }

    /// A control frame comes, of that many bytes.
    fn on_control(
        &mut self,
        alloc: Global,
        signer: &Keyed,
        body: &[u8],
        len: usize,
    ) -> Result<Handled, NoMemory>
        requires within { len ≤ length self.old.unread }
        ensures came { IfOk result (λ h. Came self.old self.new h (spec.on_control (signature_text signer.now) body.now (drop len self.old.unread) self.old)) }
        ensures same { OnErr result (self.new ≡ self.old) }
    {
        let room = Vec::with_capacity(alloc, HEADER)?;
        match self.shake.on_control(alloc, signer, body)? {
            ClientStep::Say { text } => {
                self.unread.skip(len);
                Ok(says(room, text))
            }
            ClientStep::Done => {
                let chunk = joined(alloc, self.pause.as_slice(), &self.unread.unread()[len..])?;
                Ok(Handled::Accepts { chunk })
            }
            ClientStep::Refused { reason } => Ok(Handled::Refuses { reason }),
            ClientStep::Unexpected => Ok(Handled::Fails),
        }
    }

    /// A frame comes that says nothing to a handshake, of that many bytes.
    fn pass(&mut self, alloc: Global, len: usize) -> Handled
        requires within { len ≤ length self.old.unread }
        ensures { Came self.old self.new result (spec.passes (drop len self.old.unread) self.old) }
    {
        self.unread.skip(len);
        Handled::GoesOn {
            header: Message::empty(alloc),
            text: Message::empty(alloc),
        }
    }

    /// A frame comes, of that many bytes.
    fn on_frame(
        &mut self,
        alloc: Global,
        signer: &Keyed,
        frame: &Frame,
        len: usize,
    ) -> Result<Handled, NoMemory>
        requires within { len ≤ length self.old.unread }
        requires fits { IsFrame frame.now }
        ensures came { IfOk result (λ h. Came self.old self.new h (spec.on_frame (signature_text signer.now) (frame_kind frame.now.kind) frame.now (drop len self.old.unread) self.old)) }
        ensures same { OnErr result (self.new ≡ self.old) }
    {
        match frame.kind {
            2 => self.on_control(alloc, signer, frame.body.as_slice(), len),
            5 => Ok(Handled::Fails),
            7 => {
                let pause = bytes_of(alloc, frame)?;
                self.pause = pause;
                Ok(self.pass(alloc, len))
            }
            _ => Ok(self.pass(alloc, len)),
        }
    }

    /// Looks at the next frame.
    fn take_frame(&mut self, alloc: Global, signer: &Keyed) -> Result<Handled, NoMemory>
        ensures came { IfOk result (λ h. Came self.old self.new h (spec.on_frames (signature_text signer.now) self.old)) }
        ensures same { OnErr result (self.new ≡ self.old) }
    {
        if let Some((kind, len)) = self.unread.ahead() {
            if kind != CONTROL && kind != DISCONNECT && kind != PAUSE {
                return Ok(self.pass(alloc, len));
            }
        }
        match self.unread.peek(alloc) {
            Ok(Some((frame, len))) => self.on_frame(alloc, signer, &frame, len),
            Ok(None) => Ok(Handled::Waits),
            Err(FrameFault::TooLong { .. }) => Ok(Handled::Fails),
            Err(FrameFault::NoMemory) => Err(NoMemory),
        }
    }

    /// Looks at the unread bytes: the server's answer, or one frame. Nothing is looked at while the rest behind the answer waits
    /// to be handed out, nor a frame whose header states more than a text of a handshake has.
    pub fn handle(&mut self, alloc: Global, client: &Client) -> Result<Handled, NoMemory>
        ensures handles { IfOk result (λ h. Handles client.now self.old self.new h) }
        ensures same { OnErr result (self.new ≡ self.old) }
        ensures budget { is_over_budget self.old ≡ true → OnOk result ⊥ }
    {
        if self.is_over_budget() {
            return Err(NoMemory);
        }
        if let Some(key) = self.key {
            return self.take_answer(alloc, client.skip_frames, key);
        }
        if self.rest.is_some() {
            return Ok(Handled::Waits);
        }
        self.take_frame(alloc, &client.signer)
    }

    /// Hands out what followed the answer, once.
    pub fn framed(&mut self) -> Option<Message>
        ensures out { result ≡ self.old.rest }
        ensures state { self.new ≡ record self.old { rest = None } }
    {
        self.rest.take()
    }
}
