//! The frames of one link, and the lines that they give. It reads no source and writes to no sink.
ghost use Rattle.std.specs.Prelude.{◌≡◌, ◌≤◌, ◌<◌, ◌+◌, ◌-◌, ◌++◌, ℕ, [], length, take, min, true, false, Ok, OnOk, IfOk};
ghost use Rattle.ra_model.specs.Endpoints.{is_ended, shown};
ghost use Rattle.ra_model.specs.FrameKinds.{frame_kind};
ghost use Rattle.ra_model.specs.Taking.{delivery_of};
ghost use Rattle.ra_endpoint_commands.specs.Lines.{too_long_line, end_line};
ghost use Rattle.ra_endpoint_commands.specs.Receive.{first_link, after_frame, flushed, delivery_line, ready_line, lines_of, input_limit};
ghost use Rattle.ra_endpoint_commands.specs.Progress.{endpoint_of, IsListening, IsReady, fed_with, Looks, Drains, Turns};

use crate::lines::{
    push_control, push_end, push_ended, push_over, push_too_long, push_up, push_write,
};
use ra_base::{Moment, NoMemory};
use ra_frame::{Frame, FrameFault, FrameReader};
use ra_proto::{Endpoint, Up};
use std::alloc::Global;
use std::marker::Model;

/// The most bytes that are read.
pub const INPUT_LIMIT: u64 = 1_073_741_824;

/// What one look at the unread bytes gave.
#[derive(Clone, Copy, Debug, PartialEq, Eq)]
pub enum Taken {
    /// Less than a frame is unread.
    Nothing,
    /// A frame was applied.
    Frame,
    /// A header states too long a body. The last line was given.
    Refused,
    /// The peer has left.
    Ended,
}

/// What a piece of the input gave.
#[derive(Clone, Copy, Debug, PartialEq, Eq)]
pub enum Turned {
    /// More may come.
    Waiting,
    /// The input is refused. The last line was given.
    Refused,
    /// The peer has left. What follows is only counted.
    Ended,
}

/// Adds the line of what was handed up.
fn push_delivery(alloc: Global, text: &mut Vec<u8>, up: &Up) -> Result<(), NoMemory>
    ensures { OnOk result (text.new.items ≡ text.old.items ++ delivery_line up.now) }
{
    match up {
        Up::Message { id, body } => push_up(alloc, text, *id, body.as_slice()),
        Up::Control { body } => push_control(alloc, text, body.as_slice()),
        Up::Quiet => Ok(()),
        Up::Ended => push_ended(text),
    }
}

/// Adds the line of the bytes that became ready, where there are some.
fn push_ready(alloc: Global, text: &mut Vec<u8>, out: &[u8]) -> Result<(), NoMemory>
    ensures { OnOk result (text.new.items ≡ text.old.items ++ ready_line out.now) }
{
    if out.is_empty() {
        return Ok(());
    }
    push_write(alloc, text, out)
}

/// Adds the line of the bytes that an endpoint shows, and takes them.
fn push_shown(alloc: Global, end: &mut Endpoint, text: &mut Vec<u8>) -> Result<(), NoMemory>
    requires { IsListening end.old }
    ensures end { OnOk result (endpoint_of end.new ≡ flushed (endpoint_of end.old)) }
    ensures listening { OnOk result (IsListening end.new) }
    ensures text { OnOk result (text.new.items ≡ text.old.items ++ ready_line (shown (endpoint_of end.old))) }
{
    let out = end.out();
    let len = out.len();
    push_ready(alloc, text, out)?;
    end.wrote(len);
    Ok(())
}

/// Applies a frame, and adds the line of what it hands up.
fn apply(
    alloc: Global,
    end: &mut Endpoint,
    frame: Frame,
    text: &mut Vec<u8>,
) -> Result<(), NoMemory>
    requires { IsListening end.old }
    ensures end { OnOk result (endpoint_of end.new ≡ after_frame frame (endpoint_of end.old)) }
    ensures said { OnOk result ((end.new.sent ≡ 0) × (end.new.queue ≡ [])) }
    ensures text { OnOk result (text.new.items ≡ text.old.items ++ delivery_line (delivery_of (frame_kind frame.kind) frame (endpoint_of end.old))) }
{
    let Ok(up) = end.apply(frame, Moment::start()) else {
        return Err(NoMemory);
    };
    push_delivery(alloc, text, &up)
}

/// Applies a frame, and adds its lines. It answers whether the peer has left.
fn hear(
    alloc: Global,
    end: &mut Endpoint,
    frame: Frame,
    text: &mut Vec<u8>,
) -> Result<bool, NoMemory>
    requires { IsListening end.old }
    ensures open { result ≡ Ok false → endpoint_of end.new ≡ flushed (after_frame frame (endpoint_of end.old)) }
    ensures listening { result ≡ Ok false → IsListening end.new }
    ensures ended { result ≡ Ok true → endpoint_of end.new ≡ after_frame frame (endpoint_of end.old) }
    ensures left { IfOk result (λ left. left ≡ is_ended (after_frame frame (endpoint_of end.old)).phase) }
    ensures text { OnOk result (text.new.items ≡ text.old.items ++ lines_of frame (endpoint_of end.old)) }
{
    apply(alloc, end, frame, text)?;
    if end.phase().is_ended() {
        return Ok(true);
    }
    push_shown(alloc, end, text)?;
    Ok(false)
}

/// Adds the last line after a fault of the reader.
fn refuse(text: &mut Vec<u8>, fault: FrameFault, at: u64) -> Result<Taken, NoMemory>
    ensures { IfOk result (λ taken. (taken ≡ Taken.Refused) × ((stated : ℕ) × (fault ≡ FrameFault.TooLong stated)
        × (text.new.items ≡ text.old.items ++ too_long_line stated at))) }
{
    match fault {
        FrameFault::TooLong { stated } => {
            push_too_long(text, stated, at)?;
            Ok(Taken::Refused)
        }
        FrameFault::NoMemory => Err(NoMemory),
    }
}

/// What `receive` keeps between two pieces.
#[derive(Drop)]
pub struct Receiver {
    reader: FrameReader,
    end: Endpoint,
    fed: u64,
}

impl Model for Receiver {
    ghost use Rattle.ra_endpoint_commands.specs.Progress.{Progress};

    ghost Value = { Progress };

    ghost view = { λ r. record { end = r.end; unread = r.reader; fed = r.fed } };
}

impl Receiver {
    /// An endpoint without keep-alive on its first link, at the moment 0.
    pub fn new(alloc: Global) -> Result<Receiver, NoMemory>
        ensures ready { IfOk result (λ receiver. IsReady receiver) }
        ensures end { IfOk result (λ receiver. endpoint_of receiver.end ≡ first_link) }
        ensures empty { IfOk result (λ receiver. (receiver.unread ≡ []) × (receiver.fed ≡ 0)) }
    {
        let now = Moment::start();
        let mut end = Endpoint::new(alloc, now, false);
        let Ok(_) = end.begin_link(1, &[], now) else {
            return Err(NoMemory);
        };
        Ok(Receiver {
            reader: FrameReader::new(alloc),
            end,
            fed: 0,
        })
    }

    /// Applies one frame, where a whole one is there, and adds its lines.
    fn take_frame(&mut self, alloc: Global, text: &mut Vec<u8>) -> Result<Taken, NoMemory>
        requires { IsReady self.old }
        ensures { IfOk result (λ taken. Looks taken self.old text.old.items self.new text.new.items) }
    {
        let at = self.fed - self.reader.rest_len();
        match self.reader.next(alloc) {
            Ok(None) => Ok(Taken::Nothing),
            Ok(Some(frame)) => {
                if hear(alloc, &mut self.end, frame, text)? {
                    return Ok(Taken::Ended);
                }
                Ok(Taken::Frame)
            }
            Err(fault) => refuse(text, fault, at),
        }
    }

    /// Applies all whole frames, up to the last line or the end of the peer.
    fn drain(&mut self, alloc: Global, text: &mut Vec<u8>) -> Result<Turned, NoMemory>
        requires { IsReady self.old }
        ensures { IfOk result (λ turned. Drains turned self.old text.old.items self.new text.new.items) }
    {
        'frames: loop {
            match self.take_frame(alloc, text)? {
                Taken::Frame => {}
                Taken::Nothing => return Ok(Turned::Waiting),
                Taken::Refused => return Ok(Turned::Refused),
                Taken::Ended => return Ok(Turned::Ended),
            }
        }
    }

    /// Takes bytes of the input as they are.
    fn feed(&mut self, piece: &[u8]) -> Result<(), NoMemory>
        requires { self.old.fed + length piece.now ≤ input_limit }
        ensures { OnOk result (self.new ≡ fed_with piece.now self.old) }
    {
        self.reader.feed(piece)?;
        self.fed += piece.len() as u64;
        Ok(())
    }

    /// How many bytes came.
    pub fn fed(&self) -> u64
        ensures { result ≡ self.now.fed }
    {
        self.fed
    }

    /// How many messages were heard.
    pub fn heard(&self) -> u64
        ensures { result ≡ self.now.end.received }
    {
        self.end.marks().received
    }

    /// How many bytes are unread.
    pub fn rest_len(&self) -> u64
        ensures { result ≡ length self.now.unread }
    {
        self.reader.rest_len()
    }

    /// Takes a piece of the input, up to the limit, and adds its lines.
    pub fn turn(
        &mut self,
        alloc: Global,
        piece: &[u8],
        text: &mut Vec<u8>,
    ) -> Result<Turned, NoMemory>
        requires ready { IsReady self.old }
        requires some { 0 < length piece.now }
        ensures { IfOk result (λ turned. Turns turned self.old text.old.items piece.now self.new text.new.items) }
    {
        let room = (INPUT_LIMIT - self.fed()) as usize;
        let count = piece.len().min(room);
        self.feed(&piece[..count])?;
        let turned = self.drain(alloc, text)?;
        if count == piece.len() {
            return Ok(turned);
        }
        match turned {
            Turned::Refused => Ok(Turned::Refused),
            Turned::Waiting | Turned::Ended => {
                push_over(text)?;
                Ok(Turned::Refused)
            }
        }
    }

    /// Adds the last line at the end of the input.
    pub fn finish(&self, text: &mut Vec<u8>) -> Result<(), NoMemory>
        ensures { OnOk result (text.new.items ≡ text.old.items ++ end_line self.now.end.received (length self.now.unread)) }
    {
        push_end(text, self.heard(), self.rest_len())
    }
}
