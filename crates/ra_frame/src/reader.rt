//! The reader: bytes come in any pieces, and frames go out.
//!
//! It copies each body once, keeps the bytes of a frame that is not whole yet, and reserves nothing for what a header only states.
ghost use Rattle.std.specs.Prelude.{◌≡◌, ◌≤◌, ◌++◌, ℕ, List, [], length, drop, take, Ok, Err, Some, None, false, OnOk, OnErr, IfOk, IfErr, MatchOption, IfSome};
ghost use Rattle.ra_model.specs.Frames.{Begins, HoldsNoFrame};
ghost use Rattle.ra_model.specs.FirstFrame.{first_frame, is_too_long};
ghost use Rattle.ra_frame.specs.Fronts.{IsPartial, IsTooLong, IsAhead, head_of, states_above};
ghost use Rattle.ra_frame.specs.FaultTexts.{fault_text};
ghost use Rattle.ra_frame.specs.declared.reader.FrameFault.TheVariants.{NoMemory as OutOfMemory};

use crate::front::{
    FrameHead, Front, ahead_of, frame_at, front_of, head_at, header_len, states_above,
};
use ra_base::{Message, NoMemory};
use ra_model::Frame;
use std::alloc::{AllocError, Global};
use std::error::Error;
use std::fmt;
use std::marker::Model;

/// The room that is kept for bytes: for a piece of 65,536, and a part of a frame before it.
const KEPT: usize = 131_072;

/// Why no frame is read.
#[derive(Clone, Copy, Debug, PartialEq, Eq)]
pub enum FrameFault {
    /// A header states a body of that many bytes, which is above the limit.
    TooLong { stated: u32 },
    /// No memory for the body.
    NoMemory,
}

impl fmt::Display for FrameFault {
    ghost output = { λ fault. Some (fault_text fault) };

    fn fmt<W: fmt::Write>(&self, f: &mut fmt::Formatter<W>) -> fmt::Result {
        match self {
            FrameFault::TooLong { stated } => write!(f, "a body of {stated} bytes"),
            FrameFault::NoMemory => f.write_str("want of memory"),
        }
    }
}

impl Error for FrameFault {}

impl From<AllocError> for FrameFault {
    ghost from_gives = { λ _ fault. fault ≡ OutOfMemory };

    fn from(_: AllocError) -> Self {
        FrameFault::NoMemory
    }
}

impl From<NoMemory> for FrameFault {
    ghost from_gives = { λ _ fault. fault ≡ OutOfMemory };

    fn from(_: NoMemory) -> Self {
        FrameFault::NoMemory
    }
}

/// Cuts bytes that come in any pieces into frames. A contract sees it as its unread bytes.
#[derive(Drop)]
pub struct FrameReader {
    buffer: Vec<u8>,
    start: usize,
}

impl Model for FrameReader {
    ghost Value = { List ℕ };

    ghost view = { λ r. drop r.start r.buffer.items };

    ghost invariant = { λ r. r.start ≤ length r.buffer.items };
}

impl FrameReader {
    /// A reader with no bytes. It takes no memory.
    pub fn new(alloc: Global) -> FrameReader
        ensures { result ≡ [] }
    {
        FrameReader {
            buffer: Vec::new(alloc),
            start: 0,
        }
    }

    /// Takes the next piece, or nothing where there is no memory.
    pub fn feed(&mut self, piece: &[u8]) -> Result<(), NoMemory>
        ensures ok { OnOk result (self.new ≡ self.old ++ piece.now) }
        ensures err { OnErr result (self.new ≡ self.old) }
    {
        self.compact();
        self.buffer.extend_from_slice(piece)?;
        Ok(())
    }

    /// Moves the unread bytes to the front of the buffer, where they are no more than the bytes that were read.
    /// So no more bytes are moved than were read, in however many pieces the bytes come.
    fn compact(&mut self)
        ensures { self.new ≡ self.old }
    {
        let rest = self.buffer.len() - self.start;
        if rest <= self.start {
            self.buffer.copy_within(self.start.., 0);
            self.buffer.truncate(rest);
            self.start = 0;
            self.buffer.shrink_to(KEPT);
        }
    }

    /// Discards what is unread, and gives up its room.
    pub fn clear(&mut self)
        ensures { self.new ≡ [] }
    {
        let alloc = *self.buffer.allocator();
        self.buffer = Vec::new(alloc);
        self.start = 0;
    }

    /// The next frame, where a whole one is there. A fault leaves the unread bytes.
    ///
    /// `TooLong` stays until the unread bytes are discarded, whatever is fed.
    pub fn next(&mut self, alloc: Global) -> Result<Option<Frame>, FrameFault>
        ensures found { IfOk result (λ found. MatchOption found (IsPartial self.old × (self.new ≡ self.old)) (λ f. first_frame self.old ≡ Some (f, self.new))) }
        ensures begins { IfOk result (λ found. IfSome found (λ f. Begins self.old f self.new)) }
        ensures none { HoldsNoFrame self.old → is_too_long self.old ≡ false → result ≡ Ok None }
        ensures too_long { IfErr result (λ fault. (n : ℕ) → fault ≡ FrameFault.TooLong n → IsTooLong self.old n) }
        ensures stands { (n : ℕ) → IsTooLong self.old n → result ≡ Err (FrameFault.TooLong n) }
        ensures err { OnErr result (self.new ≡ self.old) }
    {
        let Some((frame, len)) = self.peek(alloc)? else {
            return Ok(None);
        };
        self.skip(len);
        Ok(Some(frame))
    }

    /// The next frame, which stays unread, and how many bytes it has.
    pub fn peek(&self, alloc: Global) -> Result<Option<(Frame, usize)>, FrameFault>
        ensures found { IfOk result (λ found. MatchOption found (IsPartial self.now) (λ p. (first_frame self.now ≡ Some (p.0, drop p.1 self.now)) × (p.1 ≤ length self.now))) }
        ensures begins { IfOk result (λ found. IfSome found (λ p. Begins self.now p.0 (drop p.1 self.now))) }
        ensures none { HoldsNoFrame self.now → is_too_long self.now ≡ false → result ≡ Ok None }
        ensures too_long { IfErr result (λ fault. (n : ℕ) → fault ≡ FrameFault.TooLong n → IsTooLong self.now n) }
        ensures stands { (n : ℕ) → IsTooLong self.now n → result ≡ Err (FrameFault.TooLong n) }
    {
        let unread = self.unread();
        match front_of(unread) {
            Front::Partial => Ok(None),
            Front::TooLong { stated } => Err(FrameFault::TooLong { stated }),
            Front::Whole { body } => {
                let frame = frame_at(alloc, unread, body)?;
                let len = header_len(frame.wide) + body;
                Ok(Some((frame, len)))
            }
        }
    }

    /// The header of the next frame. It takes no memory.
    pub fn head(&self) -> Option<FrameHead>
        ensures { result ≡ head_of self.now }
    {
        let unread = self.unread();
        match front_of(unread) {
            Front::Whole { body: _ } => Some(head_at(unread)),
            Front::Partial => None,
            Front::TooLong { stated: _ } => None,
        }
    }

    /// The first `len` bytes count as read. Where these are all, much room is given up.
    #[inline]
    pub fn skip(&mut self, len: usize)
        requires { len ≤ length self.old }
        ensures { self.new ≡ drop len self.old }
    {
        self.start += len;
        if self.start == self.buffer.len() && self.buffer.capacity() > KEPT {
            self.clear();
        }
    }

    /// Keeps the first `len` unread bytes alone, and so takes back what was fed behind them. It takes no memory.
    pub fn truncate(&mut self, len: usize)
        requires { len ≤ length self.old }
        ensures { self.new ≡ take len self.old }
    {
        self.buffer.truncate(self.start + len);
    }

    /// The type of the next frame, and how many bytes it has, where a whole one is there. It takes no memory.
    pub fn ahead(&self) -> Option<(u8, usize)>
        ensures { IsAhead self.now result }
    {
        ahead_of(self.unread())
    }

    /// Whether the next header states a body longer than this limit, and within that of a frame. It takes no memory.
    pub fn states_above(&self, limit: u32) -> bool
        ensures { result ≡ states_above limit self.now }
    {
        states_above(self.unread(), limit)
    }

    /// Whether `next` has a frame or a `TooLong` to give.
    pub fn ready(&self) -> bool
        ensures partial { result ≡ false → IsPartial self.now }
        ensures none { HoldsNoFrame self.now → is_too_long self.now ≡ false → result ≡ false }
    {
        match front_of(self.unread()) {
            Front::Partial => false,
            Front::TooLong { stated: _ } => true,
            Front::Whole { body: _ } => true,
        }
    }

    /// The unread bytes.
    #[inline]
    pub fn unread(&self) -> &[u8]
        ensures { result.now ≡ self.now }
    {
        &self.buffer[self.start..]
    }

    /// How many bytes are unread.
    #[inline]
    pub fn rest_len(&self) -> u64
        ensures { result ≡ length self.now }
    {
        self.unread().len() as u64
    }

    /// A copy of the unread bytes.
    pub fn copy_rest(&self, alloc: Global) -> Result<Message, NoMemory>
        ensures { IfOk result (λ rest. rest ≡ self.now) }
    {
        Message::copy(alloc, self.unread())
    }

    /// A reader with the same unread bytes.
    pub fn copy(&self, alloc: Global) -> Result<FrameReader, NoMemory>
        ensures { IfOk result (λ reader. reader ≡ self.now) }
    {
        let buffer = Vec::from_slice(alloc, self.unread())?;
        Ok(FrameReader { buffer, start: 0 })
    }
}
