//! The bytes of frames that are not on the link. A front of them is gone without a move of the rest.
ghost use Rattle.std.specs.Prelude.{◌≡◌, ◌≤◌, ◌<◌, ◌++◌, ◌∷◌, [], length, drop, take, OnOk, OnErr, IfOk};
ghost use Rattle.ra_model.specs.Frames.{body_limit, joined};
ghost use Rattle.ra_model.specs.FrameKinds.{written_frame};

use ra_base::{Message, NoMemory};
use ra_frame::append_written;
use std::alloc::Global;
use std::marker::Model;
use std::mem;

/// The most room that is kept where no bytes are left.
const KEPT: usize = 131_072;

/// Bytes that grow at the end, and leave at the front.
#[derive(Drop)]
pub struct Unwritten {
    bytes: Vec<u8>,
    start: usize,
}

impl Model for Unwritten {
    ghost use Rattle.std.specs.Prelude.{List, ℕ, ◌≤◌, length, drop};

    ghost Value = { List ℕ };

    ghost view = { λ u. drop u.start u.bytes.items };

    ghost invariant = { λ u. u.start ≤ length u.bytes.items };
}

/// The bytes from this place on are kept alone.
fn keep_behind(bytes: &mut Vec<u8>, start: usize)
    requires { start ≤ length bytes.old.items }
    ensures { bytes.new.items ≡ drop start bytes.old.items }
{
    if start == 0 {
        return;
    }
    let rest = bytes.len() - start;
    bytes.copy_within(start.., 0);
    bytes.truncate(rest);
}

impl Unwritten {
    pub fn new(alloc: Global) -> Unwritten
        ensures { result ≡ [] }
    {
        Unwritten {
            bytes: Vec::new(alloc),
            start: 0,
        }
    }

    pub fn allocator(&self) -> Global {
        *self.bytes.allocator()
    }

    pub fn copy(&self, alloc: Global) -> Result<Unwritten, NoMemory>
        ensures { IfOk result (λ bytes. bytes ≡ self.now) }
    {
        let bytes = Vec::from_slice(alloc, self.as_slice())?;
        Ok(Unwritten { bytes, start: 0 })
    }

    pub fn as_slice(&self) -> &[u8]
        ensures { result.now ≡ self.now }
    {
        &self.bytes[self.start..]
    }

    pub fn len(&self) -> usize
        ensures { result ≡ length self.now }
    {
        self.bytes.len() - self.start
    }

    /// Adds the bytes of a frame, or nothing.
    pub fn append(&mut self, kind: u8, id: u64, ack: u64, body: &[u8]) -> Result<(), NoMemory>
        requires kind { kind < 128 }
        requires body { length body.now ≤ body_limit }
        ensures ok { OnOk result (self.new ≡ self.old ++ joined (written_frame kind id ack body.now ∷ [])) }
        ensures err { OnErr result (self.new ≡ self.old) }
    {
        append_written(&mut self.bytes, kind, id, ack, body)
    }

    /// Keeps the first bytes alone.
    pub fn truncate(&mut self, len: usize)
        requires { len ≤ length self.old }
        ensures { self.new ≡ take len self.old }
    {
        self.bytes.truncate(self.start + len);
    }

    /// The first n bytes are gone. The rest moves once it is no longer than what is gone; much room is then given up.
    pub fn advance(&mut self, n: usize)
        requires { n ≤ length self.old }
        ensures { self.new ≡ drop n self.old }
    {
        self.start += n;
        let rest = self.bytes.len() - self.start;
        if rest <= self.start {
            keep_behind(&mut self.bytes, self.start);
            self.start = 0;
            self.bytes.shrink_to(KEPT);
        }
    }

    /// All bytes are gone, and their room is given up.
    pub fn clear(&mut self)
        ensures { self.new ≡ [] }
    {
        let alloc = *self.bytes.allocator();
        self.bytes = Vec::new(alloc);
        self.start = 0;
    }

    /// All bytes, of which none is left.
    pub fn take(&mut self) -> Message
        ensures taken { result ≡ self.old }
        ensures left { self.new ≡ [] }
    {
        keep_behind(&mut self.bytes, self.start);
        self.start = 0;
        let alloc = *self.bytes.allocator();
        Message::from_vec(mem::replace(&mut self.bytes, Vec::new(alloc)))
    }

    /// No bytes.
    pub fn nothing(&self) -> Message
        ensures { result ≡ [] }
    {
        Message::empty(*self.bytes.allocator())
    }
}
