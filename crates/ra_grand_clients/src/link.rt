//! A link between a client and the server, as the bytes that were written on it.
ghost use Rattle.std.specs.Prelude.{◌≡◌, ◌≤◌, length, OnOk, OnErr};
ghost use Rattle.ra_model.specs.Links.{new_link, readable, read_on, written_to, cut_off};

use ra_base::{NoMemory, Side};
use std::alloc::Global;
use std::marker::Model;

/// One direction of a link: the bytes that were written on it, and how many of them were read.
#[derive(Drop)]
pub(crate) struct Direction {
    written: Vec<u8>,
    read: usize,
}

impl Model for Direction {
    ghost use Rattle.std.specs.Prelude.{◌≤◌, length};
    ghost use Rattle.ra_model.specs.Links.{Direction as AbstractDirection};

    ghost Value = { AbstractDirection };

    ghost view = { λ d. record { written = d.written.items; read = d.read } };

    ghost invariant = { λ d. d.read ≤ length d.written.items };
}

impl Direction {
    ghost use Rattle.std.specs.Prelude.{◌+◌, ◌++◌, [], drop, length, ◌≤◌, OnOk, OnErr};

    fn new(alloc: Global) -> Direction
        ensures { result ≡ record { written = []; read = 0 } }
    {
        Direction {
            written: Vec::new(alloc),
            read: 0,
        }
    }

    /// The bytes that were not read.
    fn unread(&self) -> &[u8]
        ensures { result.now ≡ drop self.now.read self.now.written }
    {
        &self.written[self.read..]
    }

    /// The first n of these are read.
    fn advance(&mut self, n: usize)
        requires { n ≤ length (drop self.old.read self.old.written) }
        ensures { self.new ≡ record { written = self.old.written; read = self.old.read + n } }
    {
        self.read += n;
    }

    fn write(&mut self, bytes: &[u8]) -> Result<(), NoMemory>
        ensures ok { OnOk result (self.new ≡ record { written = self.old.written ++ bytes.now; read = self.old.read }) }
        ensures err { OnErr result (self.new ≡ self.old) }
    {
        self.written.extend_from_slice(bytes)?;
        Ok(())
    }
}

/// A link, of the client as A and the server as B. Once it is cut, nothing is written on it or read from it.
#[derive(Drop)]
pub(crate) struct Link {
    to_a: Direction,
    to_b: Direction,
    is_cut: bool,
}

impl Model for Link {
    ghost use Rattle.ra_model.specs.Links.{Link as AbstractLink};

    ghost Value = { AbstractLink };

    ghost view = { λ l. record { to_a = l.to_a; to_b = l.to_b; is_cut = l.is_cut } };
}

impl Link {
    pub(crate) fn new(alloc: Global) -> Link
        ensures { result ≡ new_link }
    {
        Link {
            to_a: Direction::new(alloc),
            to_b: Direction::new(alloc),
            is_cut: false,
        }
    }

    /// The bytes that a side can read.
    pub(crate) fn readable(&self, side: Side) -> &[u8]
        ensures { result.now ≡ readable side self.now }
    {
        if self.is_cut {
            return &[];
        }
        match side {
            Side::A => self.to_a.unread(),
            Side::B => self.to_b.unread(),
        }
    }

    /// A side has read the first n of these.
    pub(crate) fn read_on(&mut self, side: Side, n: usize)
        requires { n ≤ length (readable side self.old) }
        ensures { self.new ≡ read_on side n self.old }
    {
        match side {
            Side::A => self.to_a.advance(n),
            Side::B => self.to_b.advance(n),
        }
    }

    /// Bytes are written to a side. On a cut link they vanish.
    pub(crate) fn write_to(&mut self, side: Side, bytes: &[u8]) -> Result<(), NoMemory>
        ensures ok { OnOk result (self.new ≡ written_to side bytes.now self.old) }
        ensures err { OnErr result (self.new ≡ self.old) }
    {
        match (self.is_cut, side) {
            (true, _) => Ok(()),
            (false, Side::A) => self.to_a.write(bytes),
            (false, Side::B) => self.to_b.write(bytes),
        }
    }

    pub(crate) fn cut_off(&mut self)
        ensures { self.new ≡ cut_off self.old }
    {
        self.is_cut = true;
    }
}
