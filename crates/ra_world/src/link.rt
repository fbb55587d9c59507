//! A link between two endpoints.
ghost use Rattle.std.specs.Prelude.{◌≡◌, ◌≤◌, Some, length, OnOk, OnErr, IfOk, IfErr, ◌≢◌};
ghost use Rattle.ra_model.specs.Links.{Link as AbstractLink, new_link, at_number, put_number, amount, readable, read_on, written_to, cut_off, other};
ghost use Rattle.ra_model.specs.Refusals.{if_many, read_refusal};
ghost use Rattle.ra_model.specs.Events.{links_written};
ghost use Rattle.ra_world.specs.Chosen.{IsChosen, HasUnread};
ghost use Rattle.ra_world.specs.Outcomes.{RefusedBy};

use ra_base::{Count, NoMemory, Side};
use ra_model::EventFault;
use std::alloc::Global;
use std::marker::Model;

/// The other side.
pub(crate) fn other_side(side: Side) -> Side
    ensures { result ≡ other side }
{
    match side {
        Side::A => Side::B,
        Side::B => Side::A,
    }
}

/// How many bytes a count takes of those that are there.
pub(crate) fn taken_of(count: Count, there: usize) -> Result<usize, EventFault>
    ensures refused { RefusedBy result (if_many count there) }
    ensures amount { IfOk result (λ n. n ≡ amount count there) }
    ensures within { IfOk result (λ n. n ≤ there) }
    ensures fault { IfErr result (λ fault. fault ≢ EventFault.NoMemory) }
{
    match count {
        Count::All => Ok(there),
        Count::Exact { n } => {
            if n > there as u64 {
                return Err(EventFault::TooMany {
                    asked: n,
                    there: there as u64,
                });
            }
            Ok(n as usize)
        }
        Count::Most { n } => Ok((n as usize).min(there)),
    }
}

/// One direction of a link: the bytes that were written on it, and how many of them were read.
#[derive(Drop)]
pub(crate) struct Direction {
    written: Vec<u8>,
    read: usize,
}

impl Model for Direction {
    ghost use Rattle.std.specs.Prelude.{◌≤◌, length};
    ghost use Rattle.ra_model.specs.Links.{Direction as AbstractDirection};

    ghost Value = { AbstractDirection };

    ghost view = { λ d. record { written = d.written.items; read = d.read } };

    ghost invariant = { λ d. d.read ≤ length d.written.items };
}

impl Direction {
    ghost use Rattle.std.specs.Prelude.{◌+◌, ◌++◌, [], drop, length, ◌≤◌, OnOk, OnErr};

    fn new(alloc: Global) -> Direction
        ensures { result ≡ record { written = []; read = 0 } }
    {
        Direction {
            written: Vec::new(alloc),
            read: 0,
        }
    }

    /// The bytes that were not read.
    fn unread(&self) -> &[u8]
        ensures { result.now ≡ drop self.now.read self.now.written }
    {
        &self.written[self.read..]
    }

    /// The first n of these are read.
    fn advance(&mut self, n: usize)
        requires { n ≤ length (drop self.old.read self.old.written) }
        ensures { self.new ≡ record { written = self.old.written; read = self.old.read + n } }
    {
        self.read += n;
    }

    fn write(&mut self, bytes: &[u8]) -> Result<(), NoMemory>
        ensures ok { OnOk result (self.new ≡ record { written = self.old.written ++ bytes.now; read = self.old.read }) }
        ensures err { OnErr result (self.new ≡ self.old) }
    {
        self.written.extend_from_slice(bytes)?;
        Ok(())
    }
}

/// A link. Once it is cut, nothing is written on it or read from it.
#[derive(Drop)]
pub(crate) struct Link {
    to_a: Direction,
    to_b: Direction,
    is_cut: bool,
}

impl Model for Link {
    ghost use Rattle.ra_model.specs.Links.{Link as AbstractLink};

    ghost Value = { AbstractLink };

    ghost view = { λ l. record { to_a = l.to_a; to_b = l.to_b; is_cut = l.is_cut } };
}

impl Link {
    pub(crate) fn new(alloc: Global) -> Link
        ensures { result ≡ new_link }
    {
        Link {
            to_a: Direction::new(alloc),
            to_b: Direction::new(alloc),
            is_cut: false,
        }
    }

    /// The bytes that a side can read.
    pub(crate) fn readable(&self, side: Side) -> &[u8]
        ensures { result.now ≡ readable side self.now }
    {
        if self.is_cut {
            return &[];
        }
        match side {
            Side::A => self.to_a.unread(),
            Side::B => self.to_b.unread(),
        }
    }

    /// A side has read the first n of these.
    pub(crate) fn read_on(&mut self, side: Side, n: usize)
        requires { n ≤ length (readable side self.old) }
        ensures { self.new ≡ read_on side n self.old }
    {
        match side {
            Side::A => self.to_a.advance(n),
            Side::B => self.to_b.advance(n),
        }
    }

    /// Bytes are written to a side. On a cut link they vanish.
    pub(crate) fn write_to(&mut self, side: Side, bytes: &[u8]) -> Result<(), NoMemory>
        ensures ok { OnOk result (self.new ≡ written_to side bytes.now self.old) }
        ensures err { OnErr result (self.new ≡ self.old) }
    {
        match (self.is_cut, side) {
            (true, _) => Ok(()),
            (false, Side::A) => self.to_a.write(bytes),
            (false, Side::B) => self.to_b.write(bytes),
        }
    }

    pub(crate) fn cut_off(&mut self)
        ensures { self.new ≡ cut_off self.old }
    {
        self.is_cut = true;
    }
}

/// The bytes of a link that a side reads.
pub(crate) fn chosen(
    links: &[Link],
    side: Side,
    link: u64,
    count: Count,
) -> Result<&[u8], EventFault>
    ensures refused { RefusedBy result (read_refusal side count link (at_number links.now link)) }
    ensures found { IfOk result (λ bytes. (l : AbstractLink) × IsChosen links.now side count link bytes.now l) }
{
    if link == 0 || link > links.len() as u64 {
        return Err(EventFault::NoSuchLink { link });
    }
    let there = links[(link - 1) as usize].readable(side);
    let n = taken_of(count, there.len())?;
    Ok(&there[..n])
}

/// A side has read n bytes more of a link.
pub(crate) fn read_link(links: &mut [Link], side: Side, link: u64, n: usize)
    requires { HasUnread links.old side link n }
    ensures { (l : AbstractLink) → at_number links.old link ≡ Some l → links.new ≡ put_number links.old link (read_on side n l) }
{
    links[(link - 1) as usize].read_on(side, n);
}

/// Bytes are written on a link by a side, where there is such a link.
pub(crate) fn write_link(
    links: &mut [Link],
    side: Side,
    link: u64,
    bytes: &[u8],
) -> Result<(), NoMemory>
    ensures ok { OnOk result (links.new ≡ links_written side bytes.now link (at_number links.old link) links.old) }
    ensures err { OnErr result (links.new ≡ links.old) }
{
    if link == 0 || link > links.len() as u64 {
        return Ok(());
    }
    links[(link - 1) as usize].write_to(other_side(side), bytes)
}

/// Both directions of a link are cut.
pub(crate) fn cut_link(links: &mut [Link], link: u64) -> Result<(), EventFault>
    ensures refused { RefusedBy result (read_refusal Side.A Count.All link (at_number links.old link)) }
    ensures ok { OnOk result ((l : AbstractLink) → at_number links.old link ≡ Some l → links.new ≡ put_number links.old link (cut_off l)) }
    ensures err { OnErr result (links.new ≡ links.old) }
{
    if link == 0 || link > links.len() as u64 {
        return Err(EventFault::NoSuchLink { link });
    }
    links[(link - 1) as usize].cut_off();
    Ok(())
}
