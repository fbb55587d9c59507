//! The links of clients: what can be read on one of them, and what is read and written there.
ghost use Rattle.std.specs.Prelude.{◌≡◌, ◌<◌, ◌≤◌, length, option_map, OnOk, OnErr, slice_get, slice_index_or};
ghost use Rattle.ra_base.specs.declared.event.Side.TheVariants as sides;
ghost use Rattle.ra_dial.specs.Calling.{is_calling};
ghost use Rattle.ra_model.specs.Links.{new_link, readable, read_on, cut_off};
ghost use Rattle.ra_grand_clients.specs.ClientStates.{StandsForClient, StaysClient, ReadsAnswer};
ghost use Rattle.ra_grand_runs.specs.GrandClients as grand;
ghost use Rattle.ra_grand_clients.specs.ClientLinks.{LinkTurns, LinkTurnsAt, TakesDown, TakesDownAt, HasUnread, HasLink, links_at, link_at, IsFlushedAt};
ghost use Rattle.ra_grand_clients.specs.Crowds.{ClientsStay};

use crate::client::Client;
use crate::clients::Clients;
use crate::link::Link;
use ra_base::{Message, Moment, NoMemory, Side};

impl Client {
    /// How many links it has.
    pub(crate) fn link_count(&self) -> usize
        ensures { result ≡ length self.now.links }
    {
        self.links.len()
    }

    /// Whether its dialer waits for a link.
    pub(crate) fn is_calling(&self) -> bool
        ensures { (c : grand.Client) → StandsForClient self.now c → result ≡ is_calling c.dialer.stage }
    {
        self.dialer.is_calling()
    }

    /// A side has read the first n bytes that it can on the link at this place.
    fn read_on(&mut self, at: usize, side: Side, n: usize)
        requires there { at < length self.old.links }
        requires within { n ≤ length (readable side (slice_index_or self.old.links at new_link)) }
        ensures { LinkTurns at (read_on side n) self.old self.new }
    {
        self.links[at].read_on(side, n);
    }

    /// The link at this place is cut, once all that the client has to write is on its last link.
    fn cut(&mut self, at: usize) -> Result<(), NoMemory>
        requires { at < length self.old.links }
        ensures ok { OnOk result (LinkTurns at cut_off self.old self.new) }
        ensures stays { OnErr result (StaysClient self.old self.new) }
    {
        self.flush()?;
        self.links[at].cut_off();
        Ok(())
    }

    /// The first bytes that the client can read on the link at this place are read. Its dialer takes them, where the link is the last one.
    fn take_down(&mut self, at: usize, bytes: &Message, now: Moment) -> Result<(), NoMemory>
        requires there { at < length self.old.links }
        requires within { length bytes.now ≤ length (readable sides.A (slice_index_or self.old.links at new_link)) }
        ensures taken { OnOk result (TakesDown at bytes.now now self.old self.new) }
        ensures same { OnErr result (self.new ≡ self.old) }
    {
        if self.link_count() - at > 1 {
            self.read_on(at, Side::A, bytes.len());
            return Ok(());
        }
        self.feed(bytes, now)?;
        self.read_on(at, Side::A, bytes.len());
        Ok(())
    }

    /// A link is made, and its dialer takes it.
    pub(crate) fn link(&mut self, now: Moment) -> Result<(), NoMemory>
        ensures linked { OnOk result ((c : grand.Client) → StandsForClient self.old c → ReadsAnswer c → StandsForClient self.new (grand.linked now c)) }
        ensures stays { OnErr result (StaysClient self.old self.new) }
    {
        self.flush()?;
        let count = self.link_count();
        self.links.push(Link::new(self.alloc))?;
        match self.begin(now) {
            Ok(()) => Ok(()),
            Err(fault) => {
                self.links.truncate(count);
                Err(fault)
            }
        }
    }
}

impl Clients {
    /// How many links the client at this place has, where there is one.
    pub fn link_count(&self, n: usize) -> usize
        ensures { result ≡ length (links_at (slice_get self.now n)) }
    {
        match self.list.get(n) {
            Some(client) => client.link_count(),
            None => 0,
        }
    }

    /// The bytes that a side can read on a link of the client at this place.
    pub fn readable(&self, n: usize, link: usize, side: Side) -> &[u8]
        requires { HasLink n link self.now }
        ensures { option_map (readable side) (link_at n link self.now) ≡ Some result.now }
    {
        self.list[n].links[link].readable(side)
    }

    /// All that the client at this place has to write is put on its last link.
    pub fn flush(&mut self, n: usize) -> Result<(), NoMemory>
        requires { n < length self.old }
        ensures done { OnOk result (IsFlushedAt n self.old self.new) }
        ensures stays { ClientsStay self.old self.new }
        ensures links { length (links_at (slice_get self.new n)) ≡ length (links_at (slice_get self.old n)) }
    {
        self.list[n].flush()
    }

    /// A link of the client at this place is cut, once all that the client has to write is on its last link.
    pub fn cut(&mut self, n: usize, link: usize) -> Result<(), NoMemory>
        requires { HasLink n link self.old }
        ensures ok { OnOk result (LinkTurnsAt n link cut_off self.old self.new) }
        ensures stays { OnErr result (ClientsStay self.old self.new) }
    {
        self.list[n].cut(link)
    }

    /// The first bytes that the client at this place can read on a link of it are read. Its dialer takes them, where the link is the last
    /// one.
    pub fn take_down(
        &mut self,
        n: usize,
        link: usize,
        bytes: &Message,
        now: Moment,
    ) -> Result<(), NoMemory>
        requires { HasUnread n link sides.A (length bytes.now) self.old }
        ensures taken { OnOk result (TakesDownAt n link bytes.now now self.old self.new) }
        ensures same { OnErr result (self.new ≡ self.old) }
    {
        self.list[n].take_down(link, bytes, now)
    }
}
