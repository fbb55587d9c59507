//! What the server's end of a link does with the bytes of the link: it reads some, and writes others.
ghost use Rattle.std.specs.Prelude.{◌≡◌, ◌<◌, ◌≤◌, length, OnOk, OnErr, slice_index_or};
ghost use Rattle.ra_base.specs.declared.event.Side.TheVariants as sides;
ghost use Rattle.ra_model.specs.Links.{new_link, readable, read_on};
ghost use Rattle.ra_grand_clients.specs.ClientLinks.{LinkTurns, LinkTurnsAt, HasUnread, exchanged};

use crate::client::Client;
use crate::clients::Clients;
use crate::link::Link;
use ra_base::{NoMemory, Side};

impl Link {
    /// The server has read the first n bytes that it can, and these are written to the client. Where memory runs out, they are not.
    fn exchange(&mut self, n: usize, bytes: &[u8]) -> Result<(), NoMemory>
        requires { n ≤ length (readable sides.B self.old) }
        ensures ok { OnOk result (self.new ≡ exchanged n bytes.now self.old) }
        ensures err { OnErr result (self.new ≡ read_on sides.B n self.old) }
    {
        self.read_on(Side::B, n);
        self.write_to(Side::A, bytes)
    }
}

impl Client {
    /// The same on the link at this place.
    fn exchange(&mut self, at: usize, n: usize, bytes: &[u8]) -> Result<(), NoMemory>
        requires there { at < length self.old.links }
        requires within { n ≤ length (readable sides.B (slice_index_or self.old.links at new_link)) }
        ensures ok { OnOk result (LinkTurns at (exchanged n bytes.now) self.old self.new) }
        ensures err { OnErr result (LinkTurns at (read_on sides.B n) self.old self.new) }
    {
        self.links[at].exchange(n, bytes)
    }
}

impl Clients {
    /// The same on a link of the client at this place.
    pub fn exchange(
        &mut self,
        n: usize,
        link: usize,
        count: usize,
        bytes: &[u8],
    ) -> Result<(), NoMemory>
        requires { HasUnread n link sides.B count self.old }
        ensures ok { OnOk result (LinkTurnsAt n link (exchanged count bytes.now) self.old self.new) }
        ensures err { OnErr result (LinkTurnsAt n link (read_on sides.B count) self.old self.new) }
    {
        self.list[n].exchange(link, count, bytes)
    }
}
