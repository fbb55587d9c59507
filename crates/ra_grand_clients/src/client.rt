//! A client: its dialer and its links. Its bytes are put on its last link.
ghost use Rattle.std.specs.Prelude.{◌≡◌, [], length, true, OnOk, OnErr, IfOk};
ghost use Rattle.ra_grand_clients.specs.ClientStates.{StaysClient, IsFlushed, put_on_last};

use crate::link::Link;
use ra_base::{Key, Message, NoMemory, Side};
use ra_dial::Dialer;
use ra_grand_runs::Counted;
use std::alloc::Global;
use std::marker::Model;

/// A client. It is seen as what it keeps in memory.
#[derive(Drop)]
pub(crate) struct Client {
    pub(crate) alloc: Global,
    pub(crate) key: Key,
    pub(crate) dialer: Dialer,
    pub(crate) entropy: Counted,
    /// Bytes that the dialer handed out, and that are still to be written on the last link.
    pub(crate) held: Message,
    pub(crate) links: Vec<Link>,
}

impl Model for Client {
    ghost use Rattle.std.specs.Coded.{codes};
    ghost use Rattle.ra_values.specs.TreeCode.{coded_tree};
    ghost use Rattle.ra_grand_clients.specs.ClientStates.{ClientState};

    ghost Value = { ClientState };

    ghost coded = { Prim.hlevel (codes, coded_tree) };

    ghost view = { λ c. record { key = c.key; dialer = c.dialer; drawn = c.entropy; held = c.held; links = c.links.items } };
}

/// Bytes are written by the client on its last link, where it has one.
fn write_last(links: &mut [Link], bytes: &[u8]) -> Result<(), NoMemory>
    ensures ok { OnOk result (links.new ≡ put_on_last bytes.now links.old) }
    ensures err { OnErr result (links.new ≡ links.old) }
{
    let n = links.len();
    if n == 0 {
        return Ok(());
    }
    links[n - 1].write_to(Side::B, bytes)
}

impl Client {
    /// What was handed out is written.
    fn put_held(&mut self) -> Result<(), NoMemory>
        ensures ok { OnOk result (self.new ≡ record self.old { held = []; links = put_on_last self.old.held self.old.links }) }
        ensures err { OnErr result (self.new ≡ self.old) }
    {
        write_last(&mut self.links, self.held.as_slice())?;
        self.held = Message::empty(self.alloc);
        Ok(())
    }

    /// The dialer's next bytes are taken, and answers whether there were none.
    fn hand_over(&mut self) -> Result<bool, NoMemory>
        ensures stays { StaysClient self.old self.new }
        ensures done { IfOk result (λ none. none ≡ true → IsFlushed self.old self.new) }
        ensures empty { IfOk result (λ none. none ≡ true → self.new.held ≡ []) }
        ensures count { length self.new.links ≡ length self.old.links }
    {
        self.put_held()?;
        self.held = self.dialer.take_out();
        Ok(self.held.is_empty())
    }

    /// All that the dialer has to write is put on the last link.
    pub(crate) fn flush(&mut self) -> Result<(), NoMemory>
        ensures stays { StaysClient self.old self.new }
        ensures done { OnOk result (IsFlushed self.old self.new) }
        ensures empty { OnOk result (self.new.held ≡ []) }
        ensures count { length self.new.links ≡ length self.old.links }
    {
        for _turn in 0..u64::MAX {
            if self.hand_over()? {
                return Ok(());
            }
        }
        Err(NoMemory)
    }
}
