//! The server's end of one link, and where that link is.
ghost use Rattle.std.specs.Prelude.{◌≡◌, [], None};
ghost use Rattle.ra_hub.specs.Hubs as spec;
ghost use Rattle.ra_hub.specs.Keeping.{Stands, seats_of};
ghost use Rattle.ra_link_core.specs.Cores.{seat_in};
ghost use Rattle.ra_link_core.specs.LinkRuns.{hub_left};
ghost use Rattle.ra_link_core.specs.Makes.{Balance, Holds, outcome_of};
ghost use Rattle.ra_grand_server.specs.Pieces.{Takes, left_state};
ghost use Rattle.ra_grand_runs.specs.SetUps.{secret, shake_settings};

use crate::settings::ServerSettings;
use ra_base::Moment;
use ra_grand_runs::Counted;
use ra_hub::{JobList, PlainHub};
use ra_keep::MemKeeper;
use ra_link_core::{CoreEnd, LinkCore};
use std::alloc::Global;
use std::marker::Model;
use std::mem;

/// The server's end of a link: whose link it is, and which of that client's links, each counted from 1; how far it is, and whether it has
/// ended.
#[derive(Drop)]
pub(crate) struct ServedLink {
    pub(crate) client: u64,
    pub(crate) link: u64,
    pub(crate) core: LinkCore,
    pub(crate) is_over: bool,
}

impl Model for ServedLink {
    ghost use Rattle.ra_grand_server.specs.ServerStates.{ServedState};

    ghost Value = { ServedState };

    ghost view = { λ l. record { client = l.client; link = l.link; core = l.core; is_over = l.is_over } };
}

impl ServedLink {
    /// Bytes come on it. What it answers is put behind the empty list.
    pub(crate) fn piece(
        &mut self,
        alloc: Global,
        hub: &mut PlainHub<MemKeeper>,
        jobs: &mut JobList,
        entropy: &mut Counted,
        settings: &ServerSettings,
        piece: &[u8],
        now: Moment,
        out: &mut Vec<u8>,
    ) -> Option<CoreEnd>
        requires settings { settings.now ≡ record { link = record { shake = shake_settings }; signer = secret } }
        requires holds { Holds (seats_of hub.old) (seat_in self.old.core) }
        requires empty { out.old.items ≡ [] }
        ensures seats { Balance (seat_in self.old.core) (seats_of hub.old) (seat_in self.new.core) (seats_of hub.new) }
        ensures same { self.new ≡ record self.old { core = self.new.core } }
        ensures takes { Takes self.old (outcome_of result) piece.now now self.new.core hub.old entropy.old jobs.old hub.new entropy.new jobs.new out.new.items }
    {
        self.core.piece(
            alloc,
            hub,
            jobs,
            entropy,
            &settings.signer,
            &settings.link,
            piece,
            now,
            out,
        )
    }

    /// It is left: its seat is reported lost, where it has one, and it is over.
    pub(crate) fn leave(&mut self, alloc: Global, hub: &mut PlainHub<MemKeeper>, now: Moment)
        requires { Holds (seats_of hub.old) (seat_in self.old.core) }
        ensures seats { Balance (seat_in self.old.core) (seats_of hub.old) None (seats_of hub.new) }
        ensures left { self.new ≡ left_state self.old }
        ensures made { (h : spec.Hub) → Stands hub.old h → Stands hub.new (hub_left (seat_in self.old.core) now h) }
    {
        let core = mem::replace(&mut self.core, LinkCore::new(alloc));
        core.leave(hub, now);
        self.is_over = true;
    }
}
