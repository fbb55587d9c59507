//! The server's side of a world: its hub, its draws, the jobs that wait, and its ends of the links. It has no bytes of a link and no client.
ghost use Rattle.std.specs.Prelude.{◌≡◌, ◌<◌, ◌+◌, ◌++◌, ◌∷◌, [], false, Some, length, take, option_map, slice_get, OnOk, OnErr};
ghost use Rattle.ra_hub.specs.JobLists.{jobs_in};
ghost use Rattle.ra_hub.specs.Jobs.{seen};
ghost use Rattle.ra_hub.specs.Jobs.{JobState};
ghost use Rattle.ra_link_core.specs.Makes.{outcome_of};
ghost use Rattle.ra_link_core.specs.declared.phase.Phase.TheVariants as phases;
ghost use Rattle.ra_opening.specs.Stands.{new_opening};
ghost use Rattle.ra_grand_runs.specs.Grands.{Grand, new_grand};
ghost use Rattle.ra_grand_runs.specs.SetUps.{secret, shake_settings};
ghost use Rattle.ra_grand_server.specs.Pieces.{PieceAt, LeavesAt};
ghost use Rattle.ra_grand_server.specs.ServerCalls.{Sweeps, Works};
ghost use Rattle.ra_grand_server.specs.ServerStates.{ServedState, StandsForServer, place_of};

use crate::served_link::ServedLink;
use crate::settings::ServerSettings;
use crate::telling::{settle, tell_job};
use ra_base::{Moment, NoMemory};
use ra_grand_runs::Counted;
use ra_hub::{Hub, JobList, PlainHub, Swept};
use ra_keep::MemKeeper;
use ra_link_core::{CoreEnd, LinkCore};
use ra_session::SessionFault;
use std::alloc::Global;
use std::marker::Model;

/// How long a lost session may be reconnected, in milliseconds.
const LONG_GRACE: u64 = 10_800_000;

/// How long it may be once another request has come, in milliseconds.
const SHORT_GRACE: u64 = 300_000;

/// The hub, the draws that were made, the jobs that wait, and the server's end of each link. A contract sees what it keeps in memory.
#[derive(Drop)]
pub struct Server {
    pub(crate) alloc: Global,
    pub(crate) hub: PlainHub<MemKeeper>,
    pub(crate) entropy: Counted,
    pub(crate) jobs: JobList,
    pub(crate) links: Vec<ServedLink>,
}

impl Model for Server {
    ghost use Rattle.std.specs.Coded.{codes};
    ghost use Rattle.ra_values.specs.TreeCode.{coded_tree};
    ghost use Rattle.ra_values.specs.contracts.value.Value as value;
    ghost use Rattle.ra_keep.specs.contracts.mem_keeper.MemKeeper as kept;
    ghost use Rattle.ra_hub.specs.contracts.plain.PlainHub as plain;
    ghost use Rattle.ra_hub.specs.MemHubs.{mem_keeping};
    ghost use Rattle.ra_grand_server.specs.ServerStates.{ServerState, HoldsSeats};

    ghost Value = { ServerState };

    ghost coded = { Prim.hlevel (codes, coded_tree, value.the_row.coded, (plain.the_row kept.the_row mem_keeping).coded) };

    ghost view = { λ s. record { hub = s.hub; drawn = s.entropy; jobs = s.jobs; links = s.links.items } };

    ghost invariant = { λ s. HoldsSeats s.hub s.links.items };
}

impl Server {
    /// A hub without sessions, and no link. It takes no memory.
    pub fn new(alloc: Global) -> Server
        ensures { StandsForServer result new_grand }
    {
        Server {
            alloc,
            hub: PlainHub::new(alloc, LONG_GRACE, SHORT_GRACE),
            entropy: Counted::new(),
            jobs: JobList::new(alloc),
            links: Vec::new(alloc),
        }
    }

    /// How many links were made.
    pub fn link_count(&self) -> usize
        ensures { result ≡ length self.now.links }
    {
        self.links.len()
    }

    /// How many jobs wait.
    pub fn job_count(&self) -> usize
        ensures { result ≡ length (jobs_in self.now.jobs) }
    {
        self.jobs.jobs().len()
    }

    /// Whose link the one at this place is, and which of that client's links, each counted from 1.
    pub fn place(&self, n: usize) -> (u64, u64)
        requires { n < length self.now.links }
        ensures { option_map place_of (slice_get self.now.links n) ≡ Some (record { client = result.0; link = result.1 }) }
    {
        let end = &self.links[n];
        (end.client, end.link)
    }

    /// Whether the link at this place has ended.
    pub fn is_over(&self, n: usize) -> bool
        requires { n < length self.now.links }
        ensures { (link : ServedState) → slice_get self.now.links n ≡ Some link → result ≡ link.is_over }
    {
        self.links[n].is_over
    }

    /// The server's end of a new link.
    pub fn add_link(&mut self, alloc: Global, client: u64, link: u64) -> Result<(), NoMemory>
        ensures ok { OnOk result (self.new ≡ record self.old { links = self.old.links ++ record { client = client; link = link; core = phases.Opening new_opening; is_over = false } ∷ [] }) }
        ensures err { OnErr result (self.new ≡ self.old) }
    {
        self.links.push(ServedLink {
            client,
            link,
            core: LinkCore::new(alloc),
            is_over: false,
        })?;
        Ok(())
    }

    /// The first n links stay, and no others.
    pub fn keep_links(&mut self, n: usize)
        ensures { self.new ≡ record self.old { links = take n self.old.links } }
    {
        self.links.truncate(n);
    }

    /// Bytes come on the link at this place. What is answered is put behind the empty list.
    pub fn piece(
        &mut self,
        n: usize,
        settings: &ServerSettings,
        piece: &[u8],
        now: Moment,
        out: &mut Vec<u8>,
    ) -> Option<CoreEnd>
        requires settings { settings.now ≡ record { link = record { shake = shake_settings }; signer = secret } }
        requires there { n < length self.old.links }
        requires empty { out.old.items ≡ [] }
        ensures count { length self.new.links ≡ length self.old.links }
        ensures piece { PieceAt n (outcome_of result) piece.now now out.new.items self.old self.new }
    {
        self.links[n].piece(
            self.alloc,
            &mut self.hub,
            &mut self.jobs,
            &mut self.entropy,
            settings,
            piece,
            now,
            out,
        )
    }

    /// The link at this place is left, and its seat is lost.
    pub fn leave(&mut self, n: usize, now: Moment)
        requires { n < length self.old.links }
        ensures { LeavesAt n now self.old self.new }
    {
        self.links[n].leave(self.alloc, &mut self.hub, now);
    }

    /// The sessions whose grace is over end, and the others see the moment.
    pub fn sweep(&mut self, now: Moment) -> Swept
        ensures { (w : Grand) → StandsForServer self.old w → w.now ≡ now → Sweeps result self.new w }
    {
        self.hub.tick(self.alloc, now)
    }

    /// The job at this place, from 0, is done by the tools, and told to its session.
    pub fn work(&mut self, at: usize, now: Moment) -> Result<(), SessionFault>
        ensures { (w : Grand) (job : JobState) → StandsForServer self.old w → w.now ≡ now → slice_get (jobs_in self.old.jobs) at ≡ Some job
            → Works result (at + 1) (seen job) self.new w }
    {
        let Some(job) = self.jobs.jobs().get(at) else {
            return Err(SessionFault::NoMemory);
        };
        let told = tell_job(self.alloc, &mut self.hub, job, now);
        settle(told)?;
        self.jobs.remove(at);
        Ok(())
    }
}
