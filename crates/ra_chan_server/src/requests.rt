//! The requests that are active, in the order in which they came.
ghost use Rattle.std.specs.Prelude.{◌≡◌, ◌<◌, ◌^◌, [], ◌++◌, ◌∷◌, false, length, not, map, option_map, IfOk, OnOk, OnErr};
ghost use Rattle.std.specs.List.{AllByRecursion, filter, filter_map, find, list_any};
ghost use Rattle.std.specs.Bool.{OnTrue, OnFalse};
ghost use Rattle.std.specs.Option.{option_and_then};
ghost use Rattle.ra_ipc.specs.ChannelServers.{holds, is_handed, is_listener, is_timed_out, cancel_one, timeout_one};
ghost use Rattle.ra_chan_server.specs.Requests.{id_in, is_here, opened, opened_call, at_id, HaveOwnIds, ActiveFits};
ghost use Rattle.ra_chan_server.specs.View.{active_of, call_of};

use crate::call::Call;
use crate::request::{self, Request};
use crate::{index, table};
use ra_values::NoMemory;
use std::alloc::Global;
use std::collections::{BTreeMap, BTreeSet};
use std::marker::Model;

/// The requests that are active. A contract sees them as a list in the order in which they came.
#[derive(Drop)]
pub struct Requests {
    /// The arrival of the next one.
    next: u64,
    by_arrival: BTreeMap<u64, Request>,
    /// Of each id.
    arrivals: BTreeMap<u32, u64>,
    /// Of those that were not handed out.
    not_handed: BTreeSet<u64>,
}

impl Model for Requests {
    ghost use Rattle.std.specs.Prelude.{List};
    ghost use Rattle.ra_ipc.specs.ChannelServers.{Active};
    ghost use Rattle.ra_chan_server.specs.Held.{AreHeld, actives};
    ghost use Rattle.ra_values.specs.TreeCode.{coded_tree};
    ghost use Rattle.std.specs.Coded.{codes};

    ghost Value = { List Active };

    ghost coded = { Prim.hlevel (codes, coded_tree) };

    ghost view = { λ r. actives r.by_arrival.entries };

    ghost invariant = { λ r. AreHeld r.next r.by_arrival.entries r.arrivals.entries r.not_handed.keys };
}

impl Requests {
    /// None.
    pub fn new(alloc: Global) -> Requests
        ensures { result ≡ [] }
    {
        Requests {
            next: 0,
            by_arrival: BTreeMap::new(alloc),
            arrivals: BTreeMap::new(alloc),
            not_handed: BTreeSet::new(alloc),
        }
    }

    /// The request with this id.
    pub fn find(&self, id: u32) -> Option<&Request>
        ensures own { HaveOwnIds self.now }
        ensures fits { AllByRecursion ActiveFits self.now }
        ensures found { option_map (λ r. active_of r.now) result ≡ find (holds id) self.now }
    {
        let (_, request) = table::find(&self.by_arrival, &self.arrivals, id)?;
        Some(request)
    }

    /// Whether the id is active.
    pub fn has(&self, id: u32) -> bool
        ensures { result ≡ list_any (holds id) self.now }
    {
        self.find(id).is_some()
    }

    /// Whether the id is that of a call that was handed out.
    pub fn was_handed(&self, id: u32) -> bool
        ensures found { result ≡ list_any (is_handed id) self.now }
        ensures fits { OnTrue result (id < 2 ^ 31) }
        ensures one { OnTrue result (filter (λ a. not (holds id a)) self.now ≡ filter (λ a. not (is_handed id a)) self.now) }
        ensures no { OnFalse result (self.now ≡ filter (λ a. not (is_handed id a)) self.now) }
    {
        match self.find(id) {
            Some(request) => !request::is_here(request),
            None => false,
        }
    }

    /// Whether the id is that of a listen.
    fn has_listen(&self, id: u32) -> bool
        ensures yes { OnTrue result (filter (λ a. not (holds id a)) self.now ≡ filter (λ a. not (is_listener id a)) self.now) }
        ensures no { OnFalse result (self.now ≡ filter (λ a. not (is_listener id a)) self.now) }
    {
        match self.find(id) {
            Some(request) => request::is_listen(request),
            None => false,
        }
    }

    /// Adds a request whose id is not active. It is refused for want of memory, and where no arrival is left.
    pub fn push(&mut self, id: u32, request: Request) -> Result<(), NoMemory>
        requires id { id_in (active_of request) ≡ id }
        requires fits { ActiveFits (active_of request) }
        requires absent { list_any (holds id) self.old ≡ false }
        ensures ok { OnOk result (self.new ≡ self.old ++ active_of request ∷ []) }
        ensures err { OnErr result (self.new ≡ self.old) }
    {
        let Some(next) = self.next.checked_add(1) else {
            return Err(NoMemory);
        };
        table::add(
            &mut self.by_arrival,
            &mut self.arrivals,
            &mut self.not_handed,
            self.next,
            id,
            request,
        )?;
        self.next = next;
        Ok(())
    }

    /// Takes out the request with this id, if there is one.
    pub fn take(&mut self, id: u32)
        ensures { self.new ≡ filter (λ a. not (holds id a)) self.old }
    {
        if let Some((arrival, _)) = table::find(&self.by_arrival, &self.arrivals, id) {
            table::take(
                &mut self.by_arrival,
                &mut self.arrivals,
                &mut self.not_handed,
                id,
                arrival,
            );
        }
    }

    /// Ends the call with this id that was handed out, and tells whether there was one.
    pub fn complete(&mut self, id: u32) -> bool
        ensures found { result ≡ list_any (is_handed id) self.old }
        ensures after { OnTrue result (self.new ≡ filter (λ a. not (is_handed id a)) self.old) }
        ensures same { OnFalse result (self.new ≡ self.old) }
        ensures fits { OnTrue result (id < 2 ^ 31) }
    {
        if !self.was_handed(id) {
            return false;
        }
        self.take(id);
        true
    }

    /// Ends the listen with this id, if there is one.
    pub fn dispose(&mut self, id: u32)
        ensures { self.new ≡ filter (λ a. not (is_listener id a)) self.old }
    {
        if self.has_listen(id) {
            self.take(id);
        }
    }

    /// Cancels the call with this id, if it waits.
    pub fn cancel(&mut self, id: u32)
        ensures { self.new ≡ map (cancel_one id) self.old }
    {
        if let Some((arrival, _)) = table::find(&self.by_arrival, &self.arrivals, id) {
            table::mark(&mut self.by_arrival, arrival);
        }
    }

    /// The channel of the request with this id is registered. A call that waited is handed out.
    pub fn open(&mut self, id: u32) -> Option<Call>
        ensures after { self.new ≡ map (at_id id opened) self.old }
        ensures call { option_map call_of result ≡ option_and_then opened_call (find (holds id) self.old) }
    {
        let (arrival, _) = table::find(&self.by_arrival, &self.arrivals, id)?;
        let call = table::open(&mut self.by_arrival, arrival)?;
        index::take(&mut self.not_handed, arrival);
        Some(call)
    }

    /// Those that were not handed out.
    pub fn listed(&self, alloc: Global) -> Result<Vec<&Request>, NoMemory>
        ensures own { HaveOwnIds self.now }
        ensures fits { AllByRecursion ActiveFits self.now }
        ensures found { IfOk result (λ found. map (λ r. active_of r.now) found.items ≡ filter is_here self.now) }
    {
        table::listed(alloc, &self.by_arrival, &self.not_handed)
    }

    /// Whether one of them waited for its channel until this moment, or until an earlier one. It takes no memory.
    pub fn has_late(&self, now: u64) -> bool
        ensures { result ≡ list_any (is_timed_out now) self.now }
    {
        table::has_late(&self.by_arrival, &self.not_handed, now)
    }

    /// How many calls waited for their channel until this moment, or until an earlier one. It takes no memory.
    pub fn late_calls(&self, now: u64) -> usize
        ensures { result ≡ length (filter_map (timeout_one now) self.now) }
    {
        table::late_calls(&self.by_arrival, &self.not_handed, now)
    }

    /// Equal requests.
    pub fn copy(&self, alloc: Global) -> Result<Requests, NoMemory>
        ensures { IfOk result (λ r. r ≡ self.now) }
    {
        Ok(Requests {
            next: self.next,
            by_arrival: table::copied(alloc, &self.by_arrival)?,
            arrivals: self.arrivals.clone()?,
            not_handed: self.not_handed.clone()?,
        })
    }
}
