//! The channel client: what it holds, and its copy.
ghost use Rattle.std.specs.Prelude.{◌≡◌, ◌≤◌, ◌<◌, ◌^◌, true, IfOk, IfSome, IfNone};
ghost use Rattle.ra_ipc.specs.ChannelClients.{new_client, is_in};
ghost use Rattle.ra_ipc.specs.View.{id_of};

use crate::requests::IDS;
use crate::{ids, waiting};
use ra_ipc::Packet;
use ra_values::NoMemory;
use std::alloc::Global;
use std::collections::{BTreeMap, BTreeSet};
use std::marker::Model;

/// The client end of a session's channels. A contract sees its next id, whether the server is ready, the requests that wait for
/// that, the unsettled calls and the living listeners.
#[derive(Drop)]
pub struct ChannelClient {
    pub(crate) next: u32,
    pub(crate) ready: bool,
    pub(crate) waiting: BTreeMap<u32, Packet>,
    pub(crate) calls: BTreeSet<u32>,
    pub(crate) listeners: BTreeSet<u32>,
}

impl Model for ChannelClient {
    ghost use Rattle.ra_ipc.specs.ChannelClients.{Client};
    ghost use Rattle.ra_chan_client.specs.Held.{IsHeld, messages};
    ghost use Rattle.ra_values.specs.TreeCode.{coded_tree};
    ghost use Rattle.std.specs.Coded.{codes};

    ghost Value = { Client };

    ghost coded = { Prim.hlevel (codes, coded_tree) };

    ghost view = { λ c. record { next = c.next; ready = c.ready; waiting = messages c.waiting.entries; calls = c.calls.keys; listeners = c.listeners.keys } };

    ghost invariant = { λ c. IsHeld c.next c.waiting.entries c.calls.keys c.listeners.keys };
}

impl ChannelClient {
    /// A client that made no request, of a server that is not ready.
    pub fn new(alloc: Global) -> ChannelClient
        ensures { result ≡ new_client }
    {
        ChannelClient {
            next: 0,
            ready: false,
            waiting: BTreeMap::new(alloc),
            calls: BTreeSet::new(alloc),
            listeners: BTreeSet::new(alloc),
        }
    }

    /// An equal client.
    pub fn copy(&self, alloc: Global) -> Result<ChannelClient, NoMemory>
        ensures { IfOk result (λ c. c ≡ self.now) }
    {
        Ok(ChannelClient {
            next: self.next,
            ready: self.ready,
            waiting: waiting::copied(alloc, &self.waiting)?,
            calls: self.calls.clone()?,
            listeners: self.listeners.clone()?,
        })
    }

    /// Whether the server is ready, and so requests go out at once.
    pub fn is_ready(&self) -> bool
        ensures { result ≡ self.now.ready }
    {
        self.ready
    }

    /// Whether a call with this id is unsettled.
    pub fn has_call(&self, id: i32) -> bool
        ensures open { result ≡ is_in (id_of id) self.now.calls }
        ensures small { result ≡ true → id_of id < 2 ^ 31 }
    {
        ids::has(&self.calls, id.cast_unsigned())
    }

    /// Whether a listener with this id lives.
    pub fn has_listener(&self, id: i32) -> bool
        ensures open { result ≡ is_in (id_of id) self.now.listeners }
        ensures small { result ≡ true → id_of id < 2 ^ 31 }
    {
        ids::has(&self.listeners, id.cast_unsigned())
    }

    /// The id that the next request gets. None where id 2,147,483,647 was given.
    pub fn next_id(&self) -> Option<i32>
        ensures id { IfSome result (λ id. id_of id ≡ self.now.next) }
        ensures left { IfSome result (λ id. self.now.next < 2 ^ 31) }
        ensures spent { IfNone result (2 ^ 31 ≤ self.now.next) }
    {
        if self.next >= IDS {
            return None;
        }
        Some(self.next.cast_signed())
    }
}
