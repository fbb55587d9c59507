//! The clients of a world.
ghost use Rattle.std.specs.Prelude.{◌≡◌, ◌≢◌, ◌<◌, ◌+◌, ◌++◌, ◌∷◌, [], List, length, IfOk, OnOk, OnErr};
ghost use Rattle.ra_dial.specs.View.{ActFits};
ghost use Rattle.ra_dial.specs.Acts.{act_of};
ghost use Rattle.ra_values.specs.View.{tree};
ghost use Rattle.ra_ipc.specs.ChannelPairs.{cancelled};
ghost use Rattle.ra_ipc.specs.View.{id_of};
ghost use Rattle.ra_chan_client.specs.View.{RequestFits};
ghost use Rattle.ra_session.specs.SessionCalls as calls;
ghost use Rattle.ra_session.specs.SessionRefusals as refusals;
ghost use Rattle.ra_session.specs.View.{outcome_of};
ghost use Rattle.ra_base.specs.declared.kind.Kind.TheVariants as kinds;
ghost use Rattle.ra_grand_runs.specs.GrandClients as grand;
ghost use Rattle.ra_grand_runs.specs.GrandRefusals.{holder};
ghost use Rattle.ra_grand_clients.specs.Crowds.{ClientsStand, ClientsStay, IsCallingAt, LinksAt, DialsAt, AsksAt, IsNextIdAt};

use crate::client::Client;
use ra_base::{Key, Message, Moment, NoMemory};
use ra_dial::{DialAct, DialEvent};
use ra_session::{Outcome, SessionFault};
use ra_values::{Text, Value};
use std::alloc::Global;
use std::marker::Model;

/// The clients of a world, in the order in which they were made. A contract sees what each keeps in memory.
#[derive(Drop)]
pub struct Clients {
    pub(crate) list: Vec<Client>,
}

impl Model for Clients {
    ghost use Rattle.std.specs.Prelude.{List};
    ghost use Rattle.std.specs.Coded.{codes};
    ghost use Rattle.ra_values.specs.TreeCode.{coded_tree};
    ghost use Rattle.ra_grand_clients.specs.ClientStates.{ClientState};

    ghost Value = { List ClientState };

    ghost coded = { Prim.hlevel (codes, coded_tree) };

    ghost view = { λ c. c.list.items };
}

impl Clients {
    /// None. It takes no memory.
    pub fn new(alloc: Global) -> Clients
        ensures { result ≡ [] }
    {
        Clients {
            list: Vec::new(alloc),
        }
    }

    /// How many there are.
    pub fn len(&self) -> usize
        ensures { result ≡ length self.now }
    {
        self.list.len()
    }

    /// The number of the first client with this key.
    pub fn holder(&self, key: &Key) -> Option<u64>
        ensures { (cs : List grand.Client) → ClientsStand self.now cs → result ≡ holder 1 key.now cs }
    {
        for n in 0..self.len() {
            if self.list[n].has(key) {
                return Some(n as u64 + 1);
            }
        }
        None
    }

    /// One more client, for the session of this key. Its number is answered.
    pub fn add(&mut self, alloc: Global, key: Key, now: Moment) -> Result<u64, NoMemory>
        requires { key.kind ≢ kinds.Tunnel }
        ensures number { IfOk result (λ number. number ≡ length self.old + 1) }
        ensures made { OnOk result ((cs : List grand.Client) → ClientsStand self.old cs → ClientsStand self.new (cs ++ grand.new_client key now ∷ [])) }
        ensures same { OnErr result (self.new ≡ self.old) }
    {
        let client = Client::new(alloc, key, now)?;
        self.list.push(client)?;
        Ok(self.list.len() as u64)
    }

    /// The dialer of the client at this place takes an event.
    pub fn dial(&mut self, n: usize, event: DialEvent, now: Moment) -> Result<DialAct, NoMemory>
        requires { n < length self.old }
        ensures fits { IfOk result ActFits }
        ensures dials { IfOk result (λ act. DialsAt n event now (act_of act) self.old self.new) }
        ensures stays { OnErr result (ClientsStay self.old self.new) }
    {
        self.list[n].dial(event, now)
    }

    /// Whether the dialer of the client at this place waits for a link.
    pub fn is_calling(&self, n: usize) -> bool
        requires { n < length self.now }
        ensures { IsCallingAt n self.now result }
    {
        self.list[n].is_calling()
    }

    /// The client at this place makes a link.
    pub fn link(&mut self, n: usize, now: Moment) -> Result<(), NoMemory>
        requires { n < length self.old }
        ensures linked { OnOk result (LinksAt n now self.old self.new) }
        ensures stays { OnErr result (ClientsStay self.old self.new) }
    {
        self.list[n].link(now)
    }

    /// A call of the client at this place.
    pub fn call(
        &mut self,
        n: usize,
        channel: Text,
        name: Text,
        arg: Value,
        now: Moment,
    ) -> Result<i32, SessionFault>
        requires there { n < length self.old }
        requires fits { RequestFits channel name (tree arg) }
        ensures asks { AsksAt n result self.old self.new (calls.call channel name (tree arg) now) (refusals.call_refusal channel name (tree arg)) }
        ensures id { IfOk result (λ id. IsNextIdAt n self.old id) }
    {
        self.list[n].call(channel, name, arg, now)
    }

    /// A listener of the client at this place.
    pub fn listen(
        &mut self,
        n: usize,
        channel: Text,
        name: Text,
        arg: Value,
        now: Moment,
    ) -> Result<i32, SessionFault>
        requires there { n < length self.old }
        requires fits { RequestFits channel name (tree arg) }
        ensures asks { AsksAt n result self.old self.new (calls.listen channel name (tree arg) now) (refusals.listen_refusal channel name (tree arg)) }
        ensures id { IfOk result (λ id. IsNextIdAt n self.old id) }
    {
        self.list[n].listen(channel, name, arg, now)
    }

    /// A message of the extension host's client at this place.
    pub fn say(&mut self, n: usize, body: Message, now: Moment) -> Result<(), SessionFault>
        requires { n < length self.old }
        ensures { AsksAt n result self.old self.new (calls.say_body body now) (refusals.say_refusal body) }
    {
        self.list[n].say(body, now)
    }

    /// The cancel of a call of the client at this place.
    pub fn cancel(&mut self, n: usize, id: i32, now: Moment) -> Result<Outcome, SessionFault>
        requires { n < length self.old }
        ensures asks { AsksAt n result self.old self.new (calls.cancel (id_of id) now) (refusals.cancel_refusal (id_of id)) }
        ensures outcome { IfOk result (λ outcome. outcome_of outcome ≡ cancelled) }
    {
        self.list[n].cancel(id, now)
    }

    /// The end of a listener of the client at this place.
    pub fn dispose(&mut self, n: usize, id: i32, now: Moment) -> Result<(), SessionFault>
        requires { n < length self.old }
        ensures { AsksAt n result self.old self.new (calls.dispose (id_of id) now) (refusals.dispose_refusal (id_of id)) }
    {
        self.list[n].dispose(id, now)
    }
}
