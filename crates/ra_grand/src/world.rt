//! The world: a hub, its clients, the links between them and the jobs that wait, at one moment.
ghost use Rattle.std.specs.Prelude.{◌≡◌, ◌<◌, ◌^◌, Option, max, length};
ghost use Rattle.ra_dial.specs.declared.values.DialEvent.{DialEvent};
ghost use Rattle.ra_values.specs.View.{tree};
ghost use Rattle.ra_ipc.specs.ChannelPairs.{cancelled};
ghost use Rattle.ra_ipc.specs.View.{id_of};
ghost use Rattle.ra_chan_client.specs.View.{RequestFits};
ghost use Rattle.ra_session.specs.SessionCalls as calls;
ghost use Rattle.ra_session.specs.SessionRefusals as sessions;
ghost use Rattle.ra_grand_runs.specs.Grands as grand;
ghost use Rattle.ra_grand_runs.specs.GrandEffects as effects;
ghost use Rattle.ra_grand_runs.specs.GrandRefusals as refusals;
ghost use Rattle.ra_grand_runs.specs.GrandRuns.{on_dialer, on_session};
ghost use Rattle.ra_grand.specs.GrandStates.{StandsForGrand, IsIndex};
ghost use Rattle.ra_grand_runs.specs.GrandViews.{Answers, IsCause, effect_of};
ghost use Rattle.ra_grand_runs.specs.Reached.{BringsNothing};
ghost use Rattle.ra_model.specs.Links.{at_number};

use ra_base::{Message, Moment};
use ra_dial::DialEvent;
use ra_grand_clients::Clients;
use ra_grand_runs::{GrandEffect, GrandFault, WritableAct};
use ra_grand_server::Server;
use ra_session::SessionFault;
use ra_upgrade::laws::answer_is_read;
use ra_values::{Text, Value};
use std::alloc::Global;

/// A hub and its clients, numbered from 1, and the links between them, numbered from 1.
#[derive(Drop)]
pub struct GrandWorld {
    pub(crate) alloc: Global,
    pub(crate) moment: Moment,
    pub(crate) server: Server,
    pub(crate) clients: Clients,
}

/// The later of two moments.
fn later(moment: Moment, now: u64) -> Moment
    requires { now < 2 ^ 53 }
    ensures { result ≡ max moment now }
{
    match Moment::of_millis(now) {
        Some(next) => moment.max(next),
        None => moment,
    }
}

/// The place of a number, from 1, where there are so many.
pub(crate) fn index_of(number: u64, count: usize) -> Option<usize>
    ensures { IsIndex number count result }
{
    if number == 0 || number > count as u64 {
        return None;
    }
    Some((number - 1) as usize)
}

/// The fault of an event whose session refuses.
pub(crate) fn session_fault(fault: SessionFault) -> GrandFault
    ensures { (cause : Option sessions.Refusal) → sessions.IsRefusal fault cause → IsCause result (refusals.by_session cause) }
{
    if let SessionFault::NoMemory = fault {
        return GrandFault::NoMemory;
    }
    GrandFault::Session { fault }
}

impl GrandWorld {
    /// A hub without sessions, and no client. It takes no memory.
    pub(crate) fn empty(alloc: Global) -> GrandWorld
        ensures { StandsForGrand result grand.new_grand }
    {
        GrandWorld {
            alloc,
            moment: Moment::start(),
            server: Server::new(alloc),
            clients: Clients::new(alloc),
        }
    }

    /// How many clients were made.
    pub fn clients(&self) -> u64
        ensures { (w : grand.Grand) → StandsForGrand self.now w → result ≡ length w.clients }
    {
        self.clients.len() as u64
    }

    /// How many links were made.
    pub fn links(&self) -> u64
        ensures { (w : grand.Grand) → StandsForGrand self.now w → result ≡ length w.places }
    {
        self.server.link_count() as u64
    }

    /// How many jobs wait.
    pub fn jobs(&self) -> u64
        ensures { (w : grand.Grand) → StandsForGrand self.now w → result ≡ length w.jobs }
    {
        self.server.job_count() as u64
    }

    /// The dialer of a client takes an event that brings no link and no bytes.
    pub(crate) fn dial(&mut self, client: u64, event: DialEvent) -> Result<GrandEffect, GrandFault>
        requires { BringsNothing event }
        ensures { (w : grand.Grand) → StandsForGrand self.old w
            → Answers result (refusals.of_client client refusals.unrefused (at_number w.clients client)) (effects.act_of event client w)
            (StandsForGrand self.new (on_dialer client event w)) (StandsForGrand self.new w) }
    {
        answer_is_read();
        match index_of(client, self.clients.len()) {
            None => Err(GrandFault::NoSuchClient { client }),
            Some(n) => match self.clients.dial(n, event, self.moment) {
                Ok(act) => Ok(GrandEffect::Act {
                    act: WritableAct::new(act),
                }),
                Err(_) => Err(GrandFault::NoMemory),
            },
        }
    }

    /// The moment is raised; a lower one counts as the last.
    pub(crate) fn at(&mut self, now: u64) -> GrandEffect
        requires { now < 2 ^ 53 }
        ensures effect { effect_of result ≡ effects.done }
        ensures changed { (w : grand.Grand) → StandsForGrand self.old w → StandsForGrand self.new (record w { now = max w.now now }) }
    {
        self.moment = later(self.moment, now);
        GrandEffect::Done
    }

    /// A message of an extension host's client.
    pub(crate) fn say(&mut self, client: u64, body: Message) -> Result<GrandEffect, GrandFault>
        ensures { (w : grand.Grand) → StandsForGrand self.old w
            → Answers result (refusals.of_client client (refusals.if_session (sessions.say_refusal body)) (at_number w.clients client)) effects.done
            (StandsForGrand self.new (on_session client (calls.say_body body) w)) (StandsForGrand self.new w) }
    {
        match index_of(client, self.clients.len()) {
            None => Err(GrandFault::NoSuchClient { client }),
            Some(n) => match self.clients.say(n, body, self.moment) {
                Ok(()) => Ok(GrandEffect::Done),
                Err(fault) => Err(session_fault(fault)),
            },
        }
    }

    /// A call of the name on the channel.
    pub(crate) fn call(
        &mut self,
        client: u64,
        channel: Text,
        name: Text,
        arg: Value,
    ) -> Result<GrandEffect, GrandFault>
        requires { RequestFits channel name (tree arg) }
        ensures { (w : grand.Grand) → StandsForGrand self.old w
            → Answers result (refusals.of_client client (refusals.if_session (sessions.call_refusal channel name (tree arg))) (at_number w.clients client)) (effects.next_id (at_number w.clients client))
            (StandsForGrand self.new (on_session client (calls.call channel name (tree arg)) w)) (StandsForGrand self.new w) }
    {
        match index_of(client, self.clients.len()) {
            None => Err(GrandFault::NoSuchClient { client }),
            Some(n) => match self.clients.call(n, channel, name, arg, self.moment) {
                Ok(id) => Ok(GrandEffect::Issued { id }),
                Err(fault) => Err(session_fault(fault)),
            },
        }
    }

    /// A listener to the events of the name on the channel.
    pub(crate) fn listen(
        &mut self,
        client: u64,
        channel: Text,
        name: Text,
        arg: Value,
    ) -> Result<GrandEffect, GrandFault>
        requires { RequestFits channel name (tree arg) }
        ensures { (w : grand.Grand) → StandsForGrand self.old w
            → Answers result (refusals.of_client client (refusals.if_session (sessions.listen_refusal channel name (tree arg))) (at_number w.clients client)) (effects.next_id (at_number w.clients client))
            (StandsForGrand self.new (on_session client (calls.listen channel name (tree arg)) w)) (StandsForGrand self.new w) }
    {
        match index_of(client, self.clients.len()) {
            None => Err(GrandFault::NoSuchClient { client }),
            Some(n) => match self.clients.listen(n, channel, name, arg, self.moment) {
                Ok(id) => Ok(GrandEffect::Issued { id }),
                Err(fault) => Err(session_fault(fault)),
            },
        }
    }

    /// The cancel of a call.
    pub(crate) fn cancel(&mut self, client: u64, id: i32) -> Result<GrandEffect, GrandFault>
        ensures { (w : grand.Grand) → StandsForGrand self.old w
            → Answers result (refusals.of_client client (refusals.if_session (sessions.cancel_refusal (id_of id))) (at_number w.clients client)) (effects.outcome cancelled)
            (StandsForGrand self.new (on_session client (calls.cancel (id_of id)) w)) (StandsForGrand self.new w) }
    {
        match index_of(client, self.clients.len()) {
            None => Err(GrandFault::NoSuchClient { client }),
            Some(n) => match self.clients.cancel(n, id, self.moment) {
                Ok(outcome) => {
                    drop(outcome);
                    Ok(GrandEffect::Cancelled)
                }
                Err(fault) => Err(session_fault(fault)),
            },
        }
    }

    /// The end of a listener.
    pub(crate) fn dispose(&mut self, client: u64, id: i32) -> Result<GrandEffect, GrandFault>
        ensures { (w : grand.Grand) → StandsForGrand self.old w
            → Answers result (refusals.of_client client (refusals.if_session (sessions.dispose_refusal (id_of id))) (at_number w.clients client)) effects.done
            (StandsForGrand self.new (on_session client (calls.dispose (id_of id)) w)) (StandsForGrand self.new w) }
    {
        match index_of(client, self.clients.len()) {
            None => Err(GrandFault::NoSuchClient { client }),
            Some(n) => match self.clients.dispose(n, id, self.moment) {
                Ok(()) => Ok(GrandEffect::Done),
                Err(fault) => Err(session_fault(fault)),
            },
        }
    }
}
