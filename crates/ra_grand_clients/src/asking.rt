//! What a client asks of its session.
ghost use Rattle.std.specs.Prelude.{◌≡◌, IfOk};
ghost use Rattle.ra_values.specs.View.{tree};
ghost use Rattle.ra_ipc.specs.ChannelPairs.{cancelled};
ghost use Rattle.ra_ipc.specs.View.{id_of};
ghost use Rattle.ra_chan_client.specs.View.{RequestFits};
ghost use Rattle.ra_session.specs.SessionCalls as calls;
ghost use Rattle.ra_session.specs.SessionRefusals as refusals;
ghost use Rattle.ra_session.specs.View.{outcome_of};
ghost use Rattle.ra_grand_clients.specs.ClientStates.{Asks, IsNextId};

use crate::client::Client;
use ra_base::{Message, Moment};
use ra_session::{Outcome, SessionFault};
use ra_values::{Text, Value};

impl Client {
    /// A call of the name on the channel.
    pub(crate) fn call(
        &mut self,
        channel: Text,
        name: Text,
        arg: Value,
        now: Moment,
    ) -> Result<i32, SessionFault>
        requires { RequestFits channel name (tree arg) }
        ensures asks { Asks result self.old self.new (calls.call channel name (tree arg) now) (refusals.call_refusal channel name (tree arg)) }
        ensures id { IfOk result (λ id. IsNextId self.old id) }
    {
        match self.flush() {
            Err(_) => Err(SessionFault::NoMemory),
            Ok(()) => self.dialer.call(self.alloc, channel, name, arg, now),
        }
    }

    /// A listener to the events of the name on the channel.
    pub(crate) fn listen(
        &mut self,
        channel: Text,
        name: Text,
        arg: Value,
        now: Moment,
    ) -> Result<i32, SessionFault>
        requires { RequestFits channel name (tree arg) }
        ensures asks { Asks result self.old self.new (calls.listen channel name (tree arg) now) (refusals.listen_refusal channel name (tree arg)) }
        ensures id { IfOk result (λ id. IsNextId self.old id) }
    {
        match self.flush() {
            Err(_) => Err(SessionFault::NoMemory),
            Ok(()) => self.dialer.listen(self.alloc, channel, name, arg, now),
        }
    }

    /// The cancel of a call.
    pub(crate) fn cancel(&mut self, id: i32, now: Moment) -> Result<Outcome, SessionFault>
        ensures asks { Asks result self.old self.new (calls.cancel (id_of id) now) (refusals.cancel_refusal (id_of id)) }
        ensures outcome { IfOk result (λ outcome. outcome_of outcome ≡ cancelled) }
    {
        match self.flush() {
            Err(_) => Err(SessionFault::NoMemory),
            Ok(()) => self.dialer.cancel(self.alloc, id, now),
        }
    }

    /// The end of a listener.
    pub(crate) fn dispose(&mut self, id: i32, now: Moment) -> Result<(), SessionFault>
        ensures { Asks result self.old self.new (calls.dispose (id_of id) now) (refusals.dispose_refusal (id_of id)) }
    {
        match self.flush() {
            Err(_) => Err(SessionFault::NoMemory),
            Ok(()) => self.dialer.dispose(self.alloc, id, now),
        }
    }

    /// A message of an extension host's client.
    pub(crate) fn say(&mut self, body: Message, now: Moment) -> Result<(), SessionFault>
        ensures { Asks result self.old self.new (calls.say_body body now) (refusals.say_refusal body) }
    {
        match self.flush() {
            Err(_) => Err(SessionFault::NoMemory),
            Ok(()) => self.dialer.say(self.alloc, body, now),
        }
    }
}
