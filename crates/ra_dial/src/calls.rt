//! The calls of a dialer beside its events: it is made, its bytes are handed out, and its session is used.
ghost use Rattle.std.specs.Prelude.{◌≡◌, [], length, IfOk, OnOk, OnErr};
ghost use Rattle.ra_values.specs.View.{tree};
ghost use Rattle.ra_ipc.specs.ChannelPairs.{cancelled};
ghost use Rattle.ra_ipc.specs.View.{id_of};
ghost use Rattle.ra_chan_client.specs.View.{RequestFits};
ghost use Rattle.ra_session.specs.SessionCalls as calls;
ghost use Rattle.ra_session.specs.SessionRefusals as refusals;
ghost use Rattle.ra_session.specs.SessionRefusals.{Refuses};
ghost use Rattle.ra_session.specs.View.{RoleFits, outcome_of};
ghost use Rattle.ra_session.specs.declared.values.Role.TheVariants as roles;
ghost use Rattle.ra_dial.specs.Calling.{is_calling};
ghost use Rattle.ra_dial.specs.Clients.{CanDial};
ghost use Rattle.ra_dial.specs.Table as spec;
ghost use Rattle.ra_dial.specs.DialerStates.{OfEachDialer, DialerBecomes, StandsForDialer};
ghost use Rattle.ra_dial.specs.View.{settings_of, on_session};

use crate::client::Client;
use crate::dialer::Dialer;
use crate::outgoing::Outgoing;
use crate::stage::Stage;
use crate::values::DialSettings;
use ra_base::{Message, Moment, NoMemory};
use ra_session::{Outcome, Role, Session, SessionFault, Tell};
use ra_sign::Keyed;
use ra_values::{Text, Value};
use std::alloc::Global;

impl Dialer {
    /// A dialer that begins now: its first attempt is due at once. What it says in handshakes has to be UTF-8, the connection
    /// token and the version of at most 65,536 bytes, and the context has to fit a message.
    pub fn new(alloc: Global, settings: DialSettings, now: Moment) -> Result<Dialer, NoMemory>
        requires dials { CanDial (settings_of settings) }
        requires context { RoleFits (roles.Dialling settings.context) }
        ensures { IfOk result (λ d. StandsForDialer d (spec.new_dialer (settings_of settings) (tree settings.context) now)) }
    {
        let DialSettings {
            shake,
            sign_key,
            key,
            host,
            skip_frames,
            context,
        } = settings;
        let Ok(session) = Session::new(alloc, key.kind, Role::Dialling { context }, now) else {
            return Err(NoMemory);
        };
        let client = Client {
            shake,
            signer: Keyed::new(sign_key),
            key,
            host,
            skip_frames,
        };
        Ok(Dialer {
            client,
            stage: Stage::Resting {
                until: now.millis(),
            },
            attempt: 0,
            lost: now,
            outgoing: Outgoing::new(alloc),
            session,
        })
    }

    /// Whether it waits for a link that it asked for.
    pub fn is_calling(&self) -> bool
        ensures { OfEachDialer self.now (λ d. result ≡ is_calling d.stage) }
    {
        match &self.stage {
            Stage::Calling { .. } => true,
            Stage::Resting { .. } | Stage::Shaking { .. } | Stage::Attached | Stage::Over { .. } =>
                false,
        }
    }

    /// The next bytes that are to be put on the link, in order; none where none are left, or while the peer of an attached session
    /// has asked for a pause. It takes no memory.
    pub fn take_out(&mut self) -> Message
        ensures out { OfEachDialer self.old (λ d. result ≡ spec.next_out (length result) d) }
        ensures none { result ≡ [] → OfEachDialer self.old (λ d. spec.out d ≡ []) }
        ensures stands { DialerBecomes self.old self.new (spec.handed_out (length result)) }
    {
        let front = self.outgoing.take();
        if !front.is_empty() {
            return front;
        }
        match &self.stage {
            Stage::Attached => self.session.take_out(),
            Stage::Resting { .. }
            | Stage::Calling { .. }
            | Stage::Shaking { .. }
            | Stage::Over { .. } => front,
        }
    }

    /// What followed the server's answer, once, where frames come in messages of a WebSocket. Until it is handed out no frame is
    /// looked at. It takes no memory.
    pub fn framed(&mut self) -> Option<Message>
        ensures out { result ≡ spec.rest_at self.old.stage }
        ensures stands { DialerBecomes self.old self.new spec.framed }
    {
        match &mut self.stage {
            Stage::Shaking { shaking, .. } => shaking.framed(),
            Stage::Resting { .. } | Stage::Calling { .. } | Stage::Attached | Stage::Over { .. } =>
                { None }
        }
    }

    /// Calls the name on the channel of the peer, and answers the id of the call: as the session does.
    pub fn call(
        &mut self,
        alloc: Global,
        channel: Text,
        name: Text,
        arg: Value,
        now: Moment,
    ) -> Result<i32, SessionFault>
        requires { RequestFits channel name (tree arg) }
        ensures id { IfOk result (λ id. id_of id ≡ self.old.session.client.next) }
        ensures stands { OnOk result (DialerBecomes self.old self.new (on_session (calls.call channel name (tree arg) now))) }
        ensures refused { OfEachDialer self.old (λ d. Refuses result (refusals.call_refusal channel name (tree arg) d.session)) }
        ensures same { OnErr result (self.new ≡ self.old) }
    {
        self.session.call(alloc, channel, name, arg, now)
    }

    /// Listens to the events of this name on the channel of the peer, and answers the id of the listener: as the session does.
    pub fn listen(
        &mut self,
        alloc: Global,
        channel: Text,
        event: Text,
        arg: Value,
        now: Moment,
    ) -> Result<i32, SessionFault>
        requires { RequestFits channel event (tree arg) }
        ensures id { IfOk result (λ id. id_of id ≡ self.old.session.client.next) }
        ensures stands { OnOk result (DialerBecomes self.old self.new (on_session (calls.listen channel event (tree arg) now))) }
        ensures refused { OfEachDialer self.old (λ d. Refuses result (refusals.listen_refusal channel event (tree arg) d.session)) }
        ensures same { OnErr result (self.new ≡ self.old) }
    {
        self.session.listen(alloc, channel, event, arg, now)
    }

    /// Cancels a call, as the session does.
    pub fn cancel(&mut self, alloc: Global, id: i32, now: Moment) -> Result<Outcome, SessionFault>
        ensures outcome { IfOk result (λ outcome. outcome_of outcome ≡ cancelled) }
        ensures stands { OnOk result (DialerBecomes self.old self.new (on_session (calls.cancel (id_of id) now))) }
        ensures refused { OfEachDialer self.old (λ d. Refuses result (refusals.cancel_refusal (id_of id) d.session)) }
        ensures same { OnErr result (self.new ≡ self.old) }
    {
        self.session.cancel(alloc, id, now)
    }

    /// Ends a listener, as the session does.
    pub fn dispose(&mut self, alloc: Global, id: i32, now: Moment) -> Result<(), SessionFault>
        ensures stands { OnOk result (DialerBecomes self.old self.new (on_session (calls.dispose (id_of id) now))) }
        ensures refused { OfEachDialer self.old (λ d. Refuses result (refusals.dispose_refusal (id_of id) d.session)) }
        ensures same { OnErr result (self.new ≡ self.old) }
    {
        self.session.dispose(alloc, id, now)
    }

    /// Says a message of an extension host, as the session does.
    pub fn say(&mut self, alloc: Global, body: Message, now: Moment) -> Result<(), SessionFault>
        ensures stands { OnOk result (DialerBecomes self.old self.new (on_session (calls.say_body body now))) }
        ensures refused { OfEachDialer self.old (λ d. Refuses result (refusals.say_refusal body d.session)) }
        ensures same { OnErr result (self.new ≡ self.old) }
    {
        self.session.tell(alloc, Tell::Say { body }, now)
    }
}
