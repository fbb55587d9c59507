//! What an application tells a session: answers to calls, and messages of an extension host.
ghost use Rattle.std.specs.Prelude.{◌≡◌, ◌<◌, ◌^◌, ◌∷◌, [], true, not, map, option_map, IfOk, IfErr, OnOk, OnErr};
ghost use Rattle.std.specs.List.{AllByRecursion};
ghost use Rattle.ra_values.specs.Spelling.{Fits, levels};
ghost use Rattle.ra_ipc.specs.Packets.{MessageFits, message_bytes, reply_body};
ghost use Rattle.ra_ipc.specs.View.{message, id_of, reply};
ghost use Rattle.ra_session.specs.Carried.{SayCarries};
ghost use Rattle.ra_session.specs.Sessions.{is_management};
ghost use Rattle.ra_session.specs.SessionCalls as calls;
ghost use Rattle.ra_session.specs.SessionRefusals.{Refuses, answer_refusal, say_refusal};
ghost use Rattle.ra_session.specs.SessionStates.{OfEachSession, SessionBecomes};
ghost use Rattle.ra_session.specs.View.{firing_of, FireFits, TellFits, told, tell_refusal, is_asked, bodies_told};

use crate::hearing::is_management;
use crate::packets::{answer_packet, bodies_of, say_one};
use crate::session::{Session, running};
use crate::values::{SessionFault, Tell};
use ra_base::{Message, Moment};
use ra_chan_server::{ChannelServer, Fire};
use ra_ipc::{Answer, Packet};
use ra_values::NoMemory;
use std::alloc::Global;

/// An event for each of its listeners, where one is fired.
fn fired(
    alloc: Global,
    server: &ChannelServer,
    fire: &Option<Fire>,
) -> Result<Vec<Packet>, NoMemory>
    requires { FireFits fire.now }
    ensures packets { IfOk result (λ packets. map message packets.items ≡ calls.fired_by server.now (option_map firing_of fire.now)) }
    ensures fits { IfOk result (λ packets. AllByRecursion MessageFits (map message packets.items)) }
{
    match fire {
        Some(fire) => server.fire(alloc, fire),
        None => Ok(Vec::new(alloc)),
    }
}

/// The bodies of the fires, and then of the answer.
fn answer_bodies(
    alloc: Global,
    server: &ChannelServer,
    id: i32,
    answer: Answer,
    fire: &Option<Fire>,
) -> Result<Vec<Message>, NoMemory>
    requires id { id_of id < 2 ^ 31 }
    requires answer { Fits levels (reply_body (reply answer)) }
    requires fire { FireFits fire.now }
    ensures { IfOk result (λ bodies. bodies.items ≡ map message_bytes (calls.answer_packets server.now (id_of id) (reply answer) (option_map firing_of fire.now))) }
{
    let mut packets = fired(alloc, server, fire)?;
    packets.push(answer_packet(id, answer))?;
    bodies_of(alloc, &packets)
}

impl Session {
    /// The application answers a call.
    fn answer(
        &mut self,
        alloc: Global,
        id: i32,
        answer: Answer,
        fire: &Option<Fire>,
        now: Moment,
    ) -> Result<(), SessionFault>
        requires answer { Fits levels (reply_body (reply answer)) }
        requires fire { FireFits fire.now }
        ensures stands { OnOk result (SessionBecomes self.old self.new (calls.answer (id_of id) (reply answer) (option_map firing_of fire.now) now)) }
        ensures carries { IfErr result (SayCarries (is_management self.old.kind) (map message_bytes (calls.answer_packets self.old.server (id_of id) (reply answer) (option_map firing_of fire.now)))) }
        ensures refused { OfEachSession self.old (λ s. Refuses result (answer_refusal (id_of id) (reply answer) (option_map firing_of fire.now) s)) }
        ensures same { OnErr result (self.new ≡ self.old) }
    {
        running(self.cause)?;
        if !is_management(self.kind) {
            return Err(SessionFault::WrongKind);
        }
        if !self.server.has_call(id) {
            return Err(SessionFault::NoSuchCall { id });
        }
        let Ok(bodies) = answer_bodies(alloc, &self.server, id, answer, fire) else {
            return Err(SessionFault::NoMemory);
        };
        self.endpoint.say_all(bodies, now)?;
        self.server.end_call(id);
        Ok(())
    }

    /// An extension host says a message.
    fn say(&mut self, body: Message, now: Moment) -> Result<(), SessionFault>
        ensures stands { OnOk result (SessionBecomes self.old self.new (calls.say_body body now)) }
        ensures carries { IfErr result (SayCarries (not (is_management self.old.kind)) (body ∷ [])) }
        ensures refused { OfEachSession self.old (λ s. Refuses result (say_refusal body s)) }
        ensures same { OnErr result (self.new ≡ self.old) }
    {
        running(self.cause)?;
        if is_management(self.kind) {
            return Err(SessionFault::WrongKind);
        }
        say_one(&mut self.endpoint, body, now)?;
        Ok(())
    }

    /// Tells the session an answer, with an event that is fired before it, or a message of an extension host. It needs values
    /// that can be written.
    pub fn tell(&mut self, alloc: Global, tell: Tell, now: Moment) -> Result<(), SessionFault>
        requires { TellFits tell }
        ensures stands { OnOk result (SessionBecomes self.old self.new (told tell now)) }
        ensures carries { IfErr result (SayCarries (is_asked tell self.old.kind) (bodies_told tell self.old.server)) }
        ensures refused { OfEachSession self.old (λ s. Refuses result (tell_refusal tell s)) }
        ensures same { OnErr result (self.new ≡ self.old) }
    {
        match tell {
            Tell::Answer { id, answer, fire } => self.answer(alloc, id, answer, &fire, now),
            Tell::Say { body } => self.say(body, now),
        }
    }
}
