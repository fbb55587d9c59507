//! A session that begins: of an end that serves, and of one that dialled.
ghost use Rattle.std.specs.Prelude.{◌≡◌, ◌∷◌, [], false, true, not, if◌then◌else◌, length, IfOk};
ghost use Rattle.ra_model.specs.EndpointStates.{StandsFor};
ghost use Rattle.ra_model.specs.Endpoints.{new_endpoint, is_ended};
ghost use Rattle.ra_proto.specs.SayAll.{say_all};
ghost use Rattle.ra_values.specs.Spelling.{Fits, levels};
ghost use Rattle.ra_values.specs.ValueBytes.{value_bytes};
ghost use Rattle.ra_values.specs.View.{tree};
ghost use Rattle.ra_ipc.specs.Messages.{initialize};
ghost use Rattle.ra_ipc.specs.Packets.{message_bytes};
ghost use Rattle.ra_session.specs.Sessions.{is_management, first_channels};
ghost use Rattle.ra_session.specs.Saying.{serving, dialling};
ghost use Rattle.ra_session.specs.SessionStates.{StandsForSession};
ghost use Rattle.ra_session.specs.View.{new_as, RoleFits};

use crate::hearing::is_management;
use crate::packets::body_of;
use crate::session::Session;
use crate::values::Role;
use ra_base::{Kind, Message, Moment};
use ra_chan_client::ChannelClient;
use ra_chan_server::ChannelServer;
use ra_ipc::Packet;
use ra_proto::Endpoint;
use ra_values::{NoMemory, Text, Value, append};
use std::alloc::Global;

/// The channels that a session begins with.
fn first_server(alloc: Global, kind: Kind) -> Result<ChannelServer, NoMemory>
    ensures { IfOk result (λ s. s ≡ record { channels = first_channels true kind; active = [] }) }
{
    let mut server = ChannelServer::new(alloc);
    if is_management(kind) {
        let tools = Text::of(alloc, "tools")?;
        server.register(alloc, &tools)?;
    }
    Ok(server)
}

/// The context and Initialize, as the bodies of messages.
fn first_bodies(alloc: Global, context: &Value) -> Result<Vec<Message>, NoMemory>
    requires { Fits levels (tree context.now) }
    ensures { IfOk result (λ bodies. bodies.items ≡ value_bytes (tree context.now) ∷ message_bytes initialize ∷ []) }
{
    let mut bytes = Vec::new(alloc);
    append(context, &mut bytes)?;
    let initialize = body_of(alloc, &Packet::Initialize)?;
    let mut bodies = Vec::with_capacity(alloc, 2)?;
    bodies.push(Message::from_vec(bytes))?;
    bodies.push(initialize)?;
    Ok(bodies)
}

/// The endpoint of an end that dialled, which keeps its links alive.
fn first_endpoint(
    alloc: Global,
    kind: Kind,
    context: &Value,
    now: Moment,
) -> Result<Endpoint, NoMemory>
    requires { Fits levels (tree context.now) }
    ensures stands { IfOk result (λ e. StandsFor e (if is_management kind then say_all (value_bytes (tree context.now) ∷ message_bytes initialize ∷ []) now (new_endpoint 0 now true) else new_endpoint 0 now true)) }
    ensures going { IfOk result (λ e. is_ended e.phase ≡ false) }
{
    let mut endpoint = Endpoint::new(alloc, now, true);
    if is_management(kind) {
        let bodies = first_bodies(alloc, context)?;
        if endpoint.say_all(bodies, now).is_err() {
            return Err(NoMemory);
        }
    }
    Ok(endpoint)
}

impl Session {
    /// The session of an end that serves.
    fn serving(alloc: Global, kind: Kind, now: Moment) -> Result<Session, NoMemory>
        ensures { IfOk result (λ s. StandsForSession s (serving kind now)) }
    {
        let server = first_server(alloc, kind)?;
        Ok(Session {
            endpoint: Endpoint::new(alloc, now, false),
            kind,
            serves: true,
            server,
            client: ChannelClient::new(alloc),
            cause: None,
        })
    }

    /// The session of an end that dialled.
    fn dialling(
        alloc: Global,
        kind: Kind,
        context: &Value,
        now: Moment,
    ) -> Result<Session, NoMemory>
        requires { Fits levels (tree context.now) }
        ensures { IfOk result (λ s. StandsForSession s (dialling kind (tree context.now) now)) }
    {
        let endpoint = first_endpoint(alloc, kind, context, now)?;
        Ok(Session {
            endpoint,
            kind,
            serves: false,
            server: ChannelServer::new(alloc),
            client: ChannelClient::new(alloc),
            cause: None,
        })
    }

    /// A session that begins now. A management session that dialled has said its context, which has to fit, and Initialize; one that
    /// serves has the channel `tools`. It is refused for want of memory alone.
    pub fn new(alloc: Global, kind: Kind, role: Role, now: Moment) -> Result<Session, NoMemory>
        requires { RoleFits role }
        ensures { IfOk result (λ s. StandsForSession s (new_as kind role now)) }
    {
        match role {
            Role::Serving => Session::serving(alloc, kind, now),
            Role::Dialling { context } => Session::dialling(alloc, kind, &context, now),
        }
    }
}
