//! The laws. The client is the end that dialled, at side A of the view.
ghost use Rattle.std.specs.Prelude.{◌≡◌, ◌≢◌, ℕ, ◌≤◌, List, [], ◌∷◌, ◌++◌, length, Option, Some, None};
ghost use Rattle.ra_base.specs.declared.event.Side.TheVariants.{A};
ghost use Rattle.ra_base.specs.declared.key.Cause.{Cause};
ghost use Rattle.ra_base.specs.declared.key.Cause.TheVariants.{BadIpc};
ghost use Rattle.ra_base.specs.declared.kind.Kind.TheVariants.{Management};
ghost use Rattle.ra_model.specs.Frames.{body_limit};
ghost use Rattle.ra_model.specs.Links.{Link};
ghost use Rattle.ra_model.specs.Views.{View};
ghost use Rattle.ra_values.specs.Spelling.{levels, Fits};
ghost use Rattle.ra_values.specs.Tree.{Tree};
ghost use Rattle.ra_values.specs.ValueBytes.{value_bytes};
ghost use Rattle.ra_ipc.specs.ChannelPairs.{Outcome, cancelled};
ghost use Rattle.ra_ipc.specs.Messages.{Reply, promise, event_listen};
ghost use Rattle.ra_ipc.specs.Packets.{MessageFits};
ghost use Rattle.ra_session.specs.Hearing.{BadMessage};
ghost use Rattle.ra_session.specs.Saying.{dialling, serving};
ghost use Rattle.ra_session.specs.SessionCalls.{Firing, answer_packets, attach, feed_session, take_out, lose_session, answer, call, listen, cancel, dispose, tick_session, leave_session, end_session};
ghost use Rattle.ra_session.specs.SessionRefusals.{bad_ipc, answer_refusal, call_refusal, listen_refusal, cancel_refusal, dispose_refusal, tick_refusal};
ghost use Rattle.ra_session.specs.Sessions.{Session};
ghost use Rattle.ra_session.specs.Turns.{take_in, taken_answer};
ghost use Rattle.ra_session.specs.TurnRefusals.{taken_refusal};
ghost use Rattle.ra_channel_laws.specs.Channels.{ChannelsHold, SaysNothing, settled_in, fired_in};
ghost use Rattle.std.specs.List.{AllByRecursion};

/// Two ends that begin. The context can be said.
pub fn beginning()
    ensures { (context : Tree) (now later : ℕ) → Fits levels context → length (value_bytes context) ≤ body_limit
        → ChannelsHold context (dialling Management context now) (serving Management later) [] [] }
{}

/// What the client asks for, where it is not refused.
pub fn requests()
    ensures call { (context : Tree) (d s : Session) (settled : List (ℕ × Outcome)) (fired : List (ℕ × Tree)) (channel name : List ℕ) (arg : Tree)
        (now : ℕ) → call_refusal channel name arg d ≡ None → MessageFits (promise d.client.next channel name arg)
        → ChannelsHold context d s settled fired → ChannelsHold context (call channel name arg now d) s settled fired }
    ensures listen { (context : Tree) (d s : Session) (settled : List (ℕ × Outcome)) (fired : List (ℕ × Tree)) (channel event : List ℕ)
        (arg : Tree) (now : ℕ) → listen_refusal channel event arg d ≡ None → MessageFits (event_listen d.client.next channel event arg)
        → ChannelsHold context d s settled fired → ChannelsHold context (listen channel event arg now d) s settled fired }
    ensures cancel { (context : Tree) (d s : Session) (settled : List (ℕ × Outcome)) (fired : List (ℕ × Tree)) (id now : ℕ)
        → cancel_refusal id d ≡ None → ChannelsHold context d s settled fired
        → ChannelsHold context (cancel id now d) s (settled ++ (id, cancelled) ∷ []) fired }
    ensures dispose { (context : Tree) (d s : Session) (settled : List (ℕ × Outcome)) (fired : List (ℕ × Tree)) (id now : ℕ)
        → dispose_refusal id d ≡ None → ChannelsHold context d s settled fired → ChannelsHold context (dispose id now d) s settled fired }
{}

/// What an end hears: never a bad message. The client hands up what a run of the channels hands up.
pub fn hearing()
    ensures client { (context : Tree) (d s : Session) (settled : List (ℕ × Outcome)) (fired : List (ℕ × Tree)) (i j now : ℕ) (links : List Link)
        → View 0 A i j d.peer s.peer links → d.cause ≡ None → taken_refusal now d ≡ None → ChannelsHold context d s settled fired
        → ChannelsHold context (take_in now d) s (settled ++ settled_in (taken_answer now d).happening)
        (fired ++ fired_in (taken_answer now d).happening) }
    ensures server { (context : Tree) (d s : Session) (settled : List (ℕ × Outcome)) (fired : List (ℕ × Tree)) (i j now : ℕ) (links : List Link)
        → View 0 A i j d.peer s.peer links → s.cause ≡ None → taken_refusal now s ≡ None → ChannelsHold context d s settled fired
        → ChannelsHold context d (take_in now s) settled fired }
    ensures client_good { (context : Tree) (d s : Session) (settled : List (ℕ × Outcome)) (fired : List (ℕ × Tree)) (i j now : ℕ)
        (links : List Link) (bad : BadMessage) (body : List ℕ) → View 0 A i j d.peer s.peer links
        → ChannelsHold context d s settled fired → taken_refusal now d ≢ Some (bad_ipc bad body) }
    ensures server_good { (context : Tree) (d s : Session) (settled : List (ℕ × Outcome)) (fired : List (ℕ × Tree)) (i j now : ℕ)
        (links : List Link) (bad : BadMessage) (body : List ℕ) → View 0 A i j d.peer s.peer links
        → ChannelsHold context d s settled fired → taken_refusal now s ≢ Some (bad_ipc bad body) }
{}

/// What the server answers, where it is not refused, and what it answers by itself once a call has waited too long.
pub fn answers()
    ensures answer { (context : Tree) (d s : Session) (settled : List (ℕ × Outcome)) (fired : List (ℕ × Tree)) (id : ℕ) (reply : Reply)
        (fire : Option Firing) (now : ℕ) → answer_refusal id reply fire s ≡ None
        → AllByRecursion MessageFits (answer_packets s.server id reply fire) → ChannelsHold context d s settled fired
        → ChannelsHold context d (answer id reply fire now s) settled fired }
    ensures tick { (context : Tree) (d s : Session) (settled : List (ℕ × Outcome)) (fired : List (ℕ × Tree)) (now : ℕ)
        → tick_refusal now s ≡ None → ChannelsHold context d s settled fired → ChannelsHold context d (tick_session now s) settled fired }
    ensures client_tick { (context : Tree) (d s : Session) (settled : List (ℕ × Outcome)) (fired : List (ℕ × Tree)) (now : ℕ)
        → ChannelsHold context d s settled fired → ChannelsHold context (tick_session now d) s settled fired }
{}

/// Calls about links, and the end of a session.
pub fn links()
    ensures client { (context : Tree) (d s : Session) (settled : List (ℕ × Outcome)) (fired : List (ℕ × Tree)) (call : Session → Session)
        → SaysNothing call d → ChannelsHold context d s settled fired → ChannelsHold context (call d) s settled fired }
    ensures server { (context : Tree) (d s : Session) (settled : List (ℕ × Outcome)) (fired : List (ℕ × Tree)) (call : Session → Session)
        → SaysNothing call s → ChannelsHold context d s settled fired → ChannelsHold context d (call s) settled fired }
    ensures attach { (epoch : ℕ) (chunk : List ℕ) (now : ℕ) (s : Session) → SaysNothing (attach epoch chunk now) s }
    ensures feed { (epoch : ℕ) (piece : List ℕ) (now : ℕ) (s : Session) → SaysNothing (feed_session epoch piece now) s }
    ensures take_out { (s : Session) → SaysNothing take_out s }
    ensures lose { (epoch : ℕ) (s : Session) → SaysNothing (lose_session epoch) s }
    ensures leave { (s : Session) → SaysNothing leave_session s }
    ensures end { (cause : Cause) (s : Session) → cause ≢ BadIpc → SaysNothing (end_session cause) s }
{}
