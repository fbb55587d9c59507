//! What holds of every turn, and what the calls of a session leave as it is. Each function has an empty body: its clauses are what is
//! proved.
ghost use Rattle.std.specs.Prelude.{◌≡◌, ◌≢◌, ℕ, ◌+◌, ◌≤◌, Bool, true, false, None, Some, List, [], length};
ghost use Rattle.ra_base.specs.declared.key.Cause.{Cause};
ghost use Rattle.ra_values.specs.Tree.{Tree};
ghost use Rattle.ra_model.specs.Endpoints.{is_linked};
ghost use Rattle.ra_model.specs.FirstFrame.{first_frame, is_too_long};
ghost use Rattle.ra_session.specs.Sessions.{Session, KeepsRole};
ghost use Rattle.ra_session.specs.SessionCalls.{attach, feed_session, take_out, lose_session, call, listen, cancel, dispose, tick_session, leave_session, end_session};
ghost use Rattle.ra_session.specs.OnLinks.{IsOnLink, IsRunning};
ghost use Rattle.ra_session.specs.SessionRefusals.{no_link, attach_refusal, feed_refusal};
ghost use Rattle.ra_session.specs.SessionStates.{SessionState, StandsForSession};
ghost use Rattle.ra_session.specs.Turns.{turn, turn_answer};
ghost use Rattle.ra_session.specs.TurnRefusals.{turn_refusal};
ghost use Rattle.ra_session.specs.View.{told};
ghost use Rattle.ra_session.specs.declared.values.Tell.{Tell};

/// A turn after which another one is due took a frame. The least frame has 13 bytes: so many fewer are unread than there were with the
/// piece, and so many still are.
pub fn due()
    ensures took { (epoch : ℕ) (piece : List ℕ) (now : ℕ) (s : Session) → turn_refusal epoch piece now s ≡ None
        → (turn_answer epoch piece now s).again ≡ true → (turn_answer epoch piece now s).took ≡ true }
    ensures left { (epoch : ℕ) (piece : List ℕ) (now : ℕ) (s : Session) → (turn_answer epoch piece now s).again ≡ true
        → 13 ≤ length (turn epoch piece now s).peer.endpoint.unread }
    ensures fewer { (epoch : ℕ) (piece : List ℕ) (now : ℕ) (s : Session) → turn_refusal epoch piece now s ≡ None
        → (turn_answer epoch piece now s).again ≡ true
        → length (turn epoch piece now s).peer.endpoint.unread + 13 ≤ length s.peer.endpoint.unread + length piece }
    ensures linked { (epoch : ℕ) (piece : List ℕ) (now : ℕ) (s : Session) → (turn_answer epoch piece now s).again ≡ true
        → is_linked (turn epoch piece now s).peer.endpoint.phase ≡ true }
{}

/// After a turn after which none is due, no whole frame begins what a session with a link has unread, and no header that states too
/// long a body.
pub fn none_due()
    ensures frame { (epoch : ℕ) (piece : List ℕ) (now : ℕ) (s : Session) → (turn_answer epoch piece now s).again ≡ false
        → is_linked (turn epoch piece now s).peer.endpoint.phase ≡ true → first_frame (turn epoch piece now s).peer.endpoint.unread ≡ None }
    ensures header { (epoch : ℕ) (piece : List ℕ) (now : ℕ) (s : Session) → (turn_answer epoch piece now s).again ≡ false
        → is_linked (turn epoch piece now s).peer.endpoint.phase ≡ true → is_too_long (turn epoch piece now s).peer.endpoint.unread ≡ false }
{}

/// Where nothing is unread and nothing comes, a turn takes no frame, and is refused only as `feed` is.
pub fn nothing()
    ensures refused { (epoch now : ℕ) (s : Session) → s.peer.endpoint.unread ≡ [] → turn_refusal epoch [] now s ≡ feed_refusal epoch s }
    ensures took { (epoch now : ℕ) (s : Session) → s.peer.endpoint.unread ≡ [] → (turn_answer epoch [] now s).took ≡ false }
    ensures again { (epoch now : ℕ) (s : Session) → s.peer.endpoint.unread ≡ [] → (turn_answer epoch [] now s).again ≡ false }
{}

/// A session that runs is on the link that begins, and stays on it over its turns, until it ends. Such a turn is never refused for want
/// of a link.
pub fn on_link()
    ensures runs { (h : SessionState) (s : Session) → StandsForSession h s → IsRunning s }
    ensures begins { (epoch : ℕ) (chunk : List ℕ) (now : ℕ) (s : Session) → IsRunning s → attach_refusal epoch s ≡ None
        → IsOnLink epoch (attach epoch chunk now s) }
    ensures stays { (epoch : ℕ) (piece : List ℕ) (now : ℕ) (s : Session) → IsOnLink epoch s → IsOnLink epoch (turn epoch piece now s) }
    ensures linked { (epoch : ℕ) (piece : List ℕ) (now : ℕ) (s : Session) → IsOnLink epoch s → turn_refusal epoch piece now s ≢ Some no_link }
{}

/// A session keeps its kind, and which end it is.
pub fn role()
    ensures state { (h : SessionState) (s : Session) → StandsForSession h s → (s.kind ≡ h.kind) × (s.serves ≡ h.serves) }
    ensures attach { (epoch : ℕ) (chunk : List ℕ) (now : ℕ) → KeepsRole (attach epoch chunk now) }
    ensures feed { (epoch : ℕ) (piece : List ℕ) (now : ℕ) → KeepsRole (feed_session epoch piece now) }
    ensures turn { (epoch : ℕ) (piece : List ℕ) (now : ℕ) → KeepsRole (turn epoch piece now) }
    ensures take_out { KeepsRole take_out }
    ensures tell { (tell : Tell) (now : ℕ) → KeepsRole (told tell now) }
    ensures call { (channel name : List ℕ) (arg : Tree) (now : ℕ) → KeepsRole (call channel name arg now) }
    ensures listen { (channel event : List ℕ) (arg : Tree) (now : ℕ) → KeepsRole (listen channel event arg now) }
    ensures cancel { (id now : ℕ) → KeepsRole (cancel id now) }
    ensures dispose { (id now : ℕ) → KeepsRole (dispose id now) }
    ensures tick { (now : ℕ) → KeepsRole (tick_session now) }
    ensures lose { (epoch : ℕ) → KeepsRole (lose_session epoch) }
    ensures leave { KeepsRole leave_session }
    ensures end { (cause : Cause) → KeepsRole (end_session cause) }
{}
