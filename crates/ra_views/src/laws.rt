//! The laws. A view is seen from the side of the session; the other end is any peer.
ghost use Rattle.std.specs.Prelude.{◌≡◌, ◌≢◌, ℕ, ◌<◌, ◌≤◌, false, Bool, None, Some, List, [], ◌∷◌, ◌++◌, length, take, Option};
ghost use Rattle.ra_base.specs.declared.key.Cause.{Cause};
ghost use Rattle.ra_values.specs.Tree.{Tree};
ghost use Rattle.ra_ipc.specs.Messages.{Reply};
ghost use Rattle.ra_model.specs.declared.frame.Frame.{Frame};
ghost use Rattle.ra_model.specs.Calls.{leave};
ghost use Rattle.ra_model.specs.Endpoints.{is_linked, shown};
ghost use Rattle.ra_model.specs.Links.{Link, other, at_number, put_number, direction_to, readable, read_on, written_to};
ghost use Rattle.ra_model.specs.Pairs.{messages, AllHonest};
ghost use Rattle.ra_model.specs.Views.{View, InEveryView, new_peer};
ghost use Rattle.ra_session.specs.Sessions.{Session, on_endpoint};
ghost use Rattle.ra_session.specs.SessionCalls.{Firing, attach, feed_session, take_out, lose_session, answer, say_body, call, listen, cancel, dispose, tick_session, leave_session, end_session};
ghost use Rattle.ra_session.specs.SessionRefusals.{too_long, attach_refusal, feed_refusal};
ghost use Rattle.ra_session.specs.OnLinks.{IsOnLink, IsRunning};
ghost use Rattle.ra_session.specs.Turns.{take_in, turn, turn_answer};
ghost use Rattle.ra_session.specs.TurnRefusals.{turn_refusal};
ghost use Rattle.ra_views.specs.SessionLinks.{KeepsNumber, KeepsLink};
ghost use Rattle.ra_views.specs.SessionViews.{InEverySessionView, KeepsSessionViews, SessionOnlyGrows, link_with, with_text};

/// Calls that read nothing of a link and put nothing on one.
pub fn calls()
    ensures call { (channel name : List ℕ) (arg : Tree) (now : ℕ) → KeepsSessionViews (call channel name arg now) }
    ensures listen { (channel event : List ℕ) (arg : Tree) (now : ℕ) → KeepsSessionViews (listen channel event arg now) }
    ensures cancel { (id now : ℕ) → KeepsSessionViews (cancel id now) }
    ensures dispose { (id now : ℕ) → KeepsSessionViews (dispose id now) }
    ensures answer { (id : ℕ) (reply : Reply) (fire : Option Firing) (now : ℕ) → KeepsSessionViews (answer id reply fire now) }
    ensures say { (body : List ℕ) (now : ℕ) → KeepsSessionViews (say_body body now) }
    ensures tick { (now : ℕ) → KeepsSessionViews (tick_session now) }
    ensures lose { (epoch : ℕ) → KeepsSessionViews (lose_session epoch) }
    ensures end { (cause : Cause) → KeepsSessionViews (end_session cause) }
    ensures take { (now : ℕ) → KeepsSessionViews (take_in now) }
    ensures leave { KeepsSessionViews (on_endpoint leave) }
{}

/// A later link begins, with bytes that were read of it; more of the present link is read; and all that may go out is put on it. A turn
/// does both. None is refused for a header that states too long a body.
pub fn links()
    ensures attach { InEverySessionView (λ start side i j s o links. (n k epoch now : ℕ) (l : Link) → i < n → at_number links n ≡ Some l
        → k ≤ length (direction_to side l).written → IsRunning s → attach_refusal epoch s ≡ None
        → View start side n j (attach epoch (take k (direction_to side l).written) now s).peer o (put_number links n (read_on side k l))) }
    ensures feed { InEverySessionView (λ start side i j s o links. (k epoch now : ℕ) (l : Link) → at_number links i ≡ Some l
        → k ≤ length (readable side l) → feed_refusal epoch s ≡ None
        → View start side i j (feed_session epoch (take k (readable side l)) now s).peer o (put_number links i (read_on side k l))) }
    ensures take_out { InEverySessionView (λ start side i j s o links. (l : Link) → at_number links i ≡ Some l
        → View start side i j (take_out s).peer o (put_number links i (written_to (other side) (shown s.peer.endpoint) l))) }
    ensures turn { InEverySessionView (λ start side i j s o links. (k epoch now : ℕ) (l : Link) → at_number links i ≡ Some l
        → k ≤ length (readable side l) → feed_refusal epoch s ≡ None
        → View start side i j (turn epoch (take k (readable side l)) now s).peer o
        (put_number links i (written_to (other side) (turn_answer epoch (take k (readable side l)) now s).out (read_on side k l)))) }
    ensures leave { InEverySessionView (λ start side i j s o links. (l : Link) → at_number links i ≡ Some l
        → View start side i j (leave_session s).peer o (put_number links i (written_to (other side) (shown (leave s.peer.endpoint)) l))) }
    ensures never_too_long { InEverySessionView (λ start side i j s o links. (k epoch now stated : ℕ) (l : Link) → at_number links i ≡ Some l
        → k ≤ length (readable side l) → turn_refusal epoch (take k (readable side l)) now s ≢ Some (too_long stated)) }
{}

/// A link is made on which only honest frames were written yet; of what was put on the last link of an end that has left it, only a front
/// is there, as long as it has what was read; and the moment at which a new end was made does not matter.
pub fn other_links()
    ensures made { InEveryView (λ start s i j p o links. (frames : List Frame) (is_cut : Bool)
        → AllHonest start (messages p.endpoint) p.endpoint.received frames
        → View start s i j p o (links ++ link_with (other s) frames is_cut ∷ [])) }
    ensures shortened { InEveryView (λ start s i j p o links. (l : Link) (text more : List ℕ) → at_number links i ≡ Some l
        → is_linked p.endpoint.phase ≡ false → p.endpoint.unwritten ≡ []
        → (direction_to (other s) l).written ≡ text ++ more → (direction_to (other s) l).read ≤ length text
        → View start s i j p o (put_number links i (with_text (other s) text l))) }
    ensures anew { InEveryView (λ start s i j p o links. (base now later : ℕ) (keeps : Bool) → o ≡ new_peer base now keeps
        → View start s i j p (new_peer base later keeps) links) }
{}

/// A session takes nothing back.
pub fn rising()
    ensures call { (channel name : List ℕ) (arg : Tree) (now : ℕ) → SessionOnlyGrows (call channel name arg now) }
    ensures listen { (channel event : List ℕ) (arg : Tree) (now : ℕ) → SessionOnlyGrows (listen channel event arg now) }
    ensures cancel { (id now : ℕ) → SessionOnlyGrows (cancel id now) }
    ensures dispose { (id now : ℕ) → SessionOnlyGrows (dispose id now) }
    ensures answer { (id : ℕ) (reply : Reply) (fire : Option Firing) (now : ℕ) → SessionOnlyGrows (answer id reply fire now) }
    ensures say { (body : List ℕ) (now : ℕ) → SessionOnlyGrows (say_body body now) }
    ensures tick { (now : ℕ) → SessionOnlyGrows (tick_session now) }
    ensures lose { (epoch : ℕ) → SessionOnlyGrows (lose_session epoch) }
    ensures end { (cause : Cause) → SessionOnlyGrows (end_session cause) }
    ensures attach { (epoch : ℕ) (chunk : List ℕ) (now : ℕ) → SessionOnlyGrows (attach epoch chunk now) }
    ensures feed { (epoch : ℕ) (piece : List ℕ) (now : ℕ) → SessionOnlyGrows (feed_session epoch piece now) }
    ensures take_out { SessionOnlyGrows take_out }
    ensures turn { (epoch : ℕ) (piece : List ℕ) (now : ℕ) → SessionOnlyGrows (turn epoch piece now) }
    ensures leave { SessionOnlyGrows leave_session }
{}

/// What the calls of a session leave of its link.
pub fn numbers()
    ensures call { (channel name : List ℕ) (arg : Tree) (now : ℕ) → KeepsLink (call channel name arg now) }
    ensures listen { (channel event : List ℕ) (arg : Tree) (now : ℕ) → KeepsLink (listen channel event arg now) }
    ensures cancel { (id now : ℕ) → KeepsLink (cancel id now) }
    ensures dispose { (id now : ℕ) → KeepsLink (dispose id now) }
    ensures answer { (id : ℕ) (reply : Reply) (fire : Option Firing) (now : ℕ) → KeepsLink (answer id reply fire now) }
    ensures say { (body : List ℕ) (now : ℕ) → KeepsLink (say_body body now) }
    ensures tick { (now : ℕ) → KeepsLink (tick_session now) }
    ensures feed { (epoch : ℕ) (piece : List ℕ) (now : ℕ) → KeepsLink (feed_session epoch piece now) }
    ensures take_out { KeepsLink take_out }
    ensures lose { (epoch : ℕ) → KeepsNumber (lose_session epoch) }
    ensures end { (cause : Cause) → KeepsNumber (end_session cause) }
    ensures turn { (epoch : ℕ) (piece : List ℕ) (now : ℕ) → KeepsNumber (turn epoch piece now) }
    ensures leave { KeepsNumber leave_session }
    ensures keeps { (f : Session → Session) → KeepsLink f → KeepsNumber f }
    ensures on_link { (f : Session → Session) (epoch : ℕ) (s : Session) → KeepsLink f → IsOnLink epoch s → IsOnLink epoch (f s) }
    ensures attach { (epoch : ℕ) (chunk : List ℕ) (now : ℕ) (s : Session) → IsRunning s → attach_refusal epoch s ≡ None
        → ((attach epoch chunk now s).peer.endpoint.epoch ≡ epoch) × ((attach epoch chunk now s).cause ≡ s.cause) × IsRunning (attach epoch chunk now s) }
{}
