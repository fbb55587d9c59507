//! The laws.
ghost use Rattle.std.specs.Prelude.{◌==◌, ◌≤◌, ◌≡◌, ◌≢◌, ℕ, List, [], length, Some, None, false};
ghost use Rattle.ra_base.specs.declared.key.Cause.TheVariants.{BadIpc};
ghost use Rattle.ra_base.specs.declared.kind.Kind.TheVariants.{Management};
ghost use Rattle.ra_base.specs.declared.key.Seat.{Seat};
ghost use Rattle.ra_model.specs.Links.{at_number};
ghost use Rattle.ra_model.specs.Pairs.{messages};
ghost use Rattle.ra_ipc.specs.ChannelLaws.{outcome, settled_as};
ghost use Rattle.ra_ipc.specs.Messages.{number_of};
ghost use Rattle.ra_session.specs.Sessions.{Session};
ghost use Rattle.ra_link_core.specs.LinkRuns.{End, Welcome};
ghost use Rattle.ra_dial.specs.declared.stage.Stage.TheVariants as stages;
ghost use Rattle.ra_grand_runs.specs.GrandEffects.{effect, moved};
ghost use Rattle.ra_grand_runs.specs.GrandRefusals.{refusal};
ghost use Rattle.ra_grand_runs.specs.Marks.{Entry};
ghost use Rattle.ra_grand_runs.specs.GrandClients.{GrandLink, Client};
ghost use Rattle.ra_grand_runs.specs.Grands.{new_grand};
ghost use Rattle.ra_grand_runs.specs.GrandRuns.{run};
ghost use Rattle.ra_run_laws.specs.Runs.{IsRun};
ghost use Rattle.ra_grand_laws.specs.GoodEnds.{IsGoodEnd};
ghost use Rattle.ra_grand_laws.specs.Settling.{Settles};
ghost use Rattle.ra_grand_laws.specs.Ends.{BothHear, LinkHonest, HoldsLink, text_up, text_down, read_up, read_down};
ghost use Rattle.ra_grand_laws.specs.ChannelParts.{ChannelsKeep};
ghost use Rattle.ra_grand_laws.specs.Outcomes.{settled, fired};

/// In every run, also where memory ran out, a client and the session of its key are two ends: each has heard the first of the messages
/// that the other said, each once and in order, and keeps what is not acknowledged. Before there is a session the client has heard nothing.
pub fn both_ends()
    ensures hear { (entries : List Entry) (n : ℕ) (c : Client) (s : Session) → IsRun entries
        → at_number (run entries new_grand).clients n ≡ Some c → (run entries new_grand).hub.session c.key ≡ Some s
        → BothHear c.dialer.session.peer s.peer }
    ensures nothing { (entries : List Entry) (n : ℕ) (c : Client) → IsRun entries
        → at_number (run entries new_grand).clients n ≡ Some c → (run entries new_grand).hub.session c.key ≡ None
        → c.dialer.session.peer.heard ≡ [] }
{}

/// In every run, behind the handshake of each link whose client was welcomed: what each end wrote is a front of frames that it may write.
/// An attached client, and a server with the seat of its session's present link, have written whole such frames, but for what is not written
/// yet, unless the link is cut; and what they read is the frames that they applied, and what they have not.
pub fn links()
    ensures honest { (entries : List Entry) (n m : ℕ) (c : Client) (s : Session) (l : GrandLink) (w : Welcome) → IsRun entries → at_number (run entries new_grand).clients n ≡ Some c
        → (run entries new_grand).hub.session c.key ≡ Some s → at_number c.links m ≡ Some l → l.server.welcome ≡ Some w
        → LinkHonest c.dialer.session.peer s.peer w l }
    ensures client { (entries : List Entry) (n : ℕ) (c : Client) (s : Session) (l : GrandLink) → IsRun entries
        → at_number (run entries new_grand).clients n ≡ Some c → (run entries new_grand).hub.session c.key ≡ Some s
        → c.dialer.stage ≡ stages.Attached → at_number c.links (length c.links) ≡ Some l → c.dialer.session.cause ≡ None
        → (w : Welcome) × (l.server.welcome ≡ Some w)
        × HoldsLink (messages c.dialer.session.peer.endpoint) c.dialer.session.peer (text_up w l) (read_down w l) l.link.is_cut }
    ensures server { (entries : List Entry) (n m : ℕ) (c : Client) (s : Session) (l : GrandLink) (seat : Seat) → IsRun entries → at_number (run entries new_grand).clients n ≡ Some c
        → (run entries new_grand).hub.session c.key ≡ Some s → at_number c.links m ≡ Some l → l.server.is_over ≡ false
        → l.server.seat ≡ Some seat → seat.epoch ≡ s.peer.endpoint.epoch
        → (w : Welcome) × (l.server.welcome ≡ Some w) × (seat.key ≡ c.key)
        × HoldsLink (messages s.peer.endpoint) s.peer (text_down w l) (read_up w l) l.link.is_cut }
{}

/// In every run: what a client hands up is what a run of the channels at both ends hands up.
pub fn channels()
    ensures { (entries : List Entry) → IsRun entries
        → ChannelsKeep (run entries new_grand) (λ n. settled n entries new_grand) (λ n. fired n entries new_grand) }
{}

/// In every run each call of a client of a management session settles at most once, by its own cancel or the first answer that was heard
/// behind it; where there is a session, how its calls are answered and its listeners are handed events is as at the channels' two ends. No
/// session, of whatever kind, ends for a bad message.
pub fn settling()
    ensures once { (entries : List Entry) (n : ℕ) (c : Client) → IsRun entries
        → at_number (run entries new_grand).clients n ≡ Some c → c.key.kind ≡ Management
        → (i : ℕ) → number_of (λ s. s.0 == i) (settled n entries new_grand) ≤ 1 }
    ensures own { (entries : List Entry) (n : ℕ) (c : Client) → IsRun entries
        → at_number (run entries new_grand).clients n ≡ Some c → c.key.kind ≡ Management
        → (i : ℕ) → settled_as i (settled n entries new_grand) ≡ outcome i c.dialer.session.entries }
    ensures settles { (entries : List Entry) (n : ℕ) (c : Client) (s : Session) → IsRun entries → at_number (run entries new_grand).clients n ≡ Some c → c.key.kind ≡ Management
        → (run entries new_grand).hub.session c.key ≡ Some s
        → Settles c.dialer.session s (settled n entries new_grand) (fired n entries new_grand) }
    ensures client { (entries : List Entry) (n : ℕ) (c : Client) → IsRun entries
        → at_number (run entries new_grand).clients n ≡ Some c → c.dialer.session.cause ≢ Some BadIpc }
    ensures server { (entries : List Entry) (n : ℕ) (c : Client) (s : Session) → IsRun entries → at_number (run entries new_grand).clients n ≡ Some c
        → (run entries new_grand).hub.session c.key ≡ Some s → s.cause ≢ Some BadIpc }
{}

/// In every run no link comes to its end at the server for a header that states too long a body, or for a bad message.
pub fn ends()
    ensures { (entries : List Entry) (entry : Entry) (bytes : List ℕ) (end : End) → IsRun entries → refusal entry.event (run entries new_grand) ≡ None
        → effect entry.mark entry.event (run entries new_grand) ≡ moved bytes (Some end) → IsGoodEnd end }
{}
