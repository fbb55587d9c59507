//! What holds of every served link. Each function has an empty body: its clauses are what is proved.
ghost use Rattle.std.specs.Prelude.{◌≡◌, ◌≢◌, ℕ, false, None, Some, List};
ghost use Rattle.ra_base.specs.declared.handshake.Request.{Request};
ghost use Rattle.ra_base.specs.declared.key.Seat.{Seat};
ghost use Rattle.ra_items.specs.Heads.{Head};
ghost use Rattle.ra_opening.specs.Openings.{Grounds, Opened};
ghost use Rattle.ra_session.specs.SessionRefusals.{no_link};
ghost use Rattle.ra_session.specs.Sessions.{Session};
ghost use Rattle.ra_session.specs.Turns.{is_ready};
ghost use Rattle.ra_upgrade.specs.declared.request_head.HeadFault.{HeadFault};
ghost use Rattle.ra_upgrade.specs.declared.request_head.Upgrade.{Upgrade};
ghost use Rattle.ra_hub.specs.Hubs.{Hub};
ghost use Rattle.ra_hub.specs.Jobs.{SeenJob};
ghost use Rattle.ra_link_core.specs.LinkRuns.{Piece, Serving, link_run, new_serving, served, asked, opening_came, refused_by};
ghost use Rattle.ra_link_core.specs.Makes.{Writes};
ghost use Rattle.ra_hub.specs.Running.{HubRuns};

/// No link that is served over a hub whose sessions run ends for want of a link.
pub fn never_unlinked()
    ensures { (grounds : Grounds) (head : Head Upgrade HeadFault) (text : List ℕ) (pieces : List Piece) (h : Hub) (jobs : List SeenJob)
        → HubRuns h → (link_run grounds head text pieces (new_serving h jobs)).end ≢ Some (refused_by no_link) }
{}

/// Behind each piece a session that goes on has no whole frame unread, and no header that states too long a body: the bound of one more
/// turn for each 13 bytes cuts off none that is due.
pub fn all_read()
    ensures { (grounds : Grounds) (head : Head Upgrade HeadFault) (text : List ℕ) (pieces : List Piece) (h : Hub) (jobs : List SeenJob) (seat : Seat) (x : Session)
        → HubRuns h → let s = link_run grounds head text pieces (new_serving h jobs) in
        s.seat ≡ Some seat → s.end ≡ None → s.hub.session seat.key ≡ Some x → is_ready x.peer.endpoint ≡ false }
{}

/// What a link writes for a piece behind its opening, for a client's request, and behind what its opening wrote, is just what its calls
/// of the hub make it write, in their order.
pub fn writes()
    ensures served { (turns : ℕ) (seat : Seat) (piece : List ℕ) (now : ℕ) (s : Serving) → Writes s (served turns seat piece now s) }
    ensures asked { (request : Request) (place : ℕ) (chunk : List ℕ) (now : ℕ) (s : Serving) → Writes s (asked request place chunk now s) }
    ensures opening { (o : Opened) (text : List ℕ) (now : ℕ) (s : Serving)
        → Writes (record s { out = o.out; drawn = o.drawn }) (opening_came o text now s) }
{}
