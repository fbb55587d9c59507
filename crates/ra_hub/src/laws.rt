//! What holds of the calls of every hub that tells. Each function has an empty body: its clauses are what is proved.
ghost use Rattle.std.specs.Prelude.{◌≡◌, ◌<◌, ℕ, true, List, Some, length, slice_index_or, is_some, if◌then◌else◌};
ghost use Rattle.ra_base.specs.declared.handshake.Reason.{Reason};
ghost use Rattle.ra_base.specs.declared.handshake.Reason.TheVariants.{SeenBefore, Duplicate};
ghost use Rattle.ra_base.specs.declared.handshake.Request.{Request};
ghost use Rattle.ra_base.specs.declared.key.Cause.{Cause};
ghost use Rattle.ra_base.specs.declared.key.Key.{Key};
ghost use Rattle.ra_base.specs.declared.key.Seat.{Seat};
ghost use Rattle.ra_keep.specs.declared.record.Record.{Record};
ghost use Rattle.ra_registry.specs.Admission.{admission_refusal, key_of, seat_for};
ghost use Rattle.ra_registry.specs.RegistryStates.{RegistryState};
ghost use Rattle.ra_registry.specs.Rows.{same_key};
ghost use Rattle.ra_session.specs.Sessions.{Session};
ghost use Rattle.ra_hub.specs.declared.entry.SessionEntry.{SessionEntry};
ghost use Rattle.std.specs.BTreeMap.{BTreeMap};
ghost use Rattle.ra_hub.specs.Running.{HubRuns};
ghost use Rattle.ra_hub.specs.Standing.{StandsForHub};
ghost use Rattle.ra_hub.specs.Hubs.{Hub, started, at_key, admitted, refused, missed, seat_lost, seat_closed};
ghost use Rattle.ra_hub.specs.OtherSessions.{IsSame, IsShortened, OfOthers, AgreeOn};

/// A call about one session leaves all others as they were, but that a request may shorten the grace of a lost one.
pub fn calls_leave_others()
    ensures admitted { (h : Hub) (ask : Request) (now : ℕ) → OfOthers (key_of ask) (IsShortened now h (admitted ask now h)) }
    ensures refused { (h : Hub) (ask : Request) (now : ℕ) (reason : Reason) → OfOthers (key_of ask) (IsShortened now h (refused ask now reason h)) }
    ensures called { (h : Hub) (key : Key) (s : Session) → OfOthers key (IsSame h (at_key key s h)) }
    ensures lost { (h : Hub) (seat : Seat) (now : ℕ) (s : Session) → OfOthers seat.key (IsSame h (seat_lost seat now s h)) }
    ensures closed { (h : Hub) (seat : Seat) (cause : Cause) (now : ℕ) (s : Session) → OfOthers seat.key (IsSame h (seat_closed seat cause now s h)) }
    ensures missed { (h : Hub) (key : Key) (now : ℕ) → OfOthers key (IsSame h (missed key now h)) }
{}

/// The answer to a request is a function of the rows of its own token, the grace times and the moment.
pub fn requests_look_at_one_token()
    ensures refusal { (a b : RegistryState) (ask : Request) (now : ℕ) → AgreeOn ask.token a b → admission_refusal a ask now ≡ admission_refusal b ask now }
    ensures seat { (a b : RegistryState) (ask : Request) → AgreeOn ask.token a b → seat_for a ask ≡ seat_for b ask }
{}

/// In a hub that started from records a reconnection of the session of one of them is refused as seen before, and a new request for it
/// as a duplicate.
pub fn records_are_over()
    ensures { (long short : ℕ) (records : List Record) (i : ℕ) (d : Record) (ask : Request) (now : ℕ) → i < length records
        → same_key (slice_index_or records i d).key (key_of ask) ≡ true → is_some ask.kind ≡ true
        → admission_refusal (started long short records).registry ask now ≡ Some (if ask.reconnection then SeenBefore else Duplicate) }
{}

/// Of each session of a hub that `PlainHub` stands for: it has ended, or its endpoint has not.
pub fn sessions_run()
    ensures { (registry : RegistryState) (sessions : BTreeMap Key SessionEntry) (keys : List Key) (h : Hub)
        → StandsForHub registry sessions keys h → HubRuns h }
{}
