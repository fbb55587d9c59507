//! What holds of a dialer whatever happens to it. Each function has an empty body: its clauses are what is proved.
ghost use Rattle.std.specs.Prelude.{◌≡◌, ℕ, ◌++◌, true, false, None, Some, List};
ghost use Rattle.ra_values.specs.Tree.{Tree};
ghost use Rattle.ra_dial.specs.Clients.{Settings};
ghost use Rattle.ra_dial.specs.Dialers.{Dialer};
ghost use Rattle.ra_dial.specs.DialerStates.{DialerState, StandsForDialer};
ghost use Rattle.ra_dial.specs.Handshakes.{Head, IsHeadOf};
ghost use Rattle.ra_dial.specs.Acts.{happened};
ghost use Rattle.ra_dial.specs.HandedUp.{HandsUp};
ghost use Rattle.ra_dial.specs.declared.stage.Stage.TheVariants as stages;
ghost use Rattle.ra_dial.specs.declared.values.DialEvent.TheVariants as events;
ghost use Rattle.ra_session.specs.Hearing.{Happening};
ghost use Rattle.ra_dial.specs.Requests.{MayRequest, IsTooMuch};
ghost use Rattle.ra_dial.specs.Runs.{Move, moved, after, acts_of, outcomes_of, is_over, HasSession};
ghost use Rattle.ra_dial.specs.Table.{new_dialer, step, looks_by};
ghost use Rattle.ra_dial.specs.declared.values.DialEvent.{DialEvent};
ghost use Rattle.ra_session.specs.SessionRefusals.{Refusal, call_refusal, listen_refusal};

/// Whatever happens to a dialer, and whatever it is asked: it is over, or its session has not ended.
pub fn has_session()
    ensures new { (settings : Settings) (context : Tree) (now : ℕ) → HasSession (new_dialer settings context now) }
    ensures each { (m : Move) (d : Dialer) → HasSession d → HasSession (moved m d) }
    ensures all { (settings : Settings) (context : Tree) (now : ℕ) (moves : List Move)
        → HasSession (after moves (new_dialer settings context now)) }
    ensures state { (h : DialerState) (d : Dialer) → StandsForDialer h d → HasSession d → is_over h.stage ≡ false → h.session.cause ≡ None }
{}

/// What a dialer goes through may be cut anywhere: what is told of the whole is what is told of its parts, one after the other.
pub fn runs()
    ensures after { (moves more : List Move) (d : Dialer) → after (moves ++ more) d ≡ after more (after moves d) }
    ensures acts { (moves more : List Move) (d : Dialer)
        → acts_of (moves ++ more) d ≡ acts_of moves d ++ acts_of more (after moves d) }
    ensures outcomes { (moves more : List Move) (d : Dialer)
        → outcomes_of (moves ++ more) d ≡ outcomes_of moves d ++ outcomes_of more (after moves d) }
{}

/// An event has one outcome: what it makes does not depend on an answer head that is not looked at, and a head that is looked at is the
/// one of the answer.
pub fn one_step()
    ensures { (event : DialEvent) (head other : Head) (draw : ℕ → List ℕ) (now : ℕ) (d : Dialer)
        → (looks_by event now d.stage d.lost ≡ true → IsHeadOf d.stage head)
        → (looks_by event now d.stage d.lost ≡ true → IsHeadOf d.stage other)
        → step head draw event now d ≡ step other draw event now d }
{}

/// A management dialer that is not over refuses a call or a listener for its size or for want of ids alone.
pub fn requests()
    ensures call { (d : Dialer) (channel name : List ℕ) (arg : Tree) (refusal : Refusal) → MayRequest d
        → call_refusal channel name arg d.session ≡ Some refusal → IsTooMuch refusal }
    ensures listen { (d : Dialer) (channel event : List ℕ) (arg : Tree) (refusal : Refusal) → MayRequest d
        → listen_refusal channel event arg d.session ≡ Some refusal → IsTooMuch refusal }
{}

/// What an attached dialer hands up at a frame was in the message behind those that it had heard, which then counts as heard.
pub fn handed_up()
    ensures { (head : Head) (draw : ℕ → List ℕ) (now : ℕ) (d : Dialer) (h : Happening) → d.stage ≡ stages.Attached
        → (step head draw events.Frame now d).0 ≡ happened h → HandsUp now h d (step head draw events.Frame now d).1 }
{}
