//! What holds of every run of a world. Each function has an empty body: its clauses are what is proved.
ghost use Rattle.std.specs.Prelude.{◌≡◌, ◌≢◌, ◌≤◌, ℕ, true, false, List, Some};
ghost use Rattle.ra_base.specs.declared.key.Key.{Key};
ghost use Rattle.ra_model.specs.Links.{at_number};
ghost use Rattle.ra_registry.specs.Rows.{same_key};
ghost use Rattle.ra_script.specs.declared.grand_line.GrandEvent.{GrandEvent};
ghost use Rattle.ra_grand_runs.specs.GrandClients.{Client, ServerEnd};
ghost use Rattle.ra_grand_runs.specs.GrandRuns.{happens, after, run};
ghost use Rattle.ra_grand_runs.specs.Grands.{Grand, Place, new_grand};
ghost use Rattle.ra_grand_runs.specs.Lasting.{BeginsWith, history_of, key_at, server_end};
ghost use Rattle.ra_grand_runs.specs.Marks.{Mark, Entry};
ghost use Rattle.ra_grand_runs.specs.Owners.{owner, AboutOthers};

/// An event about one client, or about a link of one, leaves each other client as it is. The moment, a sweep and a job leave all clients,
/// and a client that is made leaves all that were there.
pub fn others_stay()
    ensures event { (mark : Mark) (event : GrandEvent) (w : Grand) (n : ℕ) → owner event w ≢ Some n
        → at_number (happens mark event w).clients n ≡ at_number w.clients n }
    ensures run { (entries : List Entry) (w : Grand) (n : ℕ) → AboutOthers n entries w
        → at_number (run entries w).clients n ≡ at_number w.clients n }
{}

/// The moment never goes back.
pub fn moments_rise()
    ensures event { (entry : Entry) (w : Grand) → w.now ≤ (after entry w).now }
    ensures run { (entries : List Entry) (w : Grand) → w.now ≤ (run entries w).now }
{}

/// A link keeps its number and its place, and a client its number and its key.
pub fn places_stay()
    ensures event { (entry : Entry) (w : Grand) (n : ℕ) (place : Place) → at_number w.places n ≡ Some place
        → at_number (after entry w).places n ≡ Some place }
    ensures run { (entries : List Entry) (w : Grand) (n : ℕ) (place : Place) → at_number w.places n ≡ Some place
        → at_number (run entries w).places n ≡ Some place }
    ensures client { (entry : Entry) (w : Grand) (n : ℕ) (key : Key) → key_at n w ≡ Some key → key_at n (after entry w) ≡ Some key }
    ensures clients { (entries : List Entry) (w : Grand) (n : ℕ) (key : Key) → key_at n w ≡ Some key → key_at n (run entries w) ≡ Some key }
{}

/// In every run from the beginning, two clients of different numbers have different keys.
pub fn keys_differ()
    ensures { (entries : List Entry) (a b : ℕ) (c d : Client) → a ≢ b → at_number (run entries new_grand).clients a ≡ Some c
        → at_number (run entries new_grand).clients b ≡ Some d → same_key c.key d.key ≡ false }
{}

/// The history of the hub only grows: that of a world begins with that of each earlier world of its run.
pub fn history_grows()
    ensures event { (entry : Entry) (w : Grand) → BeginsWith (history_of (after entry w)) (history_of w) }
    ensures run { (entries : List Entry) (w : Grand) → BeginsWith (history_of (run entries w)) (history_of w) }
{}

/// The server's end of a link that is over stays over, and what it wrote stays as it is.
pub fn over_stays()
    ensures event { (entry : Entry) (w : Grand) (n : ℕ) (end : ServerEnd) → server_end n w ≡ Some end → end.is_over ≡ true
        → server_end n (after entry w) ≡ Some end }
    ensures run { (entries : List Entry) (w : Grand) (n : ℕ) (end : ServerEnd) → server_end n w ≡ Some end → end.is_over ≡ true
        → server_end n (run entries w) ≡ Some end }
{}
