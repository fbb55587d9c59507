//! The laws.
ghost use Rattle.ra_grand_runs.specs.Marks.{Entry};
ghost use Rattle.ra_grand_runs.specs.Grands.{new_grand, Grand};
ghost use Rattle.ra_grand_runs.specs.GrandRuns.{after};
ghost use Rattle.ra_run_laws.specs.Runs.{IsUnbroken, HasKey};
ghost use Rattle.ra_link_laws.specs.Parts.{WorldKeeps};

/// What holds between each client and the session of its key holds where every run begins, and every event keeps it, unless memory runs out
/// at the server's end of a link: which texts their links have, and that the two are the ends of one view. A client that is made has a token
/// and is none of a tunnel.
pub fn keeps()
    ensures begins { WorldKeeps new_grand }
    ensures keeps { (entry : Entry) (w : Grand) → IsUnbroken entry.mark → HasKey entry.event → WorldKeeps w → WorldKeeps (after entry w) }
{}
