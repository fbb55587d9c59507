//! The laws.
ghost use Rattle.std.specs.Prelude.{List};
ghost use Rattle.ra_base.specs.declared.key.Key.{Key};
ghost use Rattle.ra_grand_runs.specs.Marks.{Entry};
ghost use Rattle.ra_grand_runs.specs.Grands.{new_grand};
ghost use Rattle.ra_grand_runs.specs.GrandRuns.{run};
ghost use Rattle.ra_run_laws.specs.Runs.{AreWhole, HaveKeys};
ghost use Rattle.ra_isolation_laws.specs.Isolation.{alone, view_of};
ghost use Rattle.ra_isolation_laws.specs.Parted.{SamePart};

/// Whatever others do, the part of a key is what the run of that part alone makes of what it sees.
pub fn isolation()
    ensures { (key : Key) (entries : List Entry) → AreWhole entries → HaveKeys entries
        → SamePart key (run entries new_grand) (alone key (view_of key entries new_grand) new_grand) }
{}
