//! The laws.
ghost use Rattle.std.specs.Prelude.{◌≡◌, List, Some};
ghost use Rattle.std.specs.List.{AllByRecursion};
ghost use Rattle.ra_base.specs.declared.key.Key.{Key};
ghost use Rattle.ra_session.specs.Sessions.{Session};
ghost use Rattle.ra_script.specs.declared.grand_line.GrandEvent.{GrandEvent};
ghost use Rattle.ra_grand_runs.specs.Marks.{Entry};
ghost use Rattle.ra_grand.specs.GrandEvents.{IsGrandEvent, Ran};
ghost use Rattle.ra_grand.specs.declared.world.GrandWorld.{GrandWorld};
ghost use Rattle.ra_grand_runs.specs.Grands.{new_grand};
ghost use Rattle.ra_grand_runs.specs.GrandRuns.{run};
ghost use Rattle.ra_run_laws.specs.SaidPackets.{without_initialize, packets_over};
ghost use Rattle.ra_run_laws.specs.Runs.{IsRun};
ghost use Rattle.ra_run_laws.specs.Rising.{HubRises, ClientsRise};

/// What `run_grand` answers is a run of which the laws speak.
pub fn accepted()
    ensures { (events : List GrandEvent) (world : GrandWorld) (ran : Ran events world) → AllByRecursion IsGrandEvent events
        → IsRun ran.entries }
{}

/// Nothing is taken back in a run: what was said and heard stays and only grows, and sent, received and acknowledged never fall. A client
/// and a session of the server that are there stay there.
pub fn rising()
    ensures clients { (entries later : List Entry)
        → ClientsRise (run entries new_grand) (run later (run entries new_grand)) }
    ensures sessions { (entries later : List Entry)
        → HubRises (run entries new_grand).hub (run later (run entries new_grand)).hub }
{}

/// In every run, whatever its marks, the packets that a session of the server has said, but for Initialize, are those of the tools' answers
/// that it was told, each behind the events that it fired for the listeners of that moment, and the answers to calls that waited too long
/// for their channel, in order.
pub fn answers()
    ensures { (entries : List Entry) (key : Key) (s : Session) → (run entries new_grand).hub.session key ≡ Some s
        → without_initialize s.packets ≡ packets_over key entries new_grand }
{}
