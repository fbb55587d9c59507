//! A run of a world from the beginning.
ghost use Rattle.std.specs.Prelude.{◌≡◌, true, All, List, ◌++◌, IfOk, IfErr, OnOk};
ghost use Rattle.ra_base.specs.declared.event.Side.{Side};
ghost use Rattle.ra_base.specs.declared.event.Event.{Event};
ghost use Rattle.ra_model.specs.Worlds.{new_world, peer};
ghost use Rattle.ra_model.specs.Events.{run, is_accepted};
ghost use Rattle.ra_world.specs.PairedWorlds.{IsPaired, KeepsAllOf};
ghost use Rattle.ra_world.specs.Runs.{IsRefusedAt};
ghost use Rattle.ra_world.specs.WorldStates.{StandsForWorld, IsEvent, peer_of};

use crate::world::World;
use ra_base::Event;
use ra_model::EventFault;
use std::alloc::Global;

/// A run that ended early: the place of the event that was refused, from 0, and why.
#[derive(Clone, Copy, Debug, PartialEq, Eq)]
pub struct RunFault {
    pub at: usize,
    pub fault: EventFault,
}

/// A run from two endpoints and no link, in which no event is refused. Both directions of the session start from 0.
pub fn run_world(alloc: Global, events: &[Event]) -> Result<World, RunFault>
    requires { All IsEvent events.now }
    ensures stands { IfOk result (λ world. StandsForWorld world (run events.now (new_world 0))) }
    ensures accepted { OnOk result (is_accepted events.now (new_world 0) ≡ true) }
    ensures refused { IfErr result (λ refused. IsRefusedAt refused.at refused.fault events.now (new_world 0)) }
    // what was heard is the beginning of what the other side said, and so on
    ensures pair { IfOk result (λ world. IsPaired 0 world (run events.now (new_world 0))) }
    // nothing is taken back since any earlier moment of the run
    ensures rising { IfOk result (λ world. (front rest : List Event) → front ++ rest ≡ events.now → (side : Side)
        → KeepsAllOf (peer side (run front (new_world 0))) (peer_of side world)) }
{
    run_world_from(alloc, 0, events)
}

/// A run from two endpoints and no link, in which no event is refused. Both directions of the session start from this count.
pub fn run_world_from(alloc: Global, base: u64, events: &[Event]) -> Result<World, RunFault>
    requires { All IsEvent events.now }
    ensures stands { IfOk result (λ world. StandsForWorld world (run events.now (new_world base))) }
    ensures accepted { OnOk result (is_accepted events.now (new_world base) ≡ true) }
    ensures refused { IfErr result (λ refused. IsRefusedAt refused.at refused.fault events.now (new_world base)) }
    // what was heard is the beginning of what the other side said, and so on
    ensures pair { IfOk result (λ world. IsPaired base world (run events.now (new_world base))) }
    // nothing is taken back since any earlier moment of the run
    ensures rising { IfOk result (λ world. (front rest : List Event) → front ++ rest ≡ events.now → (side : Side)
        → KeepsAllOf (peer side (run front (new_world base))) (peer_of side world)) }
{
    let Ok(mut world) = World::from_base(alloc, base) else {
        unreachable!();
    };
    for (at, event) in events.iter().enumerate() {
        if let Err(fault) = world.apply(event) {
            return Err(RunFault { at, fault });
        }
    }
    Ok(world)
}
