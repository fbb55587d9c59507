//! A sweep of the server's side.
ghost use Rattle.std.specs.Prelude.{Ok};
ghost use Rattle.ra_script.specs.declared.grand_line.GrandEvent.TheVariants as events;
ghost use Rattle.ra_grand_runs.specs.Grands.{Grand};
ghost use Rattle.ra_grand.specs.GrandStates.{StandsForGrand};
ghost use Rattle.ra_grand_runs.specs.GrandViews.{Applies};

use crate::world::GrandWorld;
use ra_grand_runs::GrandEffect;
use ra_hub::{Hub, Swept};

impl GrandWorld {
    /// The sessions whose grace is over end, and the others see the moment.
    pub(crate) fn sweep(&mut self) -> GrandEffect
        ensures { (w : Grand) → StandsForGrand self.old w → Applies (Ok result) events.Sweep w (StandsForGrand self.new) }
    {
        let swept = self.server.sweep(self.moment);
        GrandEffect::Swept { swept }
    }
}
