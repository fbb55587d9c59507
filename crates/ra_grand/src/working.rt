//! A job of the server's side.
ghost use Rattle.std.specs.Prelude.{◌<◌, Some};
ghost use Rattle.ra_script.specs.declared.grand_line.GrandEvent.TheVariants as events;
ghost use Rattle.ra_grand_runs.specs.Grands.{Grand};
ghost use Rattle.ra_grand.specs.GrandStates.{StandsForGrand};
ghost use Rattle.ra_grand_runs.specs.GrandViews.{Applies};

use crate::world::{GrandWorld, index_of, session_fault};
use ra_grand_runs::{GrandEffect, GrandFault};

impl GrandWorld {
    /// The waiting job with this number, from 1, is done by the tools, and told to its session.
    pub(crate) fn work(&mut self, job: u64) -> Result<GrandEffect, GrandFault>
        ensures { (w : Grand) → StandsForGrand self.old w → Applies result (events.Work job) w (StandsForGrand self.new) }
    {
        let there = self.server.job_count();
        match index_of(job, there) {
            None => Err(GrandFault::NoSuchJob {
                job,
                there: there as u64,
            }),
            Some(at) => match self.server.work(at, self.moment) {
                Ok(()) => Ok(GrandEffect::Done),
                Err(fault) => Err(session_fault(fault)),
            },
        }
    }
}
