//! Alarms that are due.
ghost use Rattle.std.specs.Prelude.{◌≡◌, OnOk, OnErr, IfOk, IfErr};
ghost use Rattle.ra_model.specs.EndpointStates.{StandsFor};
ghost use Rattle.ra_model.specs.Endpoints.{Endpoint as AbstractEndpoint};
ghost use Rattle.ra_model.specs.Calls.{tick, times_out};
ghost use Rattle.ra_proto.specs.Links.{SameLink};

use crate::endpoint::{Endpoint, later};
use crate::writing::{append_tick, told_after, waits};
use ra_base::Moment;
use ra_model::EndFault;
use ra_timer::alarms::{
    acknowledge_served, acks, fires, is_due, keep_alive_served, timeout_served,
};

/// What a tick answers.
#[derive(Clone, Copy, Debug, PartialEq, Eq)]
pub struct Ticked {
    /// The peer is silent: a timeout.
    pub timed_out: bool,
}

impl Endpoint {
    /// The alarms that are due are served: acknowledgement, timeout, keep-alive. Nothing is done where the link is not up.
    pub fn tick(&mut self, now: Moment) -> Result<Ticked, EndFault>
        ensures stands { OnOk result ((e : AbstractEndpoint) → StandsFor self.old e → StandsFor self.new (tick now e)) }
        ensures timeout { IfOk result (λ ticked. (e : AbstractEndpoint) → StandsFor self.old e → ticked.timed_out ≡ times_out now e) }
        ensures link { OnOk result (SameLink self.old self.new) }
        ensures memory { IfErr result (λ fault. fault ≡ EndFault.NoMemory) }
        ensures err { OnErr result (self.new ≡ self.old) }
    {
        let is_up = self.phase.is_up();
        if !is_up {
            return Ok(Ticked { timed_out: false });
        }
        let now = later(now, self.timing.latest);
        let owes = self.told < self.received;
        let is_waiting = waits(is_up, self.acknowledged, self.sent);
        let oldest = self.queue.oldest_written();
        let writes_ack = acks(owes, now, self.timing);
        let writes_keep_alive = is_due(self.timing.keep_alive, now);
        append_tick(
            &mut self.unwritten,
            writes_ack,
            writes_keep_alive,
            self.received,
        )?;
        let is_timeout = fires(is_waiting, oldest, now, self.timing);
        self.told = told_after(writes_ack, writes_keep_alive, self.received, self.told);
        self.timing.latest = now;
        self.timing = acknowledge_served(owes, now, self.timing);
        self.timing = timeout_served(is_waiting, oldest, now, self.timing);
        self.timing = keep_alive_served(now, self.timing);
        Ok(Ticked {
            timed_out: is_timeout,
        })
    }
}
