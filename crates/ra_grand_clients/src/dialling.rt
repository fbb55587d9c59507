//! What a client does at an event of its dialer.
ghost use Rattle.std.specs.Prelude.{◌≡◌, OnOk, OnErr, IfOk};
ghost use Rattle.ra_dial.specs.Acts.{act_of};
ghost use Rattle.ra_dial.specs.View.{ActFits};
ghost use Rattle.ra_dial.specs.declared.values.DialEvent.TheVariants as events;
ghost use Rattle.ra_grand_clients.specs.ClientStates.{Holds, ReadsAnswer, StandsForClient, StaysClient, Dials};
ghost use Rattle.ra_grand_runs.specs.GrandClients as grand;

use crate::client::Client;
use ra_base::{Message, Moment, NoMemory};
use ra_dial::{DialAct, DialEvent};
use ra_upgrade::laws::one_answer;

impl Client {
    /// The dialer takes an event. Nothing waits to be written.
    pub(crate) fn step(&mut self, event: DialEvent, now: Moment) -> Result<DialAct, NoMemory>
        ensures fits { IfOk result ActFits }
        ensures acts { IfOk result (λ act. (c : grand.Client) → Holds self.old c → ReadsAnswer c → (grand.dials event now c).0 ≡ act_of act) }
        ensures becomes { IfOk result (λ act. (c : grand.Client) → Holds self.old c → ReadsAnswer c
            → StandsForClient self.new (grand.dialled event now c)) }
        ensures same { OnErr result (self.new ≡ self.old) }
        ensures links { self.new.links ≡ self.old.links }
    {
        one_answer();
        let before = self.entropy.count();
        match self.dialer.step(self.alloc, event, &mut self.entropy, now) {
            Ok(act) => Ok(act),
            Err(fault) => {
                self.entropy.go_back(before);
                Err(fault)
            }
        }
    }

    /// The dialer takes bytes that came. Nothing waits to be written.
    pub(crate) fn feed(&mut self, bytes: &Message, now: Moment) -> Result<(), NoMemory>
        ensures becomes { OnOk result ((c : grand.Client) → Holds self.old c → ReadsAnswer c → StandsForClient self.new (grand.dialled (events.Piece bytes.now) now c)) }
        ensures same { OnErr result (self.new ≡ self.old) }
        ensures links { self.new.links ≡ self.old.links }
    {
        let piece = Message::copy(self.alloc, bytes.as_slice())?;
        self.step(DialEvent::Piece { bytes: piece }, now)?;
        Ok(())
    }

    /// The dialer takes a link that is there. Nothing waits to be written.
    pub(crate) fn begin(&mut self, now: Moment) -> Result<(), NoMemory>
        ensures becomes { OnOk result ((c : grand.Client) → Holds self.old c → ReadsAnswer c → StandsForClient self.new (grand.dialled events.Linked now c)) }
        ensures same { OnErr result (self.new ≡ self.old) }
    {
        self.step(DialEvent::Linked, now)?;
        Ok(())
    }

    /// The dialer takes an event.
    pub(crate) fn dial(&mut self, event: DialEvent, now: Moment) -> Result<DialAct, NoMemory>
        ensures fits { IfOk result ActFits }
        ensures dials { IfOk result (λ act. Dials self.old self.new event now (act_of act)) }
        ensures stays { OnErr result (StaysClient self.old self.new) }
    {
        self.flush()?;
        self.step(event, now)
    }
}
