//! The dialer: what it keeps.
use crate::client::Client;
use crate::outgoing::Outgoing;
use crate::stage::Stage;
use ra_base::Moment;
use ra_session::Session;
use std::marker::Model;

/// The end that dials. It is seen as what it keeps in memory.
#[derive(Drop)]
pub struct Dialer {
    pub(crate) client: Client,
    pub(crate) stage: Stage,
    pub(crate) attempt: u64,
    pub(crate) lost: Moment,
    pub(crate) outgoing: Outgoing,
    pub(crate) session: Session,
}

impl Model for Dialer {
    ghost use Rattle.std.specs.Coded.{codes};
    ghost use Rattle.ra_values.specs.TreeCode.{coded_tree};
    ghost use Rattle.ra_dial.specs.DialerStates.{DialerState};

    ghost Value = { DialerState };

    ghost coded = { Prim.hlevel (codes, coded_tree) };

    ghost view = { λ d. record { settings = d.client; stage = d.stage; attempt = d.attempt; lost = d.lost; pending = d.outgoing.bytes; session = d.session } };
}
