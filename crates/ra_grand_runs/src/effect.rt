//! What an event answers.
ghost use Rattle.std.specs.Prelude.{◌≡◌};
ghost use Rattle.ra_dial.specs.View.{ActFits};

use ra_base::Message;
use ra_dial::DialAct;
use ra_hub::Swept;
use ra_link_core::CoreEnd;
use std::marker::Model;

/// What a dialer did. Each value in it can be written.
#[derive(Drop)]
pub struct WritableAct {
    act: DialAct,
}

impl Model for WritableAct {
    ghost use Rattle.std.specs.Coded.{codes};
    ghost use Rattle.ra_dial.specs.contracts.values.DialAct as dial_act;
    ghost use Rattle.ra_dial.specs.declared.values.DialAct.{DialAct};
    ghost use Rattle.ra_dial.specs.View.{ActFits};

    ghost Value = { DialAct };

    ghost coded = { Prim.hlevel (codes, dial_act.the_row.coded) };

    ghost view = { λ a. a.act };

    ghost invariant = { λ a. ActFits a.act };
}

impl WritableAct {
    /// This act. It needs values that fit.
    pub fn new(act: DialAct) -> WritableAct
        requires fits { ActFits act }
        ensures { result ≡ act }
    {
        WritableAct { act }
    }

    /// The act.
    pub fn act(&self) -> &DialAct
        ensures act { result.now ≡ self.now }
        ensures fits { ActFits self.now }
    {
        &self.act
    }
}

/// What an event answers.
#[derive(Drop)]
pub enum GrandEffect {
    /// It is done, and has nothing to tell.
    Done,
    /// A client or a link was made, which has that number.
    Made {
        number: u64,
    },
    /// What the client's dialer does.
    Act {
        act: WritableAct,
    },
    /// These bytes were taken from a link. Where the server's end of the link ended, it tells why.
    Moved {
        bytes: Message,
        end: Option<CoreEnd>,
    },
    /// What a sweep did.
    Swept {
        swept: Swept,
    },
    /// The call or the listener has that id.
    Issued {
        id: i32,
    },
    /// The call was cancelled.
    Cancelled,
}
