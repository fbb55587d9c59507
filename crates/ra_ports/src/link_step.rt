//! What a link in memory gives at its calls of `recv`, as steps.
ghost use Rattle.std.specs.Prelude.{◌↔◌, ◌<◌, ◌+◌, ◌^◌, IsTrue, length};
ghost use Rattle.ra_ports.specs.Giving.{Gives, GivesPiece};
ghost use Rattle.ra_ports.specs.LinkSteps.{IsStepPlace, IsFilled};

use crate::Failed;
use crate::link::Got;
use crate::mem_source::copy_front;
use ra_base::Message;

/// What a link in memory gives: bytes, by as many calls as it takes, or that nothing is there yet, or a fault, by one call.
#[derive(Drop)]
pub enum LinkStep {
    Piece { bytes: Message },
    Idle,
    Fault,
}

impl LinkStep {
    /// Whether the step gives something: a piece has bytes.
    pub fn is_filled(&self) -> bool
        ensures { IsTrue result ↔ IsFilled self.now }
    {
        match self {
            LinkStep::Piece { bytes } => !bytes.is_empty(),
            LinkStep::Idle | LinkStep::Fault => true,
        }
    }
}

/// What one call gives, and the place of what is given next: the number of steps that are done, and of bytes of the next one.
#[derive(Drop)]
pub(crate) struct Given {
    pub answer: Result<Got, Failed>,
    pub at: usize,
    pub from: usize,
}

/// What one call gives of a piece that is read up to a place.
fn give_piece(bytes: &[u8], at: usize, from: usize, into: &mut [u8]) -> Given
    requires room { 0 < length into.old }
    requires inside { from < length bytes.now }
    requires next { at + 1 < 2 ^ 64 }
    ensures { GivesPiece bytes.now at from result.answer result.at result.from into.new }
{
    let rest = &bytes[from..];
    let n = copy_front(rest, into);
    let answer = Ok(Got::Bytes { n });
    if n < rest.len() {
        Given {
            answer,
            at,
            from: from + n,
        }
    } else {
        Given {
            answer,
            at: at + 1,
            from: 0,
        }
    }
}

/// What one call gives of the steps from a place on.
pub(crate) fn give(steps: &[LinkStep], at: usize, from: usize, into: &mut [u8]) -> Given
    requires room { 0 < length into.old }
    requires place { IsStepPlace steps.now at from }
    ensures { Gives steps.now at from result.answer result.at result.from into.new }
{
    let Some(step) = steps.get(at) else {
        return Given {
            answer: Ok(Got::End),
            at,
            from,
        };
    };
    match step {
        LinkStep::Piece { bytes } => give_piece(bytes.as_slice(), at, from, into),
        LinkStep::Idle => Given {
            answer: Ok(Got::NotYet),
            at: at + 1,
            from: 0,
        },
        LinkStep::Fault => Given {
            answer: Err(Failed),
            at: at + 1,
            from: 0,
        },
    }
}
