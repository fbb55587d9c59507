//! The lines of a script, and what may be wrong with one.
ghost use Rattle.std.specs.Prelude.{◌≡◌};
ghost use Rattle.ra_script.specs.Causes.{cause_name};
ghost use Rattle.ra_script.specs.declared.line.ScriptFault.TheVariants.{NoMemory};

use ra_base::{Event, NoMemory, Side};
use std::alloc::{AllocError, AllocFailed};

/// A line of a script.
#[derive(Drop)]
pub enum Line {
    /// The number after which both endpoints count their messages. It stands in the first line alone, and is 0 without it.
    Base { base: u64 },
    /// One event.
    Do { event: Event },
    /// Takes of this side, until there is nothing to take.
    Drain { side: Side },
}

/// The first cause, in this order, for which a line has no reading.
#[derive(Clone, Copy, Debug, PartialEq, Eq)]
pub enum What {
    /// A byte outside 0x20 to 0x7E.
    NotText,
    /// The first word is no word of the grammar, or a word is no side, or no kind of a client.
    UnknownWord,
    /// Another number of words.
    WrongCount,
    /// A number is no decimal without leading zeros, or too large.
    BadNumber,
    /// Bytes that are no hexadecimal digits, or an odd number of them; a text that is not UTF-8; a word that is no token.
    BadBytes,
}

impl What {
    /// The variant's name.
    pub fn name(self) -> &'static str
        ensures { result.now ≡ cause_name self }
    {
        match self {
            What::NotText => "NotText",
            What::UnknownWord => "UnknownWord",
            What::WrongCount => "WrongCount",
            What::BadNumber => "BadNumber",
            What::BadBytes => "BadBytes",
        }
    }
}

/// Why a script has no reading.
#[derive(Clone, Copy, Debug, PartialEq, Eq)]
pub enum ScriptFault {
    /// The first line without a reading, counted from 1.
    At { line: u64, what: What },
    NoMemory,
}

impl From<NoMemory> for ScriptFault {
    ghost from_gives = { λ _ e. e ≡ NoMemory };

    fn from(_: NoMemory) -> Self {
        ScriptFault::NoMemory
    }
}

impl From<AllocError> for ScriptFault {
    ghost from_gives = { λ _ e. e ≡ NoMemory };

    fn from(_: AllocError) -> Self {
        ScriptFault::NoMemory
    }
}

impl<T: Drop> From<AllocFailed<T>> for ScriptFault {
    ghost from_gives = { λ _ e. e ≡ NoMemory };

    fn from(_: AllocFailed<T>) -> Self {
        ScriptFault::NoMemory
    }
}
