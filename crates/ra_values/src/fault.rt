//! Why bytes are no value, and where.
ghost use Rattle.std.specs.Prelude.{◌≡◌, Some};
ghost use Rattle.ra_values.specs.FaultTexts.{wrong_text, fault_text};
ghost use Rattle.ra_values.specs.declared.fault.Stop.TheVariants as stops;

use crate::memory::NoMemory;
use std::alloc::{AllocError, AllocFailed};
use std::error::Error;
use std::fmt;

/// What is wrong at a place.
#[derive(Clone, Copy, Debug, PartialEq, Eq)]
pub enum Wrong {
    /// The input ends before the value does. The place is the input's length.
    Short,
    /// The tag byte there is above 6.
    BadTag,
    /// The byte there is the fifth of a number and above 15, or ends a longer number and is 0.
    BadNumber,
    /// The text whose first byte stands there is no UTF-8.
    BadText,
    /// The tag byte there stands at level 129.
    TooDeep,
}

impl Wrong {
    /// What is wrong, in words.
    pub fn text(self) -> &'static str
        ensures { result.now ≡ wrong_text self }
    {
        match self {
            Wrong::Short => "the bytes end before the value",
            Wrong::BadTag => "no tag",
            Wrong::BadNumber => "no number",
            Wrong::BadText => "no UTF-8",
            Wrong::TooDeep => "a value below the last level",
        }
    }
}

/// Why a value could not be read.
#[derive(Clone, Copy, Debug, PartialEq, Eq)]
pub enum ReadFault {
    /// The first wrong place, counted in bytes from 0.
    Bad { at: usize, what: Wrong },
    NoMemory,
}

impl fmt::Display for ReadFault {
    ghost output = { λ fault. Some (fault_text fault) };

    fn fmt<W: fmt::Write>(&self, f: &mut fmt::Formatter<W>) -> fmt::Result {
        match self {
            ReadFault::Bad { at, what } => write!(f, "{} at byte {at}", what.text()),
            ReadFault::NoMemory => f.write_str("want of memory"),
        }
    }
}

impl Error for ReadFault {}

/// Why reading stopped. Readers of parts count the place from the end, since they don't see what was read before.
#[derive(Debug, Drop)]
pub enum Stop {
    /// So many bytes are left from the wrong place on.
    Bad { left: usize, what: Wrong },
    NoMemory,
}

impl From<NoMemory> for Stop {
    ghost from_gives = { λ _ stop. stop ≡ stops.NoMemory };

    fn from(_: NoMemory) -> Stop {
        Stop::NoMemory
    }
}

impl From<AllocError> for Stop {
    ghost from_gives = { λ _ stop. stop ≡ stops.NoMemory };

    fn from(_: AllocError) -> Stop {
        Stop::NoMemory
    }
}

impl<T: Drop> From<AllocFailed<T>> for Stop {
    ghost from_gives = { λ _ stop. stop ≡ stops.NoMemory };

    fn from(_: AllocFailed<T>) -> Stop {
        Stop::NoMemory
    }
}
