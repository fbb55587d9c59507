//! Why calls of a channel server are refused.
ghost use Rattle.std.specs.Prelude.{◌≡◌, Some};
ghost use Rattle.ra_chan_server.specs.FaultTexts.{fault_text};
ghost use Rattle.ra_chan_server.specs.declared.fault.ServerFault.TheVariants as faults;

use ra_values::NoMemory;
use std::alloc::{AllocError, AllocFailed};
use std::error::Error;
use std::fmt;

/// Why a call of a channel server is refused.
#[derive(Clone, Copy, Debug, PartialEq, Eq)]
pub enum ServerFault {
    /// The id of a Promise or an EventListen is active.
    ActiveId { id: i32 },
    /// The id is none of a call that was handed out and not yet completed.
    NoSuchCall { id: i32 },
    NoMemory,
}

impl fmt::Display for ServerFault {
    ghost output = { λ fault. Some (fault_text fault) };

    fn fmt<W: fmt::Write>(&self, f: &mut fmt::Formatter<W>) -> fmt::Result {
        match self {
            ServerFault::ActiveId { .. } => f.write_str("the id is active"),
            ServerFault::NoSuchCall { .. } => f.write_str(
                "no call that was handed out has this id",
            ),
            ServerFault::NoMemory => f.write_str("want of memory"),
        }
    }
}

impl Error for ServerFault {}

impl From<NoMemory> for ServerFault {
    ghost from_gives = { λ _ fault. fault ≡ faults.NoMemory };

    fn from(_: NoMemory) -> Self {
        ServerFault::NoMemory
    }
}

impl From<AllocError> for ServerFault {
    ghost from_gives = { λ _ fault. fault ≡ faults.NoMemory };

    fn from(_: AllocError) -> Self {
        ServerFault::NoMemory
    }
}

impl<T: Drop> From<AllocFailed<T>> for ServerFault {
    ghost from_gives = { λ _ fault. fault ≡ faults.NoMemory };

    fn from(_: AllocFailed<T>) -> Self {
        ServerFault::NoMemory
    }
}
