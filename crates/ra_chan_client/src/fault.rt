//! Why calls of a channel client are refused.
ghost use Rattle.std.specs.Prelude.{◌≡◌, Some};
ghost use Rattle.ra_chan_client.specs.FaultTexts.{fault_text};
ghost use Rattle.ra_chan_client.specs.declared.fault.ClientFault.TheVariants as faults;

use ra_values::NoMemory;
use std::alloc::{AllocError, AllocFailed};
use std::error::Error;
use std::fmt;

/// Why a call of a channel client is refused.
#[derive(Clone, Copy, Debug, PartialEq, Eq)]
pub enum ClientFault {
    /// Id 2,147,483,647 was given, and no id follows it.
    IdsSpent,
    /// The id is none of an unsettled call (cancelling), of a living listener (disposing).
    NoSuchCall { id: i32 },
    NoMemory,
}

impl fmt::Display for ClientFault {
    ghost output = { λ fault. Some (fault_text fault) };

    fn fmt<W: fmt::Write>(&self, f: &mut fmt::Formatter<W>) -> fmt::Result {
        match self {
            ClientFault::IdsSpent => f.write_str("the last id was given"),
            ClientFault::NoSuchCall { .. } => f.write_str("no open call or listener has this id"),
            ClientFault::NoMemory => f.write_str("want of memory"),
        }
    }
}

impl Error for ClientFault {}

impl From<NoMemory> for ClientFault {
    ghost from_gives = { λ _ fault. fault ≡ faults.NoMemory };

    fn from(_: NoMemory) -> Self {
        ClientFault::NoMemory
    }
}

impl From<AllocError> for ClientFault {
    ghost from_gives = { λ _ fault. fault ≡ faults.NoMemory };

    fn from(_: AllocError) -> Self {
        ClientFault::NoMemory
    }
}

impl<T: Drop> From<AllocFailed<T>> for ClientFault {
    ghost from_gives = { λ _ fault. fault ≡ faults.NoMemory };

    fn from(_: AllocFailed<T>) -> Self {
        ClientFault::NoMemory
    }
}
