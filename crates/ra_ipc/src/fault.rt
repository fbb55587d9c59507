//! Why bytes are no packet, and where. Places count in bytes from 0.
ghost use Rattle.std.specs.Prelude.{◌≡◌, Some};
ghost use Rattle.ra_ipc.specs.FaultTexts.{fault_text};
ghost use Rattle.ra_ipc.specs.declared.fault.PacketFault.TheVariants as faults;

use ra_values::{NoMemory, Wrong};
use std::error::Error;
use std::fmt;

/// Why bytes are no packet: the first cause that applies, in this order, but that a fault of the body value comes after
/// `BadHeader`.
#[derive(Clone, Copy, Debug, PartialEq, Eq)]
pub enum PacketFault {
    /// The header value, or else the body value, is wrong at this place.
    Value { at: usize, what: Wrong },
    /// The header is none of a packet. Its element of this index is the first that is missing, of the wrong kind, or one too
    /// many; 0 stands for a header that is no array or begins with no code.
    BadHeader { at: usize },
    /// The body is to be undefined, and is not.
    BadBody,
    /// Bytes follow the body, the first of them at this place.
    Trailing { at: usize },
    NoMemory,
}

impl fmt::Display for PacketFault {
    ghost output = { λ fault. Some (fault_text fault) };

    fn fmt<W: fmt::Write>(&self, f: &mut fmt::Formatter<W>) -> fmt::Result {
        match self {
            PacketFault::Value { at, what } => write!(f, "{} at byte {at}", what.text()),
            PacketFault::BadHeader { at } => write!(f, "wrong element {at} of the header"),
            PacketFault::BadBody => f.write_str("a body that is not undefined"),
            PacketFault::Trailing { at } => write!(f, "more bytes at byte {at}"),
            PacketFault::NoMemory => f.write_str("want of memory"),
        }
    }
}

impl Error for PacketFault {}

impl From<NoMemory> for PacketFault {
    ghost from_gives = { λ _ fault. fault ≡ faults.NoMemory };

    fn from(_: NoMemory) -> Self {
        PacketFault::NoMemory
    }
}
