//! Why calls of an endpoint and events of a world are refused. Want of memory comes last among the causes.
ghost use Rattle.std.specs.Prelude.{◌≡◌};

use ra_base::NoMemory;
use std::alloc::AllocError;

/// Why a call of an endpoint is refused. It comes with the first cause that applies, in the order of the call's entry.
#[derive(Clone, Copy, Debug, PartialEq, Eq)]
pub enum EndFault {
    /// The endpoint was left, or a Disconnect came.
    Ended,
    /// The epoch is not that of the present link (feeding), or no higher than it (beginning a link). It is told which one it is.
    Stale { current: u64 },
    /// The endpoint has no link.
    NoLink,
    /// No reconnection has begun that could end.
    NotJoining,
    /// The body has this many bytes, more than the 268,435,456 of a frame.
    TooLarge { len: u64 },
    /// Id 18,446,744,073,709,551,615 was given, and no id follows it.
    IdsSpent,
    /// The header of the next frame states this many bytes of body, more than the 268,435,456 of a frame.
    TooLong { stated: u32 },
    /// Want of memory. The endpoint is as it was.
    NoMemory,
}

/// Why an event of a world is refused. It comes with the first cause that applies, in this order, and changes nothing.
#[derive(Clone, Copy, Debug, PartialEq, Eq)]
pub enum EventFault {
    /// No link has this number.
    NoSuchLink { link: u64 },
    /// Exactly so many bytes were asked for, and fewer are there.
    TooMany { asked: u64, there: u64 },
    /// The endpoint's own call refuses.
    End { fault: EndFault },
    /// Want of memory.
    NoMemory,
}

impl From<AllocError> for EndFault {
    ghost use Rattle.ra_model.specs.declared.fault.EndFault.TheVariants.{NoMemory as WantOfMemory};

    ghost from_gives = { λ _ fault. fault ≡ WantOfMemory };

    fn from(_fault: AllocError) -> EndFault {
        EndFault::NoMemory
    }
}

impl From<NoMemory> for EndFault {
    ghost use Rattle.ra_model.specs.declared.fault.EndFault.TheVariants.{NoMemory as WantOfMemory};

    ghost from_gives = { λ _ fault. fault ≡ WantOfMemory };

    fn from(_fault: NoMemory) -> EndFault {
        EndFault::NoMemory
    }
}

impl From<AllocError> for EventFault {
    ghost use Rattle.ra_model.specs.declared.fault.EventFault.TheVariants.{NoMemory as WantOfMemory};

    ghost from_gives = { λ _ fault. fault ≡ WantOfMemory };

    fn from(_fault: AllocError) -> EventFault {
        EventFault::NoMemory
    }
}

impl From<NoMemory> for EventFault {
    ghost use Rattle.ra_model.specs.declared.fault.EventFault.TheVariants.{NoMemory as WantOfMemory};

    ghost from_gives = { λ _ fault. fault ≡ WantOfMemory };

    fn from(_fault: NoMemory) -> EventFault {
        EventFault::NoMemory
    }
}
