//! Answers of sessions that a handle keeps, to be compared with the last states of these sessions.
ghost use Rattle.std.specs.Prelude.{◌≡◌, Decides};
ghost use Rattle.ra_shared.specs.Answers as spec;

use ra_base::{Cause, Key};
use ra_proto::Marks;
use ra_session::SessionFault;

/// What a session answered.
#[derive(Clone, Copy, Debug, PartialEq, Eq)]
pub enum Told {
    Ended {
        cause: Cause,
    },
    /// An `attach` of the link with this number.
    StaleAttach {
        current: u64,
        epoch: u64,
    },
    /// A turn of the link with this number, and whether an `attach` of it had been Ok.
    StaleTurn {
        current: u64,
        epoch: u64,
        attached: bool,
    },
    NoLink,
    IdsSpent,
}

/// An answer that was kept, and the key of its session.
#[derive(Drop)]
pub struct KeptAnswer {
    pub key: Key,
    pub told: Told,
}

/// The last state of a session: the number of its last link, its last ids, and why it has ended.
#[derive(Clone, Copy, Debug, PartialEq, Eq)]
pub struct LastState {
    pub epoch: u64,
    pub marks: Marks,
    pub cause: Option<Cause>,
}

/// What is kept of the fault of a `tell`.
pub(crate) fn told_of(fault: &SessionFault) -> Option<Told>
    ensures { result ≡ spec.told_of fault.now }
{
    match fault {
        SessionFault::Ended { cause } => Some(Told::Ended { cause: *cause }),
        SessionFault::NoLink => Some(Told::NoLink),
        SessionFault::IdsSpent => Some(Told::IdsSpent),
        SessionFault::Stale { .. }
        | SessionFault::TooLong { .. }
        | SessionFault::BadIpc { .. }
        | SessionFault::TooLarge { .. }
        | SessionFault::NoSuchCall { .. }
        | SessionFault::WrongKind
        | SessionFault::NoMemory => None,
    }
}

/// What is kept of the fault of an `attach`.
pub(crate) fn told_of_attach(fault: &SessionFault, epoch: u64) -> Option<Told>
    ensures { result ≡ spec.told_of_attach epoch fault.now }
{
    match fault {
        SessionFault::Stale { current } => Some(Told::StaleAttach {
            current: *current,
            epoch,
        }),
        SessionFault::Ended { .. }
        | SessionFault::NoLink
        | SessionFault::IdsSpent
        | SessionFault::TooLong { .. }
        | SessionFault::BadIpc { .. }
        | SessionFault::TooLarge { .. }
        | SessionFault::NoSuchCall { .. }
        | SessionFault::WrongKind
        | SessionFault::NoMemory => told_of(fault),
    }
}

/// What is kept of the fault of a turn.
pub(crate) fn told_of_turn(fault: &SessionFault, epoch: u64, attached: bool) -> Option<Told>
    ensures { result ≡ spec.told_of_turn epoch attached fault.now }
{
    match fault {
        SessionFault::Stale { current } => Some(Told::StaleTurn {
            current: *current,
            epoch,
            attached,
        }),
        SessionFault::Ended { .. }
        | SessionFault::NoLink
        | SessionFault::IdsSpent
        | SessionFault::TooLong { .. }
        | SessionFault::BadIpc { .. }
        | SessionFault::TooLarge { .. }
        | SessionFault::NoSuchCall { .. }
        | SessionFault::WrongKind
        | SessionFault::NoMemory => told_of(fault),
    }
}

/// Whether a session's last state bears an answer out.
pub fn is_borne_out(last: LastState, told: Told) -> bool
    ensures { Decides result (spec.Bears last told) }
{
    match told {
        Told::Ended { cause } => last.cause == Some(cause),
        Told::StaleAttach { current, epoch } => current <= last.epoch && epoch <= last.epoch,
        Told::StaleTurn {
            current,
            epoch,
            attached,
        } => current <= last.epoch && (!attached || epoch < last.epoch),
        Told::NoLink => false,
        Told::IdsSpent => u64::MAX - last.marks.sent < 1 << 31,
    }
}
