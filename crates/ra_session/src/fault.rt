//! How faults of the layers below become faults of a session.
ghost use Rattle.std.specs.Prelude.{◌≡◌};
ghost use Rattle.ra_session.specs.Faults.{fault_of, client_fault_of, bad_request, bad_reading};
ghost use Rattle.ra_session.specs.declared.values.SessionFault.TheVariants as faults;

use crate::values::{IpcFault, SessionFault};
use ra_base::Cause;
use ra_chan_client::ClientFault;
use ra_chan_server::ServerFault;
use ra_ipc::PacketFault;
use ra_model::EndFault;
use std::alloc::{AllocError, AllocFailed};

impl From<ra_base::NoMemory> for SessionFault {
    ghost from_gives = { λ _ fault. fault ≡ faults.NoMemory };

    fn from(_: ra_base::NoMemory) -> SessionFault {
        SessionFault::NoMemory
    }
}

impl From<ra_values::NoMemory> for SessionFault {
    ghost from_gives = { λ _ fault. fault ≡ faults.NoMemory };

    fn from(_: ra_values::NoMemory) -> SessionFault {
        SessionFault::NoMemory
    }
}

impl From<AllocError> for SessionFault {
    ghost from_gives = { λ _ fault. fault ≡ faults.NoMemory };

    fn from(_: AllocError) -> SessionFault {
        SessionFault::NoMemory
    }
}

impl From<EndFault> for SessionFault {
    ghost from_gives = { λ end fault. fault ≡ fault_of end };

    fn from(fault: EndFault) -> SessionFault {
        match fault {
            EndFault::Ended => SessionFault::Ended {
                cause: Cause::Disconnected,
            },
            EndFault::Stale { current } => SessionFault::Stale { current },
            EndFault::NoLink | EndFault::NotJoining => SessionFault::NoLink,
            EndFault::TooLarge { len } => SessionFault::TooLarge { len },
            EndFault::IdsSpent => SessionFault::IdsSpent,
            EndFault::TooLong { stated } => SessionFault::TooLong { stated },
            EndFault::NoMemory => SessionFault::NoMemory,
        }
    }
}

impl From<ClientFault> for SessionFault {
    ghost from_gives = { λ client fault. fault ≡ client_fault_of client };

    fn from(fault: ClientFault) -> SessionFault {
        match fault {
            ClientFault::IdsSpent => SessionFault::IdsSpent,
            ClientFault::NoSuchCall { id } => SessionFault::NoSuchCall { id },
            ClientFault::NoMemory => SessionFault::NoMemory,
        }
    }
}

impl<T: Drop> From<AllocFailed<T>> for SessionFault {
    ghost from_gives = { λ _ fault. fault ≡ faults.NoMemory };

    fn from(_: AllocFailed<T>) -> SessionFault {
        SessionFault::NoMemory
    }
}

/// What is wrong with a request that the server refuses; none where memory is wanting.
pub fn bad_request(fault: ServerFault) -> Option<IpcFault>
    ensures { result ≡ bad_request fault }
{
    match fault {
        ServerFault::ActiveId { id } => Some(IpcFault::ActiveId { id }),
        ServerFault::NoSuchCall { .. } | ServerFault::NoMemory => None,
    }
}

/// What is wrong with a message that was not read; none where memory is wanting.
pub fn bad_reading(fault: PacketFault) -> Option<IpcFault>
    ensures { result ≡ bad_reading fault }
{
    match fault {
        PacketFault::NoMemory => None,
        PacketFault::Value { .. }
        | PacketFault::BadHeader { .. }
        | PacketFault::BadBody
        | PacketFault::Trailing { .. } => Some(IpcFault::Packet { fault }),
    }
}
