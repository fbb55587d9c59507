//! What a request is answered under the lock.
use crate::receipt::Receipt;
use ra_base::{Reason, Seat};

/// What a request is answered, with the receipt of its entry.
#[derive(Drop)]
pub enum Answer<X> {
    /// It is admitted, and this is its session.
    Given {
        seat: Seat,
        session: X,
        receipt: Receipt,
    },
    /// The first reason against it. The request is entered.
    Refused {
        reason: Reason,
        receipt: Receipt,
    },
    /// The keeper failed. The registry has not changed.
    KeepFault,
    /// Nothing has changed.
    NoMemory,
}
