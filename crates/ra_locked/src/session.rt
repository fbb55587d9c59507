//! What a shared registry needs of the sessions beside its rows.
use ra_base::{Cause, Kind, Moment, NoMemory};
use std::alloc::Global;
use std::sync::Wait;

/// A session that threads share, by a handle of it.
pub trait SessionHandle: Drop {
    /// A new session.
    fn begin(alloc: Global, kind: Kind, now: Moment) -> Result<Self, NoMemory>;

    /// Another handle of the same session.
    fn again(&self) -> Result<Self, NoMemory>;

    /// The session loses the link of this epoch.
    fn lose<R: Wait>(&self, rt: &R, epoch: u64);

    /// The session ends.
    fn end<R: Wait>(&self, rt: &R, cause: Cause);
}
