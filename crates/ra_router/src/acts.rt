//! What one call makes the router tell.
use crate::ask::Told;

/// What is told at one call, in this order.
#[derive(Drop)]
pub enum Acts {
    Nothing,
    One { told: Told },
    Two { first: Told, second: Told },
}
