//! How far a served link is.
use ra_base::Seat;
use ra_opening::Opening;

/// What a served link waits for.
#[derive(Drop)]
pub(crate) enum Phase {
    /// The opening goes on.
    Opening { opening: Opening },
    /// The link has a session.
    Seated { seat: Seat },
    /// Nothing. It has ended, and its seat is not spent.
    Ended { seat: Seat },
    /// Nothing.
    Over,
}
