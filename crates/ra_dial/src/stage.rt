//! How far a dialer is.
use crate::handshake::Shaking;
use crate::values::DialEnd;
use ra_base::Moment;

/// How far a dialer is.
#[derive(Drop)]
pub enum Stage {
    /// It waits until that moment before the next attempt.
    Resting { until: u64 },
    /// It asked for a link at that moment.
    Calling { since: Moment },
    /// It shakes hands on a link that it asked for at that moment.
    Shaking { since: Moment, shaking: Shaking },
    Attached,
    Over { end: DialEnd },
}
