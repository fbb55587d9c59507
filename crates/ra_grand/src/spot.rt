//! Where a link is in memory.

/// The places of the two ends of a link, each from 0: that of the server's end among all, that of its client, and that of the link among
/// the client's links.
#[derive(Clone, Copy)]
pub(crate) struct Spot {
    pub(crate) served: usize,
    pub(crate) client: usize,
    pub(crate) link: usize,
}
