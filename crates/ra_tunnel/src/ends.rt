//! The sides of a tunnel, and why what passes between them ends.

/// A side of a tunnel.
#[derive(Clone, Copy, Debug, PartialEq, Eq)]
pub enum TunnelSide {
    Client,
    Target,
}

/// Why nothing more passes between a client and a target.
#[derive(Clone, Copy, Debug, PartialEq, Eq)]
pub enum PipeEnd {
    /// Nothing more comes from that side.
    Closed { by: TunnelSide },
    /// The client's link failed.
    ClientFault,
    /// The target's link failed.
    TargetFault,
    /// Both together were asked as often as was allowed, and neither has ended.
    TurnsSpent,
}
