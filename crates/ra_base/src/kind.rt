//! What a session is for.
ghost use Rattle.std.specs.Prelude.{◌≡◌, nat_eq};
ghost use Rattle.std.specs.Ordering.{nat_cmp, on, as_partial_cmp};
ghost use Rattle.std.specs.Cmp.Rules.{comparing};
ghost use Rattle.std.specs.Cmp.{partial_order_from_own_ties};
ghost use Rattle.std.proofs.Common.{rules};
ghost use Rattle.ra_base.specs.Kinds.{rank};

use std::cmp::Ordering;

/// What a session is for. Kinds are ordered as they stand here.
#[derive(Clone, Copy, Debug)]
pub enum Kind {
    /// Calls and events of the editor.
    Management,
    /// Messages of an extension host.
    ExtensionHost,
    /// Bytes to a port.
    Tunnel,
}

impl Kind {
    /// The place of the kind among the kinds.
    fn rank(self) -> u8
        ensures { result ≡ rank self }
    {
        match self {
            Kind::Management => 0,
            Kind::ExtensionHost => 1,
            Kind::Tunnel => 2,
        }
    }
}

impl PartialEq for Kind {
    ghost eq = { on rank nat_eq };

    ghost laws = { Prim.search (comparing, rules) };

    fn eq(&self, other: &Kind) -> bool {
        self.rank() == other.rank()
    }
}

impl Eq for Kind {
    ghost laws = { Prim.search (comparing, rules) };
}

impl PartialOrd for Kind {
    ghost partial_cmp = { as_partial_cmp (on rank nat_cmp) };

    ghost laws = { partial_order_from_own_ties (Prim.search (comparing, rules)) (Prim.search (comparing, rules)) };

    fn partial_cmp(&self, other: &Kind) -> Option<Ordering> {
        Some(self.cmp(other))
    }
}

impl Ord for Kind {
    ghost cmp = { on rank nat_cmp };

    ghost total = { Prim.search (comparing, rules) };

    ghost matches_partial_cmp = { Prim.search (comparing, rules) };

    ghost matches_eq = { Prim.search (comparing, rules) };

    fn cmp(&self, other: &Kind) -> Ordering {
        self.rank().cmp(&other.rank())
    }
}
