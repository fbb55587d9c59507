//! What gives links.
ghost use Rattle.std.specs.Prelude.{◌≡◌, ℕ, List, Option, MatchResult};
ghost use Rattle.ra_ports.specs.Causes.{HasCause, next_count};
ghost use Rattle.ra_edge.specs.Lines.{TakesLine};

use ra_ports::{Failed, Link};

/// What gives links, one after another.
pub trait Accept {
    type Line: Link + Drop + Send + 'static;

    // The links that are to come, where it tells.
    ghost lines: { Self → Option (List Self.Line) };

    // How often it gave none. A counter of 64 bits stays at its last value.
    ghost faults: { Self → ℕ };

    // How many links it gave. A counter of 64 bits stays at its last value.
    ghost given: { Self → ℕ };

    /// The next link. It fails only where the count of faults rose, and then takes none.
    fn next(&mut self) -> Result<Self::Line, Failed>
        ensures line { TakesLine (lines self.old) (lines self.new) result }
        ensures cause { HasCause (faults self.old) (faults self.new) result }
        ensures given { MatchResult result
            (λ _. given self.new ≡ next_count (given self.old))
            (λ _. given self.new ≡ given self.old) };
}
