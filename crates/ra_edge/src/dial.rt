//! What opens links, and takes them back.
ghost use Rattle.std.specs.Prelude.{◌≡◌, ◌<◌, ◌+◌, ◌++◌, ◌∷◌, ℕ, List, [], Option, Some, IfOk, MatchResult};
ghost use Rattle.ra_ports.specs.Causes.{HasCause};
ghost use Rattle.ra_edge.specs.Lines.{TakesLine, IsFresh, after_line};

use ra_ports::{Failed, Link};

/// What opens links, and takes them back.
pub trait Dial {
    type Line: Link + Drop;

    // The links that are to come, where it tells.
    ghost lines: { Self → Option (List Self.Line) };

    // The links that were given back, in order, where it tells.
    ghost returned: { Self → Option (List Self.Line) };

    // How many links it has room to take back.
    ghost room: { Self → ℕ };

    // How often no link could be opened. A counter of 64 bits stays at its last value.
    ghost faults: { Self → ℕ };

    // How many of the links that were given back had failed. A counter of 64 bits stays at its last value.
    ghost line_faults: { Self → ℕ };

    /// A new link, and room to take one back. It fails only where the count of faults rose, and then takes none.
    fn connect(&mut self) -> Result<Self::Line, Failed>
        ensures line { TakesLine (lines self.old) (lines self.new) result }
        ensures fresh { (told : List Self.Line) → lines self.old ≡ Some told
            → IfOk result (λ line. IsFresh (Self.Line.sent line) (Self.Line.faults line) (Self.Line.incoming line)) }
        ensures keeps { returned self.new ≡ returned self.old }
        ensures room { MatchResult result
            (λ _. room self.new ≡ room self.old + 1)
            (λ _. room self.new ≡ room self.old) }
        ensures cause { HasCause (faults self.old) (faults self.new) result }
        ensures line_faults { line_faults self.new ≡ line_faults self.old };

    /// Takes back a link, for which it has room. It takes no memory.
    fn give_back(&mut self, line: Self::Line)
        requires { 0 < room self.old }
        ensures kept { (told : List Self.Line) → returned self.old ≡ Some told → returned self.new ≡ Some (told ++ line ∷ []) }
        ensures keeps { lines self.new ≡ lines self.old }
        ensures room { room self.new + 1 ≡ room self.old }
        ensures faults { faults self.new ≡ faults self.old }
        ensures line_faults { line_faults self.new ≡ after_line (Self.Line.faults line) (line_faults self.old) };
}
