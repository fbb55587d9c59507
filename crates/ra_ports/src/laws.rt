//! What is sent on a link, and what is taken from it, adds up over calls. Each function has an empty body: its clauses are what is
//! proved.
ghost use Rattle.std.specs.Prelude.{ℕ, List, [], ◌++◌, Option};
ghost use Rattle.ra_ports.specs.Links.{Sends, SendsFront, Takes};

/// One text is sent after another.
pub fn sending()
    ensures nothing { (a : Option (List ℕ)) → Sends a a [] }
    ensures both { (a b c : Option (List ℕ)) (x y : List ℕ) → Sends a b x → Sends b c y → Sends a c (x ++ y) }
    ensures front { (a b c : Option (List ℕ)) (x y : List ℕ) → Sends a b x → SendsFront b c y
        → SendsFront a c (x ++ y) }
{}

/// One piece is taken after another.
pub fn taking()
    ensures nothing { (a : Option (List ℕ)) → Takes a a [] }
    ensures both { (a b c : Option (List ℕ)) (x y : List ℕ) → Takes a b x → Takes b c y → Takes a c (x ++ y) }
{}
