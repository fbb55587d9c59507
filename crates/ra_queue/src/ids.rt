//! The ids of messages: each is one more than the one before.
ghost use Rattle.std.specs.Prelude.{◌≡◌, ◌+◌, ◌<◌, ◌↔◌, IsNone, IfSome, IfNone};
ghost use Rattle.ra_model.specs.Frames.{last_id};

use std::marker::Model;

/// Gives ids that go on from the last one. It is seen as the last id given.
#[derive(Debug, Drop)]
pub struct Ids {
    last: u64,
}

impl Model for Ids {
    ghost use Rattle.std.specs.Prelude.{ℕ};

    ghost Value = { ℕ };

    ghost view = { λ ids. ids.last };
}

impl Ids {
    /// The ids behind this one.
    pub fn after(last: u64) -> Ids
        ensures { result ≡ last }
    {
        Ids { last }
    }

    /// The next id, or none where 18,446,744,073,709,551,615 was given.
    pub fn take(&mut self) -> Option<u64>
        ensures spent { IsNone result ↔ (self.old ≡ last_id) }
        ensures next { IfSome result (λ id. (id ≡ self.old + 1) × (self.new ≡ id)) }
        ensures none { IfNone result (self.new ≡ self.old) }
    {
        let id = self.last.checked_add(1)?;
        self.last = id;
        Some(id)
    }
}
