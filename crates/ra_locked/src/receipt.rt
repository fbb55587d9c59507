//! Receipts of the entries that calls added.
ghost use Rattle.std.specs.Prelude.{◌≡◌, ◌+◌, length, slice_get, Some};

use ra_registry::{Past, Registry};

/// An entry of the history that a call added, and its place there, from 0.
#[derive(Drop)]
pub struct Receipt {
    pub place: u64,
    pub past: Past,
}

impl Receipt {
    /// The same receipt again. It takes no memory.
    pub fn same(&self) -> Receipt
        ensures { result ≡ self.now }
    {
        Receipt {
            place: self.place,
            past: self.past.same(),
        }
    }
}

/// The receipt of the last entry.
pub(crate) fn last_receipt(registry: &Registry, place: usize) -> Receipt
    requires { length registry.now.history ≡ place + 1 }
    ensures place { result.place ≡ place }
    ensures past { slice_get registry.now.history place ≡ Some result.past }
{
    Receipt {
        place: place as u64,
        past: registry.history()[place].same(),
    }
}
