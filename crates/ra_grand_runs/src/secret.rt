//! The connection token of a grand world.
ghost use Rattle.std.specs.Prelude.{◌≡◌, IfOk};
ghost use Rattle.ra_grand_runs.specs.SetUps.{secret};

use ra_base::{Message, NoMemory};
use std::alloc::Global;

/// The connection token, which the server signs with too.
const SECRET: &[u8] = b"s3";

/// The connection token again.
pub fn copy_secret(alloc: Global) -> Result<Message, NoMemory>
    ensures { IfOk result (λ message. message ≡ secret) }
{
    Message::copy(alloc, SECRET)
}
