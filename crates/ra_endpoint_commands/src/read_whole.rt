//! Reading a whole input, up to a limit.
ghost use Rattle.std.specs.Prelude.{◌≡◌, ◌<◌, ◌^◌, length, Err, IfOk};
ghost use Rattle.ra_ports.specs.Causes.{Rose};
ghost use Rattle.ra_endpoint_commands.specs.WholeInput.{IsInput};

use crate::report::Fault;
use ra_ports::Source;
use std::alloc::Global;

/// How many bytes are read at once.
const PIECE: usize = 65_536;

/// What an input is.
#[derive(Drop)]
pub enum Input {
    /// All of it, which is within the limit.
    Whole { bytes: Vec<u8> },
    /// More bytes came than the limit.
    Over,
}

/// Reads an input by this buffer.
fn read_into<S: Source>(
    alloc: Global,
    source: &mut S,
    buffer: &mut [u8],
    limit: usize,
) -> Result<Input, Fault>
    requires room { 0 < length buffer.old }
    requires limit { limit < 2 ^ 32 }
    ensures input { IfOk result (λ input. IsInput limit input (S.left source.old) (S.left source.new)) }
    ensures read { result ≡ Err Fault.Read → Rose (S.faults source.old) (S.faults source.new) }
    ensures no_write { result ≡ Err Fault.Write → ⊥ }
{
    let mut bytes = Vec::new(alloc);
    'pieces: loop {
        let Ok(count) = source.read(buffer) else {
            return Err(Fault::Read);
        };
        if count == 0 {
            return Ok(Input::Whole { bytes });
        }
        if count > limit - bytes.len() {
            return Ok(Input::Over);
        }
        let Ok(()) = bytes.extend_from_slice(&buffer[..count]) else {
            return Err(Fault::Memory);
        };
    }
}

/// Reads an input to its end, or until more than `limit` bytes came.
pub fn read_whole<S: Source>(alloc: Global, source: &mut S, limit: usize) -> Result<Input, Fault>
    requires { limit < 2 ^ 32 }
    ensures input { IfOk result (λ input. IsInput limit input (S.left source.old) (S.left source.new)) }
    ensures read { result ≡ Err Fault.Read → Rose (S.faults source.old) (S.faults source.new) }
    ensures no_write { result ≡ Err Fault.Write → ⊥ }
{
    let Ok(mut buffer) = vec![in alloc; 0u8; PIECE] else {
        return Err(Fault::Memory);
    };
    read_into(alloc, source, &mut buffer, limit)
}
