//! The lines that the program prints, each added to a text.
ghost use Rattle.std.specs.Prelude.{◌≡◌, ◌++◌, ℕ, OnOk, codes, decimal};
ghost use Rattle.ra_endpoint_commands.specs.Lines.{hex_of, line, up_line, control_line, ended_line, write_line, end_line, too_long_line, over_line};

use itoa::Buffer;
use ra_base::NoMemory;
use std::alloc::Global;

/// The line for words that are no command.
pub const USAGE: &[u8; 75] =
    b"usage: agent receive|replay|grand|soak START STEPS|serve|attach|audit PATH\n";

/// Adds bytes as lower-case hexadecimal digits, and none as a dash.
pub fn push_hex(alloc: Global, text: &mut Vec<u8>, bytes: &[u8]) -> Result<(), NoMemory>
    ensures { OnOk result (text.new.items ≡ text.old.items ++ hex_of bytes.now) }
{
    if bytes.is_empty() {
        text.push(b'-')?;
        return Ok(());
    }
    let digits = hex::encode(alloc, bytes)?;
    text.extend_from_slice(digits.as_bytes())?;
    Ok(())
}

pub fn push_decimal(text: &mut Vec<u8>, n: u64) -> Result<(), NoMemory>
    ensures { OnOk result (text.new.items ≡ text.old.items ++ decimal n) }
{
    let mut buffer = Buffer::new();
    text.extend_from_slice(buffer.format(n).as_bytes())?;
    Ok(())
}

/// Adds `up ID HEX`.
pub fn push_up(alloc: Global, text: &mut Vec<u8>, id: u64, body: &[u8]) -> Result<(), NoMemory>
    ensures { OnOk result (text.new.items ≡ text.old.items ++ up_line id body.now) }
{
    text.extend_from_slice(b"up ")?;
    push_decimal(text, id)?;
    text.push(b' ')?;
    push_hex(alloc, text, body)?;
    text.push(b'\n')?;
    Ok(())
}

/// Adds `control HEX`.
pub fn push_control(alloc: Global, text: &mut Vec<u8>, body: &[u8]) -> Result<(), NoMemory>
    ensures { OnOk result (text.new.items ≡ text.old.items ++ control_line body.now) }
{
    text.extend_from_slice(b"control ")?;
    push_hex(alloc, text, body)?;
    text.push(b'\n')?;
    Ok(())
}

/// Adds `ended`.
pub fn push_ended(text: &mut Vec<u8>) -> Result<(), NoMemory>
    ensures { OnOk result (text.new.items ≡ text.old.items ++ ended_line) }
{
    text.extend_from_slice(b"ended\n")?;
    Ok(())
}

/// Adds `write HEX`.
pub fn push_write(alloc: Global, text: &mut Vec<u8>, bytes: &[u8]) -> Result<(), NoMemory>
    ensures { OnOk result (text.new.items ≡ text.old.items ++ write_line bytes.now) }
{
    text.extend_from_slice(b"write ")?;
    push_hex(alloc, text, bytes)?;
    text.push(b'\n')?;
    Ok(())
}

/// Adds `end heard=N rest=M`.
pub fn push_end(text: &mut Vec<u8>, heard: u64, rest: u64) -> Result<(), NoMemory>
    ensures { OnOk result (text.new.items ≡ text.old.items ++ end_line heard rest) }
{
    text.extend_from_slice(b"end heard=")?;
    push_decimal(text, heard)?;
    text.extend_from_slice(b" rest=")?;
    push_decimal(text, rest)?;
    text.push(b'\n')?;
    Ok(())
}

/// Adds where a body of too many bytes begins.
fn push_place(text: &mut Vec<u8>, at: u64) -> Result<(), NoMemory>
    ensures { OnOk result (text.new.items ≡ text.old.items ++ line (codes " bytes at byte " ++ decimal at)) }
{
    text.extend_from_slice(b" bytes at byte ")?;
    push_decimal(text, at)?;
    text.push(b'\n')?;
    Ok(())
}

/// Adds the line for a header at this byte that states too long a body.
pub fn push_too_long(text: &mut Vec<u8>, stated: u32, at: u64) -> Result<(), NoMemory>
    ensures { OnOk result (text.new.items ≡ text.old.items ++ too_long_line stated at) }
{
    text.extend_from_slice(b"refused: body of ")?;
    push_decimal(text, stated as u64)?;
    push_place(text, at)?;
    Ok(())
}

/// Adds the line for an input of `receive` above its limit.
pub fn push_over(text: &mut Vec<u8>) -> Result<(), NoMemory>
    ensures { OnOk result (text.new.items ≡ text.old.items ++ over_line) }
{
    text.extend_from_slice(b"refused: input over 1073741824 bytes\n")?;
    Ok(())
}
