//! A line that says one call of a tool.
ghost use Rattle.std.specs.Prelude.{◌≡◌, map, IsUtf8};
ghost use Rattle.std.specs.List.{AllByRecursion};
ghost use Rattle.ra_script.specs.CallLines.{call_words_at, call_line_at};
ghost use Rattle.ra_script.specs.Faults.{LineGives};

use crate::fault::LineFault;
use crate::grand_words::text;
use crate::line::What;
use crate::script::{ReadWords, read_line};
use crate::words::bytes;
use ra_values::{Bytes, Text};
use std::alloc::Global;

/// A call of a tool.
#[derive(Drop)]
pub struct CallLine {
    pub channel: Text,
    pub name: Text,
    pub arg: Bytes,
}

impl ReadWords for CallLine {
    ghost says = { λ first words. call_words_at words };

    #[tactic(auto, unfolding(crate::specs::CallLines::call_words_at))]
    fn read_words(alloc: Global, _first: bool, words: &[&[u8]]) -> Result<CallLine, LineFault> {
        match words {
            [c, n, h] => {
                let arg = bytes(alloc, h)?;
                let channel = text(alloc, c)?;
                let name = text(alloc, n)?;
                Ok(CallLine {
                    channel,
                    name,
                    arg: Bytes::from_vec(arg.into_vec()),
                })
            }
            _ => Err(What::WrongCount.into()),
        }
    }
}

/// Reads a line `CHANNEL NAME H`, without its newline: three words with one space between two of them, where an empty word is an empty text,
/// and H is hexadecimal digits, or `-` for no bytes. Any other line is wrong, as a line of a script would be.
#[tactic(auto, unfolding(crate::specs::CallLines::call_line_at))]
pub fn read_call_line(alloc: Global, line: &[u8]) -> Result<CallLine, LineFault>
    ensures { LineGives result (call_line_at line.now) }
{
    read_line::<CallLine>(alloc, false, line)
}
