//! Reading a script.
ghost use Rattle.std.specs.Prelude.{◌≡◌, map, List, IfOk};
ghost use Rattle.ra_script.specs.declared.line.Line.{Line};
ghost use Rattle.ra_script.specs.Faults.{LineGives};
ghost use Rattle.ra_script.specs.Lines.{Gives};
ghost use Rattle.ra_script.specs.Reading.{words_at, script_at};
ghost use Rattle.ra_script.specs.Grammar.{IsScriptOf};

use crate::fault::LineFault;
use crate::keyword::{Keyword, find_keyword};
use crate::line::{Line, ScriptFault, What};
use crate::rows::read_row;
use crate::script::{ReadWords, read_lines};
use std::alloc::Global;

impl ReadWords for Line {
    ghost says = { words_at };

    fn read_words(alloc: Global, first: bool, words: &[&[u8]]) -> Result<Line, LineFault>
        ensures { LineGives result (words_at first (map (λ w. w.now) words.now)) }
    {
        let [name, args @ ..] = words else {
            return Err(What::UnknownWord.into());
        };
        let Some(keyword) = find_keyword(name) else {
            return Err(What::UnknownWord.into());
        };
        if keyword == Keyword::Base && !first {
            return Err(What::UnknownWord.into());
        }
        read_row(alloc, keyword, args)
    }
}

/// The lines of a script, or the first line without a reading and its first cause. An empty text has no lines, and the newline
/// after the last line may be missing.
pub fn parse(alloc: Global, bytes: &[u8]) -> Result<Vec<Line>, ScriptFault>
    // What is read is a script of these lines.
    ensures found { IfOk result (λ lines. IsScriptOf bytes.now lines.items) }
    // A script of lines is read as these, unless memory runs out.
    ensures only { (lines : List Line) → IsScriptOf bytes.now lines → Gives (λ read. read.items) result (Ok lines) }
    // Which fault it is.
    ensures exact { Gives (λ lines. lines.items) result (script_at bytes.now) }
{
    read_lines::<Line>(alloc, bytes)
}
