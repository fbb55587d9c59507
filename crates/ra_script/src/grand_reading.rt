//! Reading a grand script.
ghost use Rattle.std.specs.Prelude.{◌≡◌, ◌<◌, ◌^◌, length, map, List, IfOk, IsUtf8};
ghost use Rattle.std.specs.List.{AllByRecursion};
ghost use Rattle.ra_script.specs.declared.grand_line.GrandLine.{GrandLine};
ghost use Rattle.ra_script.specs.Faults.{LineGives};
ghost use Rattle.ra_script.specs.Lines.{Gives};
ghost use Rattle.ra_script.specs.GrandReading.{grand_words_at, grand_script_at};
ghost use Rattle.ra_script.specs.GrandGrammar.{IsGrandScriptOf};
ghost use Rattle.ra_script.specs.GrandLines.{IsNoTunnel, IsMomentInRange, GrandEventFits, OfEvents};

use crate::fault::LineFault;
use crate::grand_keyword::find_grand_keyword;
use crate::grand_line::GrandLine;
use crate::grand_rows::read_grand_row;
use crate::line::{ScriptFault, What};
use crate::script::{ReadWords, read_lines};
use std::alloc::Global;

impl ReadWords for GrandLine {
    ghost says = { λ first. grand_words_at };

    fn read_words(alloc: Global, _first: bool, words: &[&[u8]]) -> Result<GrandLine, LineFault>
        requires { AllByRecursion IsUtf8 (map (λ w. w.now) words.now) }
        ensures { LineGives result (grand_words_at (map (λ w. w.now) words.now)) }
    {
        let [name, args @ ..] = words else {
            return Err(What::UnknownWord.into());
        };
        let Some(keyword) = find_grand_keyword(name) else {
            return Err(What::UnknownWord.into());
        };
        read_grand_row(alloc, keyword, args)
    }
}

/// The lines of a grand script, or the first line without a reading and its first cause. An empty text has no lines, and the
/// newline after the last line may be missing. A text of 2^32 bytes is too long to be read.
pub fn parse_grand(alloc: Global, bytes: &[u8]) -> Result<Vec<GrandLine>, ScriptFault>
    requires { length bytes.now < 2 ^ 32 }
    // What is read is a grand script of these lines.
    ensures found { IfOk result (λ lines. IsGrandScriptOf bytes.now lines.items) }
    // A grand script of lines is read as these, unless memory runs out.
    ensures only { (lines : List GrandLine) → IsGrandScriptOf bytes.now lines → Gives (λ read. read.items) result (Ok lines) }
    // Which fault it is.
    ensures exact { Gives (λ lines. lines.items) result (grand_script_at bytes.now) }
    // No client is one of a tunnel, moments are below 2^53, and what a call or a listener carries can be written.
    ensures kinds { IfOk result (λ lines. OfEvents IsNoTunnel lines.items) }
    ensures moments { IfOk result (λ lines. OfEvents IsMomentInRange lines.items) }
    ensures fit { IfOk result (λ lines. OfEvents GrandEventFits lines.items) }
{
    read_lines::<GrandLine>(alloc, bytes)
}
