//! Reading a text line by line, in any grammar of lines.
ghost use Rattle.std.specs.Prelude.{◌≡◌, ◌==◌, map, position, IfOk, IsUtf8};
ghost use Rattle.std.specs.List.{list_all, before_first, after_first, AllByRecursion};
ghost use Rattle.ra_script.specs.Faults.{LineGives};
ghost use Rattle.ra_script.specs.Lines.{is_text, words_in, line_by, numbered, script_by, Gives};

use crate::fault::LineFault;
use crate::line::{ScriptFault, What};
use std::alloc::{AllocError, Global};

/// A line of a grammar: what its words say.
pub trait ReadWords: Drop {
    ghost use Rattle.std.specs.Prelude.{ℕ, Bool, List, Result};
    ghost use Rattle.ra_script.specs.declared.line.What.{What};

    // What words say, where the first argument tells whether they are those of the first line.
    ghost says: { Bool → List (List ℕ) → Result Self What };

    fn read_words(alloc: Global, first: bool, words: &[&[u8]]) -> Result<Self, LineFault>
        requires { AllByRecursion IsUtf8 (map (λ w. w.now) words.now) }
        ensures { LineGives result (says first (map (λ w. w.now) words.now)) };
}

/// The words of a line, of which two have one space between.
fn words_of(alloc: Global, line: &[u8]) -> Result<Vec<&[u8]>, AllocError>
    ensures { IfOk result (λ words. map (λ w. w.now) words.items ≡ words_in line.now) }
{
    line.split(|c| *c == b' ').collect(alloc)
}

/// Every byte is between the space and the tilde.
fn is_text(line: &[u8]) -> bool
    ensures { result ≡ list_all is_text line.now }
{
    line.iter().all(|c| *c >= b' ' && *c <= b'~')
}

/// What a line says, where `first` tells whether it is the first one.
#[tactic(auto, unfolding(crate::specs::Lines::line_by))]
pub fn read_line<L: ReadWords>(alloc: Global, first: bool, line: &[u8]) -> Result<L, LineFault>
    ensures { LineGives result (line_by (L.says first) line.now) }
{
    if !is_text(line) {
        return Err(What::NotText.into());
    }
    let words = words_of(alloc, line)?;
    L::read_words(alloc, first, words.as_slice())
}

/// The same, with the line's number where it has no reading.
fn read_numbered<L: ReadWords>(alloc: Global, number: u64, line: &[u8]) -> Result<L, ScriptFault>
    ensures { Gives (λ line. line) result (numbered number (line_by (L.says (number == 1)) line.now)) }
{
    match read_line::<L>(alloc, number == 1, line) {
        Ok(line) => Ok(line),
        Err(LineFault::Wrong { what }) => Err(ScriptFault::At { line: number, what }),
        Err(LineFault::NoMemory) => Err(ScriptFault::NoMemory),
    }
}

/// Where the first newline stands.
fn newline(text: &[u8]) -> Option<usize>
    ensures { result ≡ position (λ c. c == 10) text.now }
{
    text.iter().position(|c| *c == b'\n')
}

/// The text before the first newline and the text after it, which is empty where there is none.
fn first_line(text: &[u8]) -> (&[u8], &[u8])
    ensures line { result.0.now ≡ before_first (λ c. c == 10) text.now }
    ensures rest { result.1.now ≡ after_first (λ c. c == 10) text.now }
{
    match newline(text) {
        Some(at) => (&text[..at], &text[at + 1..]),
        None => (text, &text[text.len()..]),
    }
}

/// The lines of a text, or its first fault.
pub fn read_lines<L: ReadWords>(alloc: Global, bytes: &[u8]) -> Result<Vec<L>, ScriptFault>
    ensures { Gives (λ lines. lines.items) result (script_by L.says bytes.now) }
{
    let mut lines = Vec::new(alloc);
    let mut rest = bytes;
    let mut number = 1;
    while !rest.is_empty() {
        let (line, after) = first_line(rest);
        lines.push(read_numbered::<L>(alloc, number, line)?)?;
        rest = after;
        number += 1;
    }
    Ok(lines)
}
