//! Printing a line.
ghost use Rattle.std.specs.Prelude.{◌≡◌, ◌++◌, [], ◌∷◌, IfOk, OnOk, OnErr};
ghost use Rattle.std.specs.List.{join_with_byte};
ghost use Rattle.std.specs.Fmt.{decimal};
ghost use Rattle.ra_script.specs.Keywords.{keyword_text};
ghost use Rattle.ra_script.specs.Words.{side_text, count_text, bytes_text};
ghost use Rattle.ra_script.specs.Texts.{event_words, line_text};

use crate::keyword::Keyword;
use crate::line::Line;
use itoa::Buffer;
use ra_base::{Count, Event, NoMemory, Side};
use std::alloc::{AllocError, Global};

/// Adds a space and a word.
fn put_word(text: &mut Vec<u8>, word: &[u8]) -> Result<(), AllocError>
    ensures { OnOk result (text.new.items ≡ text.old.items ++ 32 ∷ word.now) }
{
    text.push(b' ')?;
    text.extend_from_slice(word)
}

fn put_side(text: &mut Vec<u8>, side: Side) -> Result<(), AllocError>
    ensures { OnOk result (text.new.items ≡ text.old.items ++ 32 ∷ side_text side) }
{
    match side {
        Side::A => put_word(text, b"A"),
        Side::B => put_word(text, b"B"),
    }
}

fn put_number(text: &mut Vec<u8>, n: u64) -> Result<(), AllocError>
    ensures { OnOk result (text.new.items ≡ text.old.items ++ 32 ∷ decimal n) }
{
    let mut buffer = Buffer::new();
    put_word(text, buffer.format(n).as_bytes())
}

fn put_count(text: &mut Vec<u8>, count: Count) -> Result<(), AllocError>
    ensures { OnOk result (text.new.items ≡ text.old.items ++ 32 ∷ count_text count) }
{
    match count {
        Count::All => put_word(text, b"*"),
        Count::Exact { n } => put_number(text, n),
        Count::Most { n } => {
            let mut buffer = Buffer::new();
            text.extend_from_slice(b" ~")?;
            text.extend_from_slice(buffer.format(n).as_bytes())
        }
    }
}

fn put_bytes(alloc: Global, text: &mut Vec<u8>, bytes: &[u8]) -> Result<(), AllocError>
    ensures { OnOk result (text.new.items ≡ text.old.items ++ 32 ∷ bytes_text bytes.now) }
{
    if bytes.is_empty() {
        return put_word(text, b"-");
    }
    let digits = hex::encode(alloc, bytes)?;
    put_word(text, digits.as_bytes())
}

fn keyword_alone(alloc: Global, keyword: Keyword) -> Result<Vec<u8>, AllocError>
    ensures { IfOk result (λ text. text.items ≡ keyword_text keyword) }
{
    Vec::from_slice(alloc, keyword.text().as_bytes())
}

fn with_number(alloc: Global, keyword: Keyword, n: u64) -> Result<Vec<u8>, AllocError>
    ensures { IfOk result (λ text. text.items ≡ join_with_byte 32 (keyword_text keyword ∷ decimal n ∷ [])) }
{
    let mut text = keyword_alone(alloc, keyword)?;
    put_number(&mut text, n)?;
    Ok(text)
}

fn with_side(alloc: Global, keyword: Keyword, side: Side) -> Result<Vec<u8>, AllocError>
    ensures { IfOk result (λ text. text.items ≡ join_with_byte 32 (keyword_text keyword ∷ side_text side ∷ [])) }
{
    let mut text = keyword_alone(alloc, keyword)?;
    put_side(&mut text, side)?;
    Ok(text)
}

fn with_bytes(
    alloc: Global,
    keyword: Keyword,
    side: Side,
    bytes: &[u8],
) -> Result<Vec<u8>, AllocError>
    ensures { IfOk result (λ text. text.items ≡ join_with_byte 32 (keyword_text keyword ∷ side_text side ∷ bytes_text bytes.now ∷ [])) }
{
    let mut text = with_side(alloc, keyword, side)?;
    put_bytes(alloc, &mut text, bytes)?;
    Ok(text)
}

fn with_count(
    alloc: Global,
    keyword: Keyword,
    side: Side,
    count: Count,
) -> Result<Vec<u8>, AllocError>
    ensures { IfOk result (λ text. text.items ≡ join_with_byte 32 (keyword_text keyword ∷ side_text side ∷ count_text count ∷ [])) }
{
    let mut text = with_side(alloc, keyword, side)?;
    put_count(&mut text, count)?;
    Ok(text)
}

fn with_link(
    alloc: Global,
    keyword: Keyword,
    side: Side,
    link: u64,
    count: Count,
) -> Result<Vec<u8>, AllocError>
    ensures { IfOk result (λ text. text.items ≡ join_with_byte 32 (keyword_text keyword ∷ side_text side ∷ decimal link ∷ count_text count ∷ [])) }
{
    let mut text = with_side(alloc, keyword, side)?;
    put_number(&mut text, link)?;
    put_count(&mut text, count)?;
    Ok(text)
}

fn event_text(alloc: Global, event: &Event) -> Result<Vec<u8>, AllocError>
    ensures { IfOk result (λ text. text.items ≡ join_with_byte 32 (event_words event.now)) }
{
    match event {
        Event::Link => keyword_alone(alloc, Keyword::Link),
        Event::At { now } => with_number(alloc, Keyword::At, *now),
        Event::Begin { side, link, count } => {
            with_link(alloc, Keyword::Begin, *side, *link, *count)
        }
        Event::Finish { side } => with_side(alloc, Keyword::Finish, *side),
        Event::Say { side, body } => with_bytes(alloc, Keyword::Say, *side, body.as_slice()),
        Event::Control { side, body } => {
            with_bytes(alloc, Keyword::Control, *side, body.as_slice())
        }
        Event::Pause { side } => with_side(alloc, Keyword::Pause, *side),
        Event::Resume { side } => with_side(alloc, Keyword::Resume, *side),
        Event::Leave { side } => with_side(alloc, Keyword::Leave, *side),
        Event::Write { side, count } => with_count(alloc, Keyword::Write, *side, *count),
        Event::Read { side, link, count } => with_link(alloc, Keyword::Read, *side, *link, *count),
        Event::Take { side } => with_side(alloc, Keyword::Take, *side),
        Event::Tick { side } => with_side(alloc, Keyword::Tick, *side),
        Event::Lose { side } => with_side(alloc, Keyword::Lose, *side),
        Event::Cut { link } => with_number(alloc, Keyword::Cut, *link),
    }
}

#[tactic(auto, unfolding(crate::specs::Texts::line_text))]
fn text_of(alloc: Global, line: &Line) -> Result<Vec<u8>, AllocError>
    ensures { IfOk result (λ text. text.items ≡ line_text line.now) }
{
    match line {
        Line::Base { base } => with_number(alloc, Keyword::Base, *base),
        Line::Do { event } => event_text(alloc, event),
        Line::Drain { side } => with_side(alloc, Keyword::Drain, *side),
    }
}

/// Adds the text of a line, without a newline. After `NoMemory` nothing is added.
pub fn print(line: &Line, to: &mut Vec<u8>) -> Result<(), NoMemory>
    ensures ok { OnOk result (to.new.items ≡ to.old.items ++ line_text line.now) }
    ensures err { OnErr result (to.new.items ≡ to.old.items) }
{
    let text = text_of(*to.allocator(), line)?;
    to.extend_from_slice(text.as_slice())?;
    Ok(())
}
