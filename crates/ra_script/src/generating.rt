//! A script that is drawn from a number, the same each time.
ghost use Rattle.std.specs.Prelude.{◌≡◌, ◌≤◌, ◌<◌, ◌+◌, ◌*◌, ◌^◌, ◌%◌, ◌++◌, ◌∷◌, [], length, OnOk, IfOk};
ghost use Rattle.ra_base.specs.declared.event.Count.TheVariants.{All};
ghost use Rattle.ra_script.specs.Generated.{next_state, drawn, bytes_drawn, state_after, body_drawn, state_after_body, transfer_lines, link_lines, reconnect_lines, tick_lines, last_lines, later, step_lines, generator_after, kind_drawn, after_kind, steps_lines, generator_from, generated};

use crate::line::Line;
use ra_base::{Count, Event, Message, NoMemory, Side};
use std::alloc::Global;

/// The state of the draws, the present link and the moment.
#[derive(Clone, Copy, Debug, PartialEq, Eq)]
pub struct Generator {
    pub state: u64,
    pub link: u64,
    pub moment: u64,
}

/// The next number of the draws.
fn draw(state: &mut u64) -> u64
    ensures drawn { result ≡ drawn state.old }
    ensures state { state.new ≡ next_state state.old }
{
    *state = state
        .wrapping_mul(6_364_136_223_846_793_005)
        .wrapping_add(1_442_695_040_888_963_407);
    *state >> 33
}

/// That many bytes, each drawn by itself.
fn draw_bytes(alloc: Global, state: &mut u64, count: u64) -> Result<Vec<u8>, NoMemory>
    ensures bytes { IfOk result (λ bytes. bytes.items ≡ bytes_drawn count state.old) }
    ensures state { OnOk result (state.new ≡ state_after count state.old) }
{
    let mut bytes = Vec::new(alloc);
    for _ in 0..count {
        bytes.push((draw(state) % 256) as u8)?;
    }
    Ok(bytes)
}

/// A body of fewer than 17 bytes.
fn draw_body(alloc: Global, state: &mut u64) -> Result<Message, NoMemory>
    ensures body { IfOk result (λ body. body ≡ body_drawn state.old) }
    ensures state { OnOk result (state.new ≡ state_after_body state.old) }
{
    let count = draw(state) % 17;
    Ok(Message::from_vec(draw_bytes(alloc, state, count)?))
}

fn push_event(lines: &mut Vec<Line>, event: Event) -> Result<(), NoMemory>
    ensures { OnOk result (lines.new.items ≡ lines.old.items ++ Line.Do event ∷ []) }
{
    lines.push(Line::Do { event })?;
    Ok(())
}

/// Bytes go from one side to the other, which takes all that came.
fn push_transfer(
    lines: &mut Vec<Line>,
    from: Side,
    to: Side,
    link: u64,
    count: Count,
) -> Result<(), NoMemory>
    ensures { OnOk result (lines.new.items ≡ lines.old.items ++ transfer_lines from to link count) }
{
    push_event(lines, Event::Write { side: from, count })?;
    push_event(
        lines,
        Event::Read {
            side: to,
            link,
            count,
        },
    )?;
    lines.push(Line::Drain { side: to })?;
    Ok(())
}

/// A link on which nothing has come yet.
fn push_link(lines: &mut Vec<Line>, link: u64) -> Result<(), NoMemory>
    ensures { OnOk result (lines.new.items ≡ lines.old.items ++ link_lines link) }
{
    let count = Count::Exact { n: 0 };
    push_event(lines, Event::Link)?;
    push_event(
        lines,
        Event::Begin {
            side: Side::A,
            link,
            count,
        },
    )?;
    push_event(
        lines,
        Event::Begin {
            side: Side::B,
            link,
            count,
        },
    )
}

/// The present link is cut, and the next one taken instead.
fn push_reconnect(lines: &mut Vec<Line>, link: u64) -> Result<(), NoMemory>
    requires { link + 1 < 2 ^ 64 }
    ensures { OnOk result (lines.new.items ≡ lines.old.items ++ reconnect_lines link) }
{
    push_event(lines, Event::Cut { link })?;
    push_event(lines, Event::Lose { side: Side::A })?;
    push_event(lines, Event::Lose { side: Side::B })?;
    push_link(lines, link + 1)?;
    push_event(lines, Event::Finish { side: Side::A })?;
    push_event(lines, Event::Finish { side: Side::B })
}

fn push_ticks(lines: &mut Vec<Line>, moment: u64) -> Result<(), NoMemory>
    ensures { OnOk result (lines.new.items ≡ lines.old.items ++ tick_lines moment) }
{
    push_event(lines, Event::At { now: moment })?;
    push_event(lines, Event::Tick { side: Side::A })?;
    push_event(lines, Event::Tick { side: Side::B })
}

fn push_say(
    alloc: Global,
    lines: &mut Vec<Line>,
    side: Side,
    state: &mut u64,
) -> Result<(), NoMemory>
    ensures lines { OnOk result (lines.new.items ≡ lines.old.items ++ Line.Do (Event.Say side (body_drawn state.old)) ∷ []) }
    ensures state { OnOk result (state.new ≡ state_after_body state.old) }
{
    let body = draw_body(alloc, state)?;
    push_event(lines, Event::Say { side, body })
}

/// A step of a kind from 0 to 11.
#[tactic(auto, unfolding(crate::specs::Generated::step_lines, crate::specs::Generated::generator_after))]
fn push_step(
    alloc: Global,
    lines: &mut Vec<Line>,
    generator: &mut Generator,
    kind: u64,
) -> Result<(), NoMemory>
    requires link { generator.old.link + 1 < 2 ^ 64 }
    requires moment { generator.old.moment + 4000 < 2 ^ 64 }
    ensures lines { OnOk result (lines.new.items ≡ lines.old.items ++ step_lines kind generator.old) }
    ensures generator { OnOk result (generator.new ≡ generator_after kind generator.old) }
{
    match kind {
        0..=2 => push_say(alloc, lines, Side::A, &mut generator.state),
        3..=4 => push_say(alloc, lines, Side::B, &mut generator.state),
        5..=6 => push_transfer(lines, Side::A, Side::B, generator.link, Count::All),
        7..=8 => push_transfer(lines, Side::B, Side::A, generator.link, Count::All),
        9 => {
            generator.moment += 1 + draw(&mut generator.state) % 4000;
            push_ticks(lines, generator.moment)
        }
        _ => {
            let n = 1 + draw(&mut generator.state) % 40;
            push_transfer(lines, Side::A, Side::B, generator.link, Count::Most { n })?;
            if kind > 10 {
                push_reconnect(lines, generator.link)?;
                generator.link += 1;
            }
            Ok(())
        }
    }
}

/// The script that is drawn from a number, of that many steps. The same numbers give the same script.
pub fn generate(alloc: Global, start: u64, steps: u32) -> Result<Vec<Line>, NoMemory>
    requires { steps ≤ 100000 }
    ensures lines { IfOk result (λ lines. lines.items ≡ generated start steps) }
    ensures few { IfOk result (λ lines. length lines.items ≤ 11 * steps + 9) }
{
    let mut lines = Vec::new(alloc);
    push_link(&mut lines, 1)?;
    let mut generator = Generator {
        state: start,
        link: 1,
        moment: 0,
    };
    for _ in 0..steps {
        let kind = draw(&mut generator.state) % 12;
        push_step(alloc, &mut lines, &mut generator, kind)?;
    }
    push_transfer(&mut lines, Side::A, Side::B, generator.link, Count::All)?;
    push_transfer(&mut lines, Side::B, Side::A, generator.link, Count::All)?;
    Ok(lines)
}
