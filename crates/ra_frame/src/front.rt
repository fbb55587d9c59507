//! What stands at the front of unread bytes: a part of a frame, a whole frame, or a header that states too long a body.
ghost use Rattle.std.specs.Prelude.{◌≡◌, ◌<◌, ◌≤◌, ◌+◌, ◌-◌, ℕ, nat_le, length, drop, get_or, Some, IfOk};
ghost use Rattle.std.specs.Int.{w32, w64, byte_len};
ghost use Rattle.ra_model.specs.Frames.{number_width, wide_mark};
ghost use Rattle.ra_model.specs.FirstFrame.{number_at, header_len, ack_place, len_place, is_wide, first_frame};
ghost use Rattle.ra_frame.specs.Fronts.{IsFront, HasFrame, IsAhead, head_of, stated_ahead, states_above};

use ra_base::{Message, NoMemory};
use ra_model::Frame;
use std::alloc::Global;

/// The most bytes of a body.
pub const BODY_LIMIT: usize = 268_435_456;

/// What stands at the front of unread bytes.
#[derive(Clone, Copy, Debug, PartialEq, Eq)]
pub enum Front {
    /// Less than a whole frame.
    Partial,
    /// A header that states too long a body.
    TooLong { stated: u32 },
    /// A frame with a body of that many bytes.
    Whole { body: usize },
}

/// What the header of a frame states of it, but for the length of its body.
#[derive(Clone, Copy, Debug, PartialEq, Eq)]
pub struct FrameHead {
    pub kind: u8,
    pub wide: bool,
    pub id: u64,
    pub ack: u64,
}

/// The four bytes at this place, big-endian.
#[inline]
#[tactic(auto, unfolding(ra_model::specs::FirstFrame::number_at))]
fn read_u32(bytes: &[u8], at: usize) -> u32
    requires { at + 4 ≤ length bytes.now }
    ensures { result ≡ number_at w32 at bytes.now }
{
    let b = &bytes[at..at + 4];
    u32::from_be_bytes([b[0], b[1], b[2], b[3]])
}

/// The eight bytes at this place, big-endian.
#[inline]
#[tactic(auto, unfolding(ra_model::specs::FirstFrame::number_at))]
fn read_u64(bytes: &[u8], at: usize) -> u64
    requires { at + 8 ≤ length bytes.now }
    ensures { result ≡ number_at w64 at bytes.now }
{
    let b = &bytes[at..at + 8];
    u64::from_be_bytes([b[0], b[1], b[2], b[3], b[4], b[5], b[6], b[7]])
}

/// The id or the ack at this place.
#[inline]
fn number(bytes: &[u8], wide: bool, at: usize) -> u64
    requires { at + byte_len (number_width wide) ≤ length bytes.now }
    ensures { result ≡ number_at (number_width wide) at bytes.now }
{
    if wide {
        read_u64(bytes, at)
    } else {
        read_u32(bytes, at) as u64
    }
}

#[inline]
fn is_wide(bytes: &[u8]) -> bool
    requires { 0 < length bytes.now }
    ensures { result ≡ is_wide bytes.now }
{
    bytes[0] >= 128
}

/// How many bytes a header has.
#[inline]
pub fn header_len(wide: bool) -> usize
    ensures len { result ≡ header_len wide }
    ensures bound { result ≤ 21 }
{
    if wide { 21 } else { 13 }
}

#[inline]
fn ack_place(wide: bool) -> usize
    ensures { result ≡ ack_place wide }
{
    if wide { 9 } else { 5 }
}

#[inline]
fn len_place(wide: bool) -> usize
    ensures { result ≡ len_place wide }
{
    if wide { 17 } else { 9 }
}

/// What stands at the front. It takes no memory.
pub fn front_of(unread: &[u8]) -> Front
    ensures { IsFront unread.now result }
{
    if unread.is_empty() {
        return Front::Partial;
    }
    let wide = is_wide(unread);
    let header = header_len(wide);
    if unread.len() < header {
        return Front::Partial;
    }
    let stated = read_u32(unread, len_place(wide));
    let body = stated as usize;
    if body > BODY_LIMIT {
        return Front::TooLong { stated };
    }
    if unread.len() - header < body {
        return Front::Partial;
    }
    Front::Whole { body }
}

/// The type that a first byte states.
#[inline]
fn kind_of(first: u8, wide: bool) -> u8
    requires { wide ≡ nat_le 128 first }
    ensures { result ≡ first - wide_mark wide }
{
    if wide { first - 128 } else { first }
}

/// The length of the body that the header at the front states, where the header is whole.
fn stated_of(unread: &[u8]) -> Option<u32>
    ensures { result ≡ stated_ahead unread.now }
{
    if unread.is_empty() {
        return None;
    }
    let wide = is_wide(unread);
    if unread.len() < header_len(wide) {
        return None;
    }
    Some(read_u32(unread, len_place(wide)))
}

/// Whether the header at the front states a body longer than this limit, and within that of a frame. It takes no memory.
pub fn states_above(unread: &[u8], limit: u32) -> bool
    ensures { result ≡ states_above limit unread.now }
{
    match stated_of(unread) {
        Some(stated) => stated > limit && stated as usize <= BODY_LIMIT,
        None => false,
    }
}

/// The type of the frame at the front, whose body has that many bytes, and how many bytes it has with its header.
fn ahead_at(unread: &[u8], body: usize) -> (u8, usize)
    requires whole { IsFront unread.now (Front.Whole body) }
    ensures { HasFrame unread.now result.0 result.1 }
{
    let wide = is_wide(unread);
    (kind_of(unread[0], wide), header_len(wide) + body)
}

/// The type of the frame at the front, and how many bytes it has, where it is whole. It takes no memory.
pub fn ahead_of(unread: &[u8]) -> Option<(u8, usize)>
    ensures { IsAhead unread.now result }
{
    match front_of(unread) {
        Front::Partial => None,
        Front::TooLong { stated: _ } => None,
        Front::Whole { body } => Some(ahead_at(unread, body)),
    }
}

/// The header of the whole frame at the front. It takes no memory.
pub fn head_at(unread: &[u8]) -> FrameHead
    requires whole { (n : ℕ) × IsFront unread.now (Front.Whole n) }
    ensures wide { result.wide ≡ is_wide unread.now }
    ensures kind { result.kind ≡ get_or unread.now 0 0 - wide_mark result.wide }
    ensures id { result.id ≡ number_at (number_width result.wide) 1 unread.now }
    ensures ack { result.ack ≡ number_at (number_width result.wide) (ack_place result.wide) unread.now }
    ensures head { Some result ≡ head_of unread.now }
{
    let wide = is_wide(unread);
    let kind = kind_of(unread[0], wide);
    let id = number(unread, wide, 1);
    let ack = number(unread, wide, ack_place(wide));
    FrameHead {
        kind,
        wide,
        id,
        ack,
    }
}

/// The frame at the front, whose body has that many bytes.
pub fn frame_at(alloc: Global, unread: &[u8], body: usize) -> Result<Frame, NoMemory>
    requires whole { IsFront unread.now (Front.Whole body) }
    ensures frame { IfOk result (λ f. first_frame unread.now ≡ Some (f, drop (header_len f.wide + body) unread.now)) }
    ensures wide { IfOk result (λ f. f.wide ≡ is_wide unread.now) }
{
    let head = head_at(unread);
    let header = header_len(head.wide);
    let body = Message::copy(alloc, &unread[header..header + body])?;
    Ok(Frame {
        kind: head.kind,
        wide: head.wide,
        id: head.id,
        ack: head.ack,
        body,
    })
}
