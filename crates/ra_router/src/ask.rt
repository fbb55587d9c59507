//! What windows ask of the router, and what they are told.
use ra_base::Token;
use ra_values::Value;

/// A call of a window, as it was read.
#[derive(Drop)]
pub enum Ask {
    /// A call to no window, or one whose argument would not fit.
    BadTo,
    /// A call to a window.
    To { window: Token, arg: Value },
    /// It asks for the next call that comes to it.
    Next,
    /// It answers the call with that number: by a success where `good`, and else by an error.
    Reply { hop: u32, good: bool, value: Value },
    /// A reply of no such shape.
    BadReply,
}

/// A call of a window that the router takes.
#[derive(Drop)]
pub struct Step {
    pub from: Token,
    pub id: i32,
    pub ask: Ask,
}

/// What a call is answered.
#[derive(Drop)]
pub enum Said {
    BadWindow,
    Full,
    /// A call of another window, with its number and its argument.
    Hop { number: u32, arg: Value },
    /// The reply of the window that was called.
    Replied { good: bool, value: Value },
    Done,
    NoSuchCall,
}

/// An answer to a call of a window.
#[derive(Drop)]
pub struct Told {
    pub key: Token,
    pub id: i32,
    pub said: Said,
}
