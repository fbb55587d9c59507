//! Tests of ra_router: three windows that call one another.
use ra_base::Token;
use ra_router::{Acts, Ask, Router, Said, Step, Told};
use ra_values::{Bytes, Value};
use std::alloc::Global;
use std::test::Fail;

fn token(text: &str) -> Result<Token, Fail> {
    match Token::from_text(text) {
        Ok(token) => Ok(token),
        Err(_) => Err("no token".into()),
    }
}

fn buffer(alloc: Global, bytes: &[u8]) -> Result<Value, Fail> {
    let bytes = Bytes::of(alloc, bytes)?;
    Ok(Value::Buffer { bytes })
}

/// The router takes this call.
fn take(router: &mut Router, from: &str, id: i32, ask: Ask) -> Result<Acts, Fail> {
    let from = token(from)?;
    Ok(router.step(Step { from, id, ask })?)
}

/// The first window calls the second.
fn calls(router: &mut Router, alloc: Global, id: i32, arg: &[u8]) -> Result<Acts, Fail> {
    let window = token("t2")?;
    let arg = buffer(alloc, arg)?;
    take(router, "t1", id, Ask::To { window, arg })
}

/// A window replies to a hop.
fn replies(
    router: &mut Router,
    alloc: Global,
    from: &str,
    id: i32,
    hop: u32,
    good: bool,
) -> Result<Acts, Fail> {
    let value = buffer(alloc, b"ok")?;
    take(router, from, id, Ask::Reply { hop, good, value })
}

fn is_buffer(value: &Value, wanted: &[u8]) -> bool {
    matches!(value, Value::Buffer { bytes } if bytes.as_slice() == wanted)
}

fn is_to(told: &Told, key: &str, id: i32) -> bool {
    told.key.as_text() == key && told.id == id
}

fn is_nothing(acts: &Acts) -> bool {
    matches!(acts, Acts::Nothing)
}

/// Whether this hop is handed to this call, and nothing else is told.
fn hands_over(acts: &Acts, id: i32, hop: u32, wanted: &[u8]) -> bool {
    match acts {
        Acts::One { told } => {
            is_to(told, "t2", id)
                && matches!(&told.said, Said::Hop { number, arg } if *number == hop && is_buffer(arg, wanted))
        }
        _ => false,
    }
}

/// Whether the call of the first window is answered, and then the reply to it.
fn settles(acts: &Acts, caller: i32, replier: i32, wanted: bool) -> bool {
    match acts {
        Acts::Two { first, second } => {
            is_to(first, "t1", caller)
                && matches!(&first.said, Said::Replied { good, value } if *good == wanted && is_buffer(value, b"ok"))
                && is_to(second, "t2", replier)
                && matches!(&second.said, Said::Done)
        }
        _ => false,
    }
}

fn has_no_call(acts: &Acts, key: &str, id: i32) -> bool {
    match acts {
        Acts::One { told } => is_to(told, key, id) && matches!(&told.said, Said::NoSuchCall),
        _ => false,
    }
}

fn has_no_window(acts: &Acts, id: i32) -> bool {
    match acts {
        Acts::One { told } => is_to(told, "t1", id) && matches!(&told.said, Said::BadWindow),
        _ => false,
    }
}

/// Whether a call of the first window is handed to the second, which waits for it.
fn reaches(router: &mut Router, alloc: Global, hop: u32) -> Result<bool, Fail> {
    let waits = take(router, "t2", 0, Ask::Next)?;
    let called = calls(router, alloc, 0, b"hi")?;
    Ok(is_nothing(&waits) && hands_over(&called, 0, hop, b"hi"))
}

/// Whether the second window's reply answers that call.
fn answers(router: &mut Router, alloc: Global, hop: u32, good: bool) -> Result<bool, Fail> {
    let replied = replies(router, alloc, "t2", 1, hop, good)?;
    Ok(settles(&replied, 0, 1, good))
}

/// Whether a reply of this window is told that there is no such call.
fn is_refused(router: &mut Router, alloc: Global, from: &str, hop: u32) -> Result<bool, Fail> {
    let replied = replies(router, alloc, from, 2, hop, true)?;
    Ok(has_no_call(&replied, from, 2))
}

#[test]
fn a_window_that_waits_is_called(rt: HostRuntime) -> Result<(), Fail> {
    let mut router = Router::new(rt.alloc());
    assert!(rt; reaches(&mut router, rt.alloc(), 0)?);
    assert!(rt; answers(&mut router, rt.alloc(), 0, true)?);
    assert!(rt; is_refused(&mut router, rt.alloc(), "t2", 0)?);
    Ok(())
}

#[test]
fn an_error_is_handed_back(rt: HostRuntime) -> Result<(), Fail> {
    let mut router = Router::new(rt.alloc());
    assert!(rt; reaches(&mut router, rt.alloc(), 0)?);
    assert!(rt; answers(&mut router, rt.alloc(), 0, false)?);
    Ok(())
}

/// Whether a call of the first window waits.
fn waits(router: &mut Router, alloc: Global, id: i32, arg: &[u8]) -> Result<bool, Fail> {
    let called = calls(router, alloc, id, arg)?;
    Ok(is_nothing(&called))
}

/// Whether the second window is handed this hop when it asks.
fn is_handed(router: &mut Router, id: i32, hop: u32, wanted: &[u8]) -> Result<bool, Fail> {
    let handed = take(router, "t2", id, Ask::Next)?;
    Ok(hands_over(&handed, id, hop, wanted))
}

#[test]
fn hops_wait_in_order(rt: HostRuntime) -> Result<(), Fail> {
    let mut router = Router::new(rt.alloc());
    assert!(rt; waits(&mut router, rt.alloc(), 0, b"one")?);
    assert!(rt; waits(&mut router, rt.alloc(), 1, b"two")?);
    assert!(rt; is_refused(&mut router, rt.alloc(), "t2", 0)?);
    assert!(rt; is_handed(&mut router, 3, 0, b"one")?);
    assert!(rt; is_refused(&mut router, rt.alloc(), "t3", 0)?);
    assert!(rt; is_handed(&mut router, 4, 1, b"two")?);
    assert!(rt; answers(&mut router, rt.alloc(), 0, true)?);
    Ok(())
}

/// Whether a call to no window is told so.
fn finds_no_window(router: &mut Router) -> Result<bool, Fail> {
    let called = take(router, "t1", 2, Ask::BadTo)?;
    Ok(has_no_window(&called, 2))
}

/// Whether a reply of no shape is told that there is no such call.
fn finds_no_call(router: &mut Router) -> Result<bool, Fail> {
    let replied = take(router, "t1", 3, Ask::BadReply)?;
    Ok(has_no_call(&replied, "t1", 3))
}

#[test]
fn what_is_no_call_is_refused(rt: HostRuntime) -> Result<(), Fail> {
    let mut router = Router::new(rt.alloc());
    assert!(rt; finds_no_window(&mut router)?);
    assert!(rt; finds_no_call(&mut router)?);
    assert!(rt; is_refused(&mut router, rt.alloc(), "t2", 7)?);
    Ok(())
}

#[test]
fn a_thousand_calls_are_answered(rt: HostRuntime) -> Result<(), Fail> {
    let mut router = Router::new(rt.alloc());
    for hop in 0..1001u32 {
        assert!(rt; reaches(&mut router, rt.alloc(), hop)?);
        assert!(rt; answers(&mut router, rt.alloc(), hop, true)?);
    }
    Ok(())
}
