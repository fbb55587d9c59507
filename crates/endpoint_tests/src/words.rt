//! Tests of ra_base: messages, moments, tokens, keys and reasons.

use ra_base::{Key, Kind, Message, Moment, Reason, Token, TokenFault};
use std::test::Fail;

#[test]
fn a_message_is_its_bytes(rt: HostRuntime) -> Result<(), Fail> {
    let alloc = rt.alloc();
    let message = Message::copy(alloc, b"hi")?;
    assert_eq!(rt; message.as_slice(), b"hi".as_slice());
    assert_eq!(rt; message.len(), 2);
    assert!(rt; Message::empty(alloc).is_empty());
    assert!(rt; message == Message::from_vec(Message::copy(alloc, b"hi")?.into_vec()));
    Ok(())
}

#[test]
fn a_moment_is_below_its_limit(rt: HostRuntime) {
    assert!(rt; Moment::of_millis(1 << 53).is_none());
    let last = Moment::of_millis((1 << 53) - 1);
    assert!(rt; last.is_some_and(|moment| moment.millis() == (1 << 53) - 1));
    assert_eq!(rt; Moment::start().millis(), 0);
}

#[test]
fn a_token_is_visible_text(rt: HostRuntime) -> Result<(), Fail> {
    assert_eq!(rt; Token::from_text("").err(), Some(TokenFault::Empty));
    assert_eq!(rt;
        Token::from_text("a b").err(),
        Some(TokenFault::BadByte { at: 1 })
    );
    let long = vec![in rt.alloc(); b'a'; 257]?;
    let long = str::from_utf8(long.as_slice())?;
    assert_eq!(rt;
        Token::from_text(long).err(),
        Some(TokenFault::TooLong { len: 257 })
    );
    Ok(())
}

#[test]
fn keys_are_ordered_by_their_kinds(rt: HostRuntime) -> Result<(), Fail> {
    let token = Token::from_text("t1")?;
    assert_eq!(rt; token.as_text(), "t1");
    let host = Key {
        kind: Kind::ExtensionHost,
        token: token.same(),
    };
    let management = Key {
        kind: Kind::Management,
        token,
    };
    assert!(rt; management.same() == management && management < host);
    Ok(())
}

#[test]
fn a_reason_has_its_text(rt: HostRuntime) {
    assert_eq!(rt; Reason::Duplicate.text(), "Duplicate reconnection token");
}
