//! Tokens of worked texts, and their faults.
use pl_tokens::{Token, TokenFault, TokenKind, Tokens};
use std::alloc::Global;

/// The fault of the first run that has one, as its number and byte; (0, place) where all runs are read.
fn fault_of(alloc: Global, text: &[u8]) -> (u8, usize) {
    let mut tokens = Tokens::new(text);
    for _ in 0..4 {
        match tokens.next_run(alloc) {
            Ok(Some(_)) => {}
            Ok(None) => return (0, tokens.place()),
            Err(TokenFault::Fault { number, byte }) => return (number, byte),
            Err(TokenFault::NoMemory) => return (255, 0),
        }
    }
    (255, 0)
}

#[test]
fn faults_stand_at_their_bytes(rt: HostRuntime) {
    let rows: [(&[u8], (u8, usize)); 32] = [
        (b"% x", (0, 0)),
        (b"a.%", (0, 2)),
        (b"-9223372036854775808. ", (0, 21)),
        (b"\xe2\x82A", (1, 0)),
        (b"a.\xff", (1, 2)),
        (b"a. \xff", (1, 3)),
        (b"% \xff", (1, 2)),
        (b"/* \xff", (1, 3)),
        (b"'a\xff", (1, 2)),
        (b"'a\\\xff", (2, 2)),
        (b"0'\xff", (2, 0)),
        (b"0'", (2, 0)),
        (b"0''", (2, 0)),
        (b"0'\\\n", (2, 2)),
        (b"a. 'b", (2, 3)),
        (b"a :- \xc3\xa9.", (2, 5)),
        (b"'a\\q'.", (2, 2)),
        (b"'a\nb'.", (2, 0)),
        (b"'\\x110000\\'", (2, 1)),
        (b"'\\9\\'", (2, 1)),
        (b" /* a", (2, 1)),
        (b"a/*.", (2, 1)),
        (b"a(9223372036854775808).", (3, 2)),
        (b"- 9223372036854775808.", (3, 2)),
        (b"-/**/9223372036854775808.", (3, 5)),
        (b"'-'9223372036854775808.", (3, 3)),
        (b"+-9223372036854775808.", (3, 2)),
        (b"-9223372036854775809.", (3, 1)),
        (b"1.5", (4, 0)),
        (b"99999999999999999999.5", (4, 0)),
        (b"a. b", (6, 3)),
        (b"a%", (6, 0)),
    ];
    for (text, fault) in rows {
        assert_eq!(rt; fault_of(rt.alloc(), text), fault, "at {text:?}");
    }
}

/// The first token's kind as a letter, its text, and its number, which is the code of a punctuation.
fn is_first(alloc: Global, text: &[u8], letter: u8, bytes: &[u8], number: u64) -> bool {
    match Tokens::new(text).next(alloc) {
        Ok(Some(token)) => match token.kind {
            TokenKind::Name(s) => letter == b'n' && s.as_slice() == bytes,
            TokenKind::Quoted(s) => letter == b'q' && s.as_slice() == bytes,
            TokenKind::Var(s) => letter == b'v' && s.as_slice() == bytes,
            TokenKind::Int(n) => letter == b'i' && n == number,
            TokenKind::Codes(s) => letter == b'c' && s.as_slice() == bytes,
            TokenKind::Punct(b) => letter == b'p' && u64::from(b) == number,
            TokenKind::End => letter == b'e',
        },
        _ => false,
    }
}

#[test]
fn first_tokens_are_read(rt: HostRuntime) {
    let rows: [(&[u8], u8, &[u8], u64); 25] = [
        (b"0'a", b'i', b"", 97),
        (b"0''' ", b'i', b"", 39),
        (b"0'\\n", b'i', b"", 10),
        (b"0'\\x41\\", b'i', b"", 65),
        (b"0'\xc3\xa9", b'i', b"", 233),
        (b"0xFf", b'i', b"", 255),
        (b"0o17", b'i', b"", 15),
        (b"0b101", b'i', b"", 5),
        (b"0x", b'i', b"", 0),
        (b"007", b'i', b"", 7),
        (b"'a\\\nb'", b'q', b"ab", 0),
        (b"'it''s'", b'q', b"it's", 0),
        (b"'\\x41\\\\101\\'", b'q', b"AA", 0),
        (
            b"'\\a\\b\\f\\n\\r\\t\\v\\'\\\"\\`\\\\'",
            b'q',
            b"\x07\x08\x0c\n\r\t\x0b'\"`\\",
            0,
        ),
        (b"\"\xc3\xa9\"\"\"", b'c', b"\xc3\xa9\"", 0),
        (b"abC_1\xc3\xa9", b'n', b"abC_1", 0),
        (b"_X1", b'v', b"_X1", 0),
        (b"+-*a", b'n', b"+-*", 0),
        (b";;", b'n', b";", 0),
        (b"!", b'n', b"!", 0),
        (b"|", b'p', b"", 124),
        (b".%", b'e', b"", 0),
        (b".(", b'n', b".", 0),
        (b"/* c **/x", b'n', b"x", 0),
        (b"% c\ny", b'n', b"y", 0),
    ];
    for (text, letter, bytes, number) in rows {
        assert!(rt;
            is_first(rt.alloc(), text, letter, bytes, number),
            "at {text:?}"
        );
    }
}

/// Whether these are the tokens' bytes, and whether each follows the one before directly.
fn are_at(tokens: &[Token], places: &[(usize, bool)]) -> bool {
    tokens.len() == places.len()
        && tokens.iter().zip(places).all(|(token, place)| token.byte == place.0
            && token.direct == place.1)
}

#[test]
fn runs_have_places(rt: HostRuntime) {
    let mut tokens = Tokens::new(b"f( X)-1 . ");
    match tokens.next_run(rt.alloc()) {
        Ok(Some(run)) => {
            let places = [
                (0, false),
                (1, true),
                (3, false),
                (4, true),
                (5, true),
                (6, true),
                (8, false),
            ];
            assert!(rt; are_at(run.as_slice(), &places));
            assert_eq!(rt; tokens.place(), 9);
        }
        _ => assert!(rt; false, "no run"),
    }
}
