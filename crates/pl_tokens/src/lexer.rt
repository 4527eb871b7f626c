//! The token at the front of a text (ISO/IEC 13211-1, 6.4).
ghost use Rattle.std.specs.Prelude.{◌≡◌, ◌<◌, ◌∷◌, [], length, IfOk, IsTrue, if◌then◌else◌};
ghost use Rattle.pl_tokens.specs.Lexing.{number_view, NumberWithin, scanned_view, ScannedWithin};
ghost use Rattle.text_model.specs.Tokens.{head_of, is_digit, token_at, other_token_at, number_at, is_end, ends_sentence, quoted_item, quoted, text_codes};

use crate::classes::{
    DOUBLE_QUOTE, END_OF_TEXT, FULL_STOP, PERCENT, SINGLE_QUOTE, head_of, is_digit, is_layout,
    is_lower, is_punctuation, is_solo, is_symbol, is_upper, starts, symbols, tail, word,
};
use crate::numeral::{Number, based, decimal, is_digit_of};
use crate::quoted::{ItemBody, body, char_literal};
use crate::token::TokenKind;
use pl_atoms::{Bytes, NoMemory};
use std::alloc::Global;

/// What stands at the front of a text.
#[derive(Debug, Drop)]
pub enum Scanned {
    /// A token, and how many bytes it takes.
    Seen(TokenKind, usize),
    /// A fault by its number, and how many bytes from here it is.
    Fault(u8, usize),
}

/// A quoted item, with its opening quote: a name, or a list of codes. A bad escape is a fault at its backslash, and an
/// item that is not closed one at its opening quote, or where an ill-formed byte cuts it off, at that byte.
fn quoted_item(
    alloc: Global,
    marked: bool,
    as_codes: bool,
    rest: &[u8],
) -> Result<Scanned, NoMemory>
    requires some { 0 < length rest.now }
    requires quote { head_of rest.now < 128 }
    ensures view { IfOk result (λ s. scanned_view s ≡ quoted_item marked (if as_codes then text_codes else quoted) rest.now) }
    ensures within { IfOk result (λ s. ScannedWithin s (length rest.now)) }
{
    match body(alloc, head_of(rest), tail(rest, 1))? {
        ItemBody::Whole(text, n) => Ok(Scanned::Seen(
            if as_codes {
                TokenKind::Codes(text)
            } else {
                TokenKind::Quoted(text)
            },
            n + 1,
        )),
        ItemBody::BadEscape(at) => Ok(Scanned::Fault(2, at + 1)),
        ItemBody::Unclosed(by_end) => {
            if by_end && marked {
                Ok(Scanned::Fault(1, rest.len()))
            } else {
                Ok(Scanned::Fault(2, 0))
            }
        }
    }
}

/// Whether a full stop before this byte is an end, or before the end of a text that is well-formed.
fn ends_sentence(marked: bool, b: u16) -> bool
    ensures { result ≡ ends_sentence marked b }
{
    if b == END_OF_TEXT {
        !marked
    } else {
        is_layout(b) || b == PERCENT
    }
}

/// Whether the text begins with an end.
fn is_end(marked: bool, rest: &[u8]) -> bool
    ensures { result ≡ is_end marked rest.now }
{
    head_of(rest) == FULL_STOP && ends_sentence(marked, head_of(tail(rest, 1)))
}

/// The numeral at the front.
fn number_at(minus: bool, rest: &[u8]) -> Number
    requires { IsTrue (is_digit (head_of rest.now)) }
    ensures view { number_view result ≡ number_at minus rest.now }
    ensures within { NumberWithin result (length rest.now) }
{
    let third = head_of(tail(rest, 2));
    if starts(b'0', b'\'', rest) {
        char_literal(rest)
    } else if starts(b'0', b'x', rest) && is_digit_of(16, third) {
        based(minus, 16, rest)
    } else if starts(b'0', b'o', rest) && is_digit_of(8, third) {
        based(minus, 8, rest)
    } else if starts(b'0', b'b', rest) && is_digit_of(2, third) {
        based(minus, 2, rest)
    } else {
        decimal(minus, rest)
    }
}

/// The text of one byte.
fn single(alloc: Global, b: u16) -> Result<Bytes, NoMemory>
    requires { b < 256 }
    ensures { IfOk result (λ s. s ≡ b ∷ []) }
{
    Bytes::from_slice(alloc, &[b as u8])
}

/// The token at the front of a text that is not empty. `marked` says that an ill-formed byte follows the text, `minus`
/// that a minus sign by itself stands directly before it.
pub fn token_at(alloc: Global, marked: bool, minus: bool, rest: &[u8]) -> Result<Scanned, NoMemory>
    requires { 0 < length rest.now }
    ensures view { IfOk result (λ s. scanned_view s ≡ token_at marked minus rest.now) }
    ensures within { IfOk result (λ s. ScannedWithin s (length rest.now)) }
{
    let first = head_of(rest);
    if is_lower(first) {
        let name = word(rest);
        Ok(Scanned::Seen(TokenKind::Name(Bytes::from_slice(alloc, name)?), name.len()))
    } else if is_upper(first) {
        let name = word(rest);
        Ok(Scanned::Seen(TokenKind::Var(Bytes::from_slice(alloc, name)?), name.len()))
    } else if is_digit(first) {
        match number_at(minus, rest) {
            Number::Value(n, len) => Ok(Scanned::Seen(TokenKind::Int(n), len)),
            Number::Wrong(n, at) => Ok(Scanned::Fault(n, at)),
        }
    } else if first == SINGLE_QUOTE {
        quoted_item(alloc, marked, false, rest)
    } else if first == DOUBLE_QUOTE {
        quoted_item(alloc, marked, true, rest)
    } else {
        other_token_at(alloc, marked, rest)
    }
}

/// The token at the front where it is no word, number or quoted item.
fn other_token_at(alloc: Global, marked: bool, rest: &[u8]) -> Result<Scanned, NoMemory>
    requires { 0 < length rest.now }
    ensures view { IfOk result (λ s. scanned_view s ≡ other_token_at marked rest.now) }
    ensures within { IfOk result (λ s. ScannedWithin s (length rest.now)) }
{
    let first = head_of(rest);
    if is_punctuation(first) {
        Ok(Scanned::Seen(TokenKind::Punct(first as u8), 1))
    } else if is_solo(first) {
        Ok(Scanned::Seen(TokenKind::Name(single(alloc, first)?), 1))
    } else if is_end(marked, rest) {
        Ok(Scanned::Seen(TokenKind::End, 1))
    } else if is_symbol(first) {
        let name = symbols(rest);
        Ok(Scanned::Seen(TokenKind::Name(Bytes::from_slice(alloc, name)?), name.len()))
    } else {
        Ok(Scanned::Fault(2, 0))
    }
}
