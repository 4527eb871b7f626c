//! Quoted items, their escapes, and characters after `0'` (ISO/IEC 13211-1, 6.4.2.1).
ghost use Rattle.std.specs.Prelude.{◌≡◌, ◌≤◌, ◌<◌, ◌+◌, ◌-◌, suc, ◌++◌, List, ℕ, length, Option, Some, None, IfOk, if◌then◌else◌, encode_utf8};
ghost use Rattle.std.specs.Str.{chars};
ghost use Rattle.pl_tokens.specs.Lexing.{IsValue, number_view, NumberWithin, piece_view, PieceWithin, part_bytes, body_view, BodyWithin};
ghost use Rattle.text_model.specs.Tokens.{head_of, letter_code, is_scalar, numbered, escape, char_len, piece_at, literal_of, char_literal, body};

use crate::classes::{BACKSLASH, END_OF_TEXT, NEWLINE, SINGLE_QUOTE, head_of, starts, tail};
use crate::numeral::{Number, digits_of, value_of};
use pl_atoms::{Bytes, NoMemory};
use std::alloc::Global;

/// What begins the digits of a hexadecimal escape.
const LOWER_X: u16 = b'x' as u16;

/// What a piece of a quoted item stands for: its bytes, a character, or nothing.
#[derive(Debug, Clone, Copy)]
pub enum Part {
    /// The bytes themselves.
    Same,
    /// The character of an escape, or a quote that was doubled.
    Char(char),
    /// Nothing, after a backslash and a newline.
    Nothing,
}

/// What comes next in a quoted item, and how many bytes it takes.
#[derive(Debug, Clone, Copy)]
pub enum ItemPiece {
    /// What stands for a character, or for nothing.
    Text(Part, usize),
    /// The closing quote.
    Ends(usize),
    /// A backslash that begins no escape.
    Bad,
    /// The end of the text.
    CutOff,
    /// A newline.
    LineEnd,
}

/// The character of an escape of one letter or sign (ISO/IEC 13211-1, 6.4.2.1).
fn letter_code(b: u16) -> Option<char>
    ensures { result ≡ letter_code b }
{
    match b {
        97 => Some('\u{7}'),
        98 => Some('\u{8}'),
        102 => Some('\u{c}'),
        110 => Some('\n'),
        114 => Some('\r'),
        116 => Some('\t'),
        118 => Some('\u{b}'),
        92 => Some('\\'),
        39 => Some('\''),
        34 => Some('"'),
        96 => Some('`'),
        _ => None,
    }
}

/// Whether this is the code of a character.
fn is_scalar(n: u64) -> bool
    ensures { result ≡ is_scalar n }
{
    n < 0xd800 || (0xdfff < n && n < 0x11_0000)
}

/// The character of a code, where it is one.
fn scalar_of(value: Option<u64>) -> Option<char>
    ensures { (v : ℕ) → IsValue v value → result ≡ (if is_scalar v then Some v else None) }
{
    match value {
        None => None,
        Some(n) => {
            if is_scalar(n) {
                char::from_u32(n as u32)
            } else {
                None
            }
        }
    }
}

/// Digits and a closing backslash, after so many bytes of the escape: the character of that code.
fn numbered(base: u16, before: usize, rest: &[u8]) -> ItemPiece
    requires least { 0 < base }
    requires most { base ≤ 16 }
    requires few { before ≤ 2 }
    ensures view { (bs : List ℕ) → piece_view bs result ≡ numbered base before rest.now }
    ensures within { PieceWithin result (before + length rest.now) }
{
    let digits = digits_of(base, rest);
    let len = digits.len();
    if len > 0 && head_of(tail(rest, len)) == BACKSLASH {
        match scalar_of(value_of(base, digits)) {
            Some(c) => ItemPiece::Text(Part::Char(c), before + len + 1),
            None => ItemPiece::Bad,
        }
    } else {
        ItemPiece::Bad
    }
}

/// What stands after a backslash. A newline stands for nothing there only where it `joins` lines.
fn escape(joins: bool, rest: &[u8]) -> ItemPiece
    ensures view { (bs : List ℕ) → piece_view bs result ≡ escape joins rest.now }
    ensures within { PieceWithin result (1 + length rest.now) }
{
    let first = head_of(rest);
    match letter_code(first) {
        Some(c) => ItemPiece::Text(Part::Char(c), 2),
        None => {
            if joins && first == NEWLINE {
                ItemPiece::Text(Part::Nothing, 2)
            } else if first == LOWER_X {
                numbered(16, 2, tail(rest, 1))
            } else {
                numbered(8, 1, rest)
            }
        }
    }
}

/// What stands in a quoted item, with how many bytes it takes, or why there is none.
#[derive(Debug, Drop)]
pub enum ItemBody {
    /// Its text, and the number of bytes up to and with the closing quote.
    Whole(Bytes, usize),
    /// A backslash after so many bytes begins no escape.
    BadEscape(usize),
    /// No quote closes it before the end of the text, or before a newline, where this is false.
    Unclosed(bool),
}

/// How many bytes the character takes whose first byte this is.
fn char_len(b: u16) -> usize
    ensures value { result ≡ char_len b }
    ensures within { (1 ≤ result) × (result ≤ 4) }
{
    if b < 128 {
        1
    } else if b < 224 {
        2
    } else if b < 240 {
        3
    } else {
        4
    }
}

/// The next piece of an item in quotes.
fn piece_at(quote: u16, rest: &[u8]) -> ItemPiece
    requires { quote < 128 }
    ensures view { piece_view rest.now result ≡ piece_at quote rest.now }
    ensures within { PieceWithin result (length rest.now) }
{
    let first = head_of(rest);
    let after = tail(rest, 1);
    if rest.is_empty() {
        ItemPiece::CutOff
    } else if first == quote {
        if head_of(after) == quote {
            ItemPiece::Text(Part::Char(char::from(quote as u8)), 2)
        } else {
            ItemPiece::Ends(1)
        }
    } else if first == BACKSLASH {
        escape(true, after)
    } else if first == NEWLINE {
        ItemPiece::LineEnd
    } else {
        let len = char_len(first);
        ItemPiece::Text(Part::Same, if len < rest.len() { len } else { rest.len() })
    }
}

/// What a byte after a character's first adds to it.
fn low_bits(b: u8) -> u32
    ensures value { result ≡ b - 128 }
    ensures within { result < 256 }
{
    u32::from(b.saturating_sub(128))
}

/// The code of the first character, or 256 where there is none.
fn first_char(cs: &[u8]) -> u32
    ensures { result ≡ head_of (chars cs.now) }
{
    let first = u32::from(head_of(cs));
    if cs.len() == 0 {
        256
    } else if first < 128 {
        first
    } else if first < 224 {
        if cs.len() < 2 {
            256
        } else {
            first.saturating_sub(192) * 64 + low_bits(cs[1])
        }
    } else if first < 240 {
        if cs.len() < 3 {
            256
        } else {
            ((first - 224) * 64 + low_bits(cs[1])) * 64 + low_bits(cs[2])
        }
    } else if cs.len() < 4 {
        256
    } else {
        (((first - 240) * 64 + low_bits(cs[1])) * 64 + low_bits(cs[2])) * 64 + low_bits(cs[3])
    }
}

/// The code of a character.
fn char_code(c: char) -> u32
    ensures { result ≡ head_of (chars (encode_utf8 c)) }
{
    c as u32
}

/// The first character of what a piece stands for.
fn part_char(part: Part, n: usize, rest: &[u8]) -> u32
    requires { n ≤ length rest.now }
    ensures { result ≡ head_of (chars (part_bytes part n rest.now)) }
{
    match part {
        Part::Same => first_char(&rest[..n]),
        Part::Char(c) => char_code(c),
        Part::Nothing => 256,
    }
}

/// The integer of a piece after `0'`.
fn literal_of(piece: ItemPiece, rest: &[u8]) -> Number
    requires { PieceWithin piece (length rest.now) }
    ensures view { number_view result ≡ literal_of (piece_view rest.now piece) }
    ensures within { NumberWithin result (2 + length rest.now) }
{
    match piece {
        ItemPiece::Text(part, n) => Number::Value(u64::from(part_char(part, n, rest)), 2 + n),
        ItemPiece::Bad => Number::Wrong(2, 2),
        _ => Number::Wrong(2, 0),
    }
}

/// `0'` and the character after it: a quote only where it is doubled, an escape, but not a backslash and a newline.
pub fn char_literal(rest: &[u8]) -> Number
    requires { 2 ≤ length rest.now }
    ensures view { number_view result ≡ char_literal rest.now }
    ensures within { NumberWithin result (length rest.now) }
{
    let after = tail(rest, 2);
    if starts(b'\\', b'\n', after) {
        Number::Wrong(2, 2)
    } else {
        literal_of(piece_at(SINGLE_QUOTE, after), after)
    }
}

/// Puts what a piece stands for behind a text.
fn append(text: &mut Bytes, part: Part, n: usize, rest: &[u8]) -> Result<(), NoMemory>
    requires { n ≤ length rest.now }
    ensures { IfOk result (λ _. text.new ≡ text.old ++ part_bytes part n rest.now) }
{
    match part {
        Part::Same => text.extend_from_slice(&rest[..n]),
        Part::Char(c) => {
            let mut buf = [0; 4];
            text.extend_from_slice(c.encode_utf8(&mut buf).as_bytes())
        }
        Part::Nothing => Ok(()),
    }
}

/// A quoted item after its opening quote.
pub fn body(alloc: Global, quote: u16, rest: &[u8]) -> Result<ItemBody, NoMemory>
    requires { quote < 128 }
    ensures view { IfOk result (λ b. body_view b ≡ body (suc (length rest.now)) quote rest.now) }
    ensures within { IfOk result (λ b. BodyWithin b (length rest.now)) }
{
    let mut text = Bytes::new(alloc);
    let mut at = 0;
    loop {
        let left = &rest[at..];
        match piece_at(quote, left) {
            ItemPiece::Text(part, n) => {
                append(&mut text, part, n, left)?;
                at += n;
            }
            ItemPiece::Ends(n) => return Ok(ItemBody::Whole(text, at + n)),
            ItemPiece::Bad => return Ok(ItemBody::BadEscape(at)),
            ItemPiece::CutOff => return Ok(ItemBody::Unclosed(true)),
            ItemPiece::LineEnd => return Ok(ItemBody::Unclosed(false)),
        }
    }
}
