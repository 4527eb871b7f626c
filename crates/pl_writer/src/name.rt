//! How names are written.
ghost use Rattle.std.specs.Prelude.{◌≡◌, ◌++◌, ◌<◌, [], ◌∷◌, IfOk, OnOk, OnErr, codes, length, nat_le, nat_lt, nat_eq, ◌&&◌, ◌||◌};
ghost use Rattle.std.specs.List.{list_all, flat_map};
ghost use Rattle.text_model.specs.Tokens.{is_lower as is_lower_byte, is_alnum as is_alnum_byte, is_symbol as is_symbol_byte, is_digit as is_digit_byte, head_of as head_of_bytes, starts};
ghost use Rattle.text_model.specs.Writing.{is_bare as is_bare_name, are_signs as are_signs_of, is_solo as is_solo_of, escaped, name_text, hex, hex_digit as hex_digit_of, escape_letter as escape_letter_of, is_letter as is_letter_byte, are_letters as are_letters_of};
ghost use Rattle.pl_writer.specs.Edges.{Begins, needs_quotes as needs_quotes_for, quoted_text};

use pl_atoms::{Bytes, NoMemory};
use std::alloc::Global;
use text_model::Quote;

pub(crate) fn is_lower(b: u16) -> bool
    ensures { result ≡ is_lower_byte b }
{
    97 <= b && b <= 122
}

pub(crate) fn is_digit(b: u16) -> bool
    ensures { result ≡ is_digit_byte b }
{
    48 <= b && b <= 57
}

pub(crate) fn is_alnum(b: u16) -> bool
    ensures { result ≡ is_alnum_byte b }
{
    is_lower(b) || (((65 <= b && b <= 90) || b == 95) || is_digit(b))
}

/// The symbol characters (ISO/IEC 13211-1, 6.5.1), and the backslash.
const SYMBOLS: [u16; 17] = [
    35, 36, 38, 42, 43, 45, 46, 47, 58, 60, 61, 62, 63, 64, 94, 126, 92,
];

pub(crate) fn is_symbol(b: u16) -> bool
    ensures { result ≡ is_symbol_byte b }
{
    SYMBOLS.contains(&b)
}

fn are_alnum(text: &[u8]) -> bool
    ensures { result ≡ list_all is_alnum_byte text.now }
{
    text.iter().all(|b| is_alnum(u16::from(*b)))
}

fn are_symbols(text: &[u8]) -> bool
    ensures { result ≡ list_all is_symbol_byte text.now }
{
    text.iter().all(|b| is_symbol(u16::from(*b)))
}

/// Whether the text is a word of symbol characters, where it is no comment's beginning and no full stop.
fn are_signs(text: &[u8]) -> bool
    ensures { result ≡ are_signs_of text.now }
{
    !text.is_empty() && are_symbols(text) && !is_comment(text) && text != b".".as_slice()
}

fn is_comment(text: &[u8]) -> bool
    ensures { result ≡ starts 47 42 text.now }
{
    text.len() > 1 && text[0] == b'/' && text[1] == b'*'
}

fn is_solo(text: &[u8]) -> bool
    ensures { result ≡ is_solo_of text.now }
{
    text == b"[]".as_slice()
        || (text == b"{}".as_slice() || (text == b"!".as_slice() || text == b";".as_slice()))
}

fn begins_lower(text: &[u8]) -> bool
    ensures { result ≡ is_lower_byte (head_of_bytes text.now) }
{
    match text.first() {
        Some(b) => is_lower(u16::from(*b)),
        None => false,
    }
}

fn is_letter(b: u8) -> bool
    ensures { result ≡ is_letter_byte b }
{
    is_lower(u16::from(b)) || (65 <= b && b <= 90)
}

fn have_letters(text: &[u8]) -> bool
    ensures { result ≡ list_all is_letter_byte text.now }
{
    text.iter().all(|b| is_letter(*b))
}

fn has_bytes(text: &[u8]) -> bool
    ensures { result ≡ nat_lt 0 (length text.now) }
{
    !text.is_empty()
}

/// Whether a text is one or more letters.
pub(crate) fn are_letters(text: &[u8]) -> bool
    ensures { result ≡ are_letters_of text.now }
{
    have_letters(text) && has_bytes(text)
}

/// Whether a name reads back without quotes: it is a word that begins with a small letter, a word of
/// symbol characters, or one of `[]`, `{}`, `!` and `;` (ISO/IEC 13211-1, 6.4.2).
fn is_bare(text: &[u8]) -> bool
    ensures { result ≡ is_bare_name text.now }
{
    (begins_lower(text) && are_alnum(text)) || (are_signs(text) || is_solo(text))
}

/// Whether the name is written in quotes.
pub(crate) fn needs_quotes(text: &[u8], quote: Quote) -> bool
    ensures { result ≡ needs_quotes_for quote text.now }
{
    match quote {
        Quote::Plain => false,
        Quote::Quoted => !is_bare(text),
    }
}

fn hex_digit(n: u8) -> u8
    requires { n < 16 }
    ensures { result ≡ hex_digit_of n }
{
    if n < 10 { 48 + n } else { 87 + n }
}

/// The letter of the escape of a code from 7 to 13.
fn escape_letter(b: u8) -> u8
    ensures { result ≡ escape_letter_of b }
{
    if b == 7 {
        b'a'
    } else if b == 8 {
        b'b'
    } else if b == 9 {
        b't'
    } else if b == 10 {
        b'n'
    } else if b == 11 {
        b'v'
    } else if b == 12 {
        b'f'
    } else {
        b'r'
    }
}

fn is_line_code(b: u8) -> bool
    ensures { result ≡ (nat_le 7 b && nat_le b 13) }
{
    7 <= b && b <= 13
}

fn is_control(b: u8) -> bool
    ensures { result ≡ (nat_lt b 32 || nat_eq b 127) }
{
    b < 32 || b == 127
}

fn push_hex(out: &mut Bytes, b: u8) -> Result<(), NoMemory>
    ensures ok { OnOk result (out.new ≡ out.old ++ 92 ∷ 120 ∷ (hex b ++ 92 ∷ [])) }
    ensures err { OnErr result (out.new ≡ out.old) }
{
    if b < 16 {
        out.extend_from_slice([b'\\', b'x', hex_digit(b), b'\\'].as_slice())
    } else {
        out.extend_from_slice([b'\\', b'x', hex_digit(b / 16), hex_digit(b % 16), b'\\'].as_slice())
    }
}

/// Puts a byte of a name in quotes (ISO/IEC 13211-1, 6.4.2.1).
fn push_escaped(out: &mut Bytes, b: u8) -> Result<(), NoMemory>
    ensures ok { OnOk result (out.new ≡ out.old ++ escaped b) }
    ensures err { OnErr result (out.new ≡ out.old) }
{
    if b == b'\\' {
        out.extend_from_slice(b"\\\\")
    } else if b == b'\'' {
        out.extend_from_slice(b"\\'")
    } else if is_line_code(b) {
        out.extend_from_slice([b'\\', escape_letter(b)].as_slice())
    } else if is_control(b) {
        push_hex(out, b)
    } else {
        out.push(b)
    }
}

pub(crate) fn push_quoted(out: &mut Bytes, text: &[u8]) -> Result<(), NoMemory>
    ensures ok { OnOk result (out.new ≡ out.old ++ quoted_text text.now) }
    ensures err { OnErr result (Begins out.old out.new) }
{
    out.push(b'\'')?;
    for b in text {
        push_escaped(out, *b)?;
    }
    out.push(b'\'')?;
    Ok(())
}

/// Puts a name, in quotes where it needs them.
fn push_name(out: &mut Bytes, text: &[u8], quote: Quote) -> Result<(), NoMemory>
    ensures { OnOk result (out.new ≡ out.old ++ name_text quote text.now) }
{
    if needs_quotes(text, quote) {
        push_quoted(out, text)
    } else {
        out.extend_from_slice(text)
    }
}

/// The atom of this name as it is written alone (ISO/IEC 13211-1, 7.10.5).
///
/// The only error is want of memory.
pub fn write_name(alloc: Global, text: &[u8], quote: Quote) -> Result<Bytes, NoMemory>
    ensures { IfOk result (λ bytes. bytes ≡ name_text quote text.now) }
{
    let mut out = Bytes::new(alloc);
    push_name(&mut out, text, quote)?;
    Ok(out)
}
