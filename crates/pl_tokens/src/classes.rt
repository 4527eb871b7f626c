//! Classes of characters (ISO/IEC 13211-1, 6.5), by their codes; 256 stands for the end of the text.
ghost use Rattle.std.specs.Prelude.{◌≡◌, ◌≤◌, ◌||◌, nat_eq, length, drop};
ghost use Rattle.std.specs.List.{take_while};
ghost use Rattle.text_model.specs.Tokens.{head_of, starts, is_layout, is_lower, is_upper, is_digit, is_alnum, is_symbol, is_punctuation};

/// What stands for a byte where the text has ended.
pub const END_OF_TEXT: u16 = 256;

/// The codes that the rules of tokens name.
pub const NEWLINE: u16 = b'\n' as u16;

pub const PERCENT: u16 = b'%' as u16;

pub const SINGLE_QUOTE: u16 = b'\'' as u16;

pub const DOUBLE_QUOTE: u16 = b'"' as u16;

pub const FULL_STOP: u16 = b'.' as u16;

pub const BACKSLASH: u16 = b'\\' as u16;

/// A text's first byte, or the end.
pub fn head_of(rest: &[u8]) -> u16
    ensures value { result ≡ head_of rest.now }
    ensures within { result ≤ 256 }
{
    match rest.first() {
        Some(b) => u16::from(*b),
        None => END_OF_TEXT,
    }
}

/// The bytes from a place on, none where the place is past the end.
pub fn tail(rest: &[u8], n: usize) -> &[u8]
    ensures { result.now ≡ drop n rest.now }
{
    if n < rest.len() {
        &rest[n..]
    } else {
        &rest[rest.len()..]
    }
}

/// Whether the text begins with these two bytes.
pub fn starts(first: u8, second: u8, rest: &[u8]) -> bool
    ensures { result ≡ starts first second rest.now }
{
    head_of(rest) == u16::from(first) && head_of(tail(rest, 1)) == u16::from(second)
}

/// Space, or one of the codes from tab to carriage return.
pub fn is_layout(b: u16) -> bool
    ensures { result ≡ is_layout b }
{
    b == 32 || (9 <= b && b <= 13)
}

/// `a` to `z`.
pub fn is_lower(b: u16) -> bool
    ensures { result ≡ is_lower b }
{
    97 <= b && b <= 122
}

/// `A` to `Z`, or the underscore.
pub fn is_upper(b: u16) -> bool
    ensures { result ≡ is_upper b }
{
    (65 <= b && b <= 90) || b == 95
}

/// `0` to `9`.
pub fn is_digit(b: u16) -> bool
    ensures { result ≡ is_digit b }
{
    48 <= b && b <= 57
}

/// A letter, a digit or the underscore.
pub fn is_alnum(b: u16) -> bool
    ensures { result ≡ is_alnum b }
{
    is_lower(b) || (is_upper(b) || is_digit(b))
}

/// `# $ & * + - . / : < = > ? @ ^ ~` or the backslash.
pub fn is_symbol(b: u16) -> bool
    ensures { result ≡ is_symbol b }
{
    match b {
        35 | 36 | 38 | 42 | 43 | 45 | 46 | 47 | 58 | 60 | 61 | 62 | 63 | 64 | 94 | 126 | 92 => true,
        _ => false,
    }
}

/// `( ) [ ] { } ,` or the bar.
pub fn is_punctuation(b: u16) -> bool
    ensures { result ≡ is_punctuation b }
{
    match b {
        40 | 41 | 91 | 93 | 123 | 125 | 44 | 124 => true,
        _ => false,
    }
}

/// `!` or `;`, each of which is a name by itself.
pub fn is_solo(b: u16) -> bool
    ensures { result ≡ (nat_eq b 33 || nat_eq b 59) }
{
    b == 33 || b == 59
}

fn word_len(rest: &[u8]) -> usize
    ensures value { result ≡ length (take_while is_alnum rest.now) }
    ensures within { result ≤ length rest.now }
{
    rest.iter().take_while(|b| is_alnum(u16::from(**b))).count()
}

fn symbols_len(rest: &[u8]) -> usize
    ensures value { result ≡ length (take_while is_symbol rest.now) }
    ensures within { result ≤ length rest.now }
{
    rest.iter()
        .take_while(|b| is_symbol(u16::from(**b)))
        .count()
}

/// The bytes that pass as a name or variable, at the front.
pub fn word(rest: &[u8]) -> &[u8]
    ensures value { result.now ≡ take_while is_alnum rest.now }
    ensures within { length result.now ≤ length rest.now }
{
    &rest[..word_len(rest)]
}

/// The symbol characters at the front.
pub fn symbols(rest: &[u8]) -> &[u8]
    ensures value { result.now ≡ take_while is_symbol rest.now }
    ensures within { length result.now ≤ length rest.now }
{
    &rest[..symbols_len(rest)]
}
