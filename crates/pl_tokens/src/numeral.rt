//! Numerals (ISO/IEC 13211-1, 6.4.4).
ghost use Rattle.std.specs.Prelude.{◌≡◌, ◌≤◌, ◌<◌, ℕ, length};
ghost use Rattle.pl_tokens.specs.Lexing.{IsValue, number_view, NumberWithin};
ghost use Rattle.text_model.specs.Tokens.{digit_value, is_digit_of, value_after, digits_of, integer_of, based, decimal};

use crate::classes::{FULL_STOP, head_of, is_digit, tail};

/// 2^63, the greatest integer that a token may have, and that only after a minus sign.
const LIMIT: u128 = 1 << 63;

/// The value of a digit or a letter.
fn digit_value(b: u16) -> u16
    ensures { result ≡ digit_value b }
{
    if is_digit(b) {
        b - 48
    } else if 97 <= b {
        b - 87
    } else {
        b.saturating_sub(55)
    }
}

fn is_hex_digit(b: u16) -> bool
    ensures { result ≡ is_digit_of 16 b }
{
    is_digit(b) || ((97 <= b && b <= 102) || (65 <= b && b <= 70))
}

/// Whether this is a digit of the base.
pub fn is_digit_of(base: u16, b: u16) -> bool
    requires { base ≤ 16 }
    ensures { result ≡ is_digit_of base b }
{
    is_hex_digit(b) && digit_value(b) < base
}

fn digits_len(base: u16, rest: &[u8]) -> usize
    requires { base ≤ 16 }
    ensures value { result ≡ length (digits_of base rest.now) }
    ensures within { result ≤ length rest.now }
{
    rest.iter()
        .take_while(|b| is_digit_of(base, u16::from(**b)))
        .count()
}

/// The digits of a base at the front.
pub fn digits_of(base: u16, rest: &[u8]) -> &[u8]
    requires { base ≤ 16 }
    ensures value { result.now ≡ digits_of base rest.now }
    ensures within { length result.now ≤ length rest.now }
{
    &rest[..digits_len(base, rest)]
}

/// The value of digits of a base. None exactly where it is above 2^63.
pub fn value_of(base: u16, digits: &[u8]) -> Option<u64>
    requires { 0 < base }
    ensures { IsValue (value_after base 0 digits.now) result }
{
    let mut n: u64 = 0;
    for b in digits {
        let next = u128::from(n) * u128::from(base) + u128::from(digit_value(u16::from(*b)));
        if next > LIMIT {
            return None;
        }
        n = next as u64;
    }
    Some(n)
}

/// A number, of so many bytes, or what is wrong with it, so many bytes from here.
#[derive(Debug, Clone, Copy)]
pub enum Number {
    Value(u64, usize),
    Wrong(u8, usize),
}

/// An integer within its bound: 2^63 only where a minus sign stands before it.
fn integer_of(minus: bool, value: Option<u64>, len: usize) -> Number
    ensures view { (v : ℕ) → IsValue v value → number_view result ≡ integer_of minus v len }
    ensures within { 0 < len → NumberWithin result len }
{
    match value {
        None => Number::Wrong(3, 0),
        Some(n) => {
            if u128::from(n) < LIMIT || minus {
                Number::Value(n, len)
            } else {
                Number::Wrong(3, 0)
            }
        }
    }
}

/// A numeral of a base, after its two bytes of prefix.
pub fn based(minus: bool, base: u16, rest: &[u8]) -> Number
    requires least { 0 < base }
    requires most { base ≤ 16 }
    requires prefix { 2 ≤ length rest.now }
    ensures view { number_view result ≡ based minus base rest.now }
    ensures within { NumberWithin result (length rest.now) }
{
    let digits = digits_of(base, tail(rest, 2));
    integer_of(minus, value_of(base, digits), 2 + digits.len())
}

/// A decimal numeral, or a float literal, which is refused.
pub fn decimal(minus: bool, rest: &[u8]) -> Number
    requires { 0 < length (digits_of 10 rest.now) }
    ensures view { number_view result ≡ decimal minus rest.now }
    ensures within { NumberWithin result (length rest.now) }
{
    let digits = digits_of(10, rest);
    let after = tail(rest, digits.len());
    if head_of(after) == FULL_STOP && is_digit(head_of(tail(after, 1))) {
        Number::Wrong(4, 0)
    } else {
        integer_of(minus, value_of(10, digits), digits.len())
    }
}
