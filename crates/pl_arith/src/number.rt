//! Operations on integers of 64 bits (ISO/IEC 13211-1, 9.1 and 9.4).
ghost use Rattle.std.specs.Prelude.{◌≡◌, ◌≢◌, ◌<◌, ◌^◌, pos, ◌-ℤ◌, ◌*ℤ◌, FitsSigned, ℤ};
ghost use Rattle.std.specs.Option.{SomeIff};
ghost use Rattle.std.specs.Int.{w64};
ghost use Rattle.value_model.specs.Bits.{bits_not, bits_and, bits_or};
ghost use Rattle.value_model.specs.Value.{apply_one, apply_two, ranged, quotient};

use value_model::{Binary, EvalFault, Unary};

/// What an operation on one integer gives.
pub fn apply_one(op: Unary, x: i64) -> Result<i64, EvalFault>
    ensures { result ≡ apply_one op x }
{
    match op {
        Unary::Complement => Ok(!x),
        Unary::Negate => in_range(x.checked_neg()),
        Unary::Abs => in_range(x.checked_abs()),
        Unary::Sign => Ok(x.signum()),
    }
}

/// What an operation on two integers gives.
pub fn apply_two(op: Binary, x: i64, y: i64) -> Result<i64, EvalFault>
    ensures { result ≡ apply_two op x y }
{
    match op {
        Binary::Add => in_range(x.checked_add(y)),
        Binary::Subtract => in_range(x.checked_sub(y)),
        Binary::Multiply => in_range(x.checked_mul(y)),
        Binary::Quotient => quotient(x, y),
        Binary::Remainder => remainder(x, y),
        Binary::Modulo => modulo(x, y),
        Binary::ShiftLeft => shift_left(x, y),
        Binary::ShiftRight => shift_right(x, y),
        Binary::And => Ok(x & y),
        Binary::Or => Ok(x | y),
    }
}

// A result that may be out of range.
fn in_range(checked: Option<i64>) -> Result<i64, EvalFault>
    ensures { (z : ℤ) → SomeIff checked (FitsSigned w64 z) z → result ≡ ranged z }
{
    match checked {
        Some(z) => Ok(z),
        None => Err(EvalFault::Overflow),
    }
}

fn quotient(x: i64, y: i64) -> Result<i64, EvalFault>
    ensures { result ≡ apply_two Binary.Quotient x y }
{
    if y == 0 {
        return Err(EvalFault::ZeroDivisor);
    }
    in_range(x.checked_div(y))
}

// What a division rounded toward zero leaves.
fn rest(x: i64, y: i64) -> i64
    requires { y ≢ pos 0 }
    ensures { result ≡ x -ℤ (quotient x y *ℤ y) }
{
    if y == -1 { 0 } else { x % y }
}

fn remainder(x: i64, y: i64) -> Result<i64, EvalFault>
    ensures { result ≡ apply_two Binary.Remainder x y }
{
    if y == 0 {
        return Err(EvalFault::ZeroDivisor);
    }
    Ok(rest(x, y))
}

fn modulo(x: i64, y: i64) -> Result<i64, EvalFault>
    ensures { result ≡ apply_two Binary.Modulo x y }
{
    if y == 0 {
        return Err(EvalFault::ZeroDivisor);
    }
    let rest = rest(x, y);
    if rest == 0 {
        return Ok(0);
    }
    if (rest < 0) == (y < 0) {
        return Ok(rest);
    }
    Ok(rest + y)
}

fn shift_left(x: i64, y: i64) -> Result<i64, EvalFault>
    ensures { result ≡ apply_two Binary.ShiftLeft x y }
{
    match y {
        0..=62 => in_range(x.checked_mul(power(y as u64))),
        63 => shift_all(x),
        _ => Err(EvalFault::Undefined),
    }
}

// 2 to a power.
fn power(y: u64) -> i64
    requires { y < 63 }
    ensures { result ≡ pos (2 ^ y) }
{
    1 << y
}

// The number times 2 to the 63rd power, which is no number of 64 bits.
fn shift_all(x: i64) -> Result<i64, EvalFault>
    ensures { result ≡ apply_two Binary.ShiftLeft x (pos 63) }
{
    if x == 0 {
        Ok(0)
    } else if x == -1 {
        Ok(i64::MIN)
    } else {
        Err(EvalFault::Overflow)
    }
}

fn shift_right(x: i64, y: i64) -> Result<i64, EvalFault>
    ensures { result ≡ apply_two Binary.ShiftRight x y }
{
    match y {
        0..=63 => Ok(x >> y as u32),
        _ => Err(EvalFault::Undefined),
    }
}
