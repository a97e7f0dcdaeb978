//! Integer constants (C99 6.4.4.1).
ghost use Rattle.std.specs.Prelude.{◌≡◌, ◌<◌, ◌≤◌, ◌^◌, length, min};
ghost use Rattle.std.specs.List.{list_all};
ghost use Rattle.c_lex.specs.Constant.{behind_zero, constant_of, digit_value, is_digit_in, number_in, value_in};
ghost use Rattle.c_lex.specs.PieceOf.{number_piece};

use crate::piece::Piece;

/// One more than the greatest number.
const TOO_BIG: u64 = 2_147_483_648;

fn digit_value(digit: u8) -> u8
    ensures { result ≡ digit_value digit }
{
    if digit <= b'9' {
        digit.saturating_sub(b'0')
    } else if digit <= b'F' {
        digit - 55
    } else {
        digit.saturating_sub(87)
    }
}

fn is_digit_in(base: u8, digit: u8) -> bool
    ensures { result ≡ is_digit_in base digit }
{
    digit.is_ascii_hexdigit() && digit_value(digit) < base
}

/// The value of digits, and `TOO_BIG` where it is that or more.
fn value_in(base: u8, digits: &[u8]) -> u64
    requires { 1 ≤ base }
    ensures { result ≡ min (value_in base digits.now) 2147483648 }
{
    let mut value = 0;
    for digit in digits {
        value = TOO_BIG.min(value * base as u64 + digit_value(*digit) as u64);
    }
    value
}

fn are_digits_in(base: u8, digits: &[u8]) -> bool
    ensures { result ≡ list_all (is_digit_in base) digits.now }
{
    digits.iter().all(|digit| is_digit_in(base, *digit))
}

/// The number of these digits of the base, at least one.
fn number_in(base: u8, digits: &[u8]) -> Piece
    requires { 1 ≤ base }
    ensures { result ≡ number_piece (number_in base digits.now) }
{
    if digits.is_empty() || !are_digits_in(base, digits) {
        return Piece::BadNumber;
    }
    let value = value_in(base, digits);
    if value < TOO_BIG {
        Piece::Number(value as i32)
    } else {
        Piece::BigNumber
    }
}

/// The number of the digits behind a first 0.
fn behind_zero(text: &[u8]) -> Piece
    ensures { result ≡ number_piece (behind_zero text.now) }
{
    match text {
        [b'x' | b'X', digits @ ..] => number_in(16, digits),
        _ => number_in(8, text),
    }
}

/// The number that a run of letters and digits is, if any.
#[tactic(auto, unfolding(crate::specs::Constant::constant_of))]
pub fn constant_of(text: &[u8]) -> Piece
    ensures { result ≡ number_piece (constant_of text.now) }
{
    let [first, rest @ ..] = text else {
        return Piece::BadNumber;
    };
    if *first != b'0' || rest.is_empty() {
        return number_in(10, text);
    }
    behind_zero(rest)
}
