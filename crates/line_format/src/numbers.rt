//! Decimal numbers of a range.

ghost use Rattle.std.specs.Prelude.{◌≡◌, ◌≤◌, ◌<◌, ◌^◌, true, IfOk, IfSome};
ghost use Rattle.line_format.specs.tools.Format.{read, byte as byte_format, loop};
ghost use Rattle.line_format.specs.tools.Number.{can, first_digit, next_digit, number as number_format, number_and as and_format};
ghost use Rattle.line_format.specs.tools.Reads.{Reads, Turns, IsWithin, turn_some, end_of};

use crate::cursor::{Cursor, Failure};

/// The greatest number of 32 bits.
pub const GREATEST: u64 = 4_294_967_295;

/// What a byte makes of the digits before it: more digits, or the number, and whether it is the last of its list.
#[derive(Clone, Copy)]
pub enum Turn {
    More(u64),
    Last(u64, bool),
}

/// What may end a number: one byte, or in a list the byte that stands between two numbers, where a further one may come, and that behind the last.
#[derive(Clone, Copy)]
pub enum End {
    Byte(u8),
    Member { between: u8, end: u8, rising: bool },
}

fn ends_member(between: u8, end: u8, rising: bool, value: u64, byte: u8) -> Option<bool>
    ensures { result ≡ end_of (End.Member between end rising) value byte }
{
    if byte == end {
        Some(true)
    } else if byte == between && (!rising || value < GREATEST) {
        Some(false)
    } else {
        None
    }
}

/// Whether this byte, where it may end the number, ends its list.
fn end_at(end: End, value: u64, byte: u8) -> Option<bool>
    ensures { result ≡ end_of end value byte }
{
    match end {
        End::Byte(wanted) => { if byte == wanted { Some(true) } else { None } }
        End::Member {
            between,
            end,
            rising,
        } => ends_member(between, end, rising, value, byte),
    }
}

/// Does some number of the range begin with the digits of the value?
pub(crate) fn can_follow(low: u64, high: u64, value: u64) -> bool
    requires top { high < 2 ^ 32 }
    requires bottom { low < 2 ^ 33 }
    requires size { value < 2 ^ 60 }
    ensures answer { result ≡ can low high value }
    ensures fits { result ≡ true → value ≤ high }
{
    if value == 0 {
        return low == 0;
    }
    let mut least = value;
    let mut most = value;
    for _ in 0..high + 1 {
        if least > high {
            return false;
        }
        if most >= low {
            return true;
        }
        least = least * 10;
        most = most * 10 + 9;
    }
    false
}

/// What this byte makes of the digits before it, if anything.
fn next_turn(low: u64, high: u64, end: End, value: u64, byte: u8) -> Option<Turn>
    requires top { high < 2 ^ 32 }
    requires bottom { low < 2 ^ 33 }
    requires size { value ≤ high }
    ensures answer { turn_some result ≡ next_digit low high (end_of end) value byte }
    ensures fits { IfSome result (λ t. IsWithin t high) }
{
    if byte >= 48 && byte <= 57 {
        let more = value * 10 + u64::from(byte - 48);
        if value > 0 && can_follow(low, high, more) {
            Some(Turn::More(more))
        } else {
            None
        }
    } else if value >= low && value <= high {
        match end_at(end, value, byte) {
            Some(ended) => Some(Turn::Last(value, ended)),
            None => None,
        }
    } else {
        None
    }
}

#[tactic(auto, unfolding(crate::specs::tools::Format::read_byte))]
fn take_turn(
    cursor: &mut Cursor<'_>,
    low: u64,
    high: u64,
    end: End,
    value: u64,
) -> Result<Turn, Failure>
    requires top { high < 2 ^ 32 }
    requires bottom { low < 2 ^ 33 }
    requires size { value ≤ high }
    ensures answer { Turns (read (byte_format (next_digit low high (end_of end) value)) cursor.old) result cursor.new }
    ensures fits { IfOk result (λ t. IsWithin t high) }
{
    let left = cursor.left();
    match cursor.next() {
        None => Err(Failure::At(0)),
        Some(byte) => match next_turn(low, high, end, value, byte) {
            Some(turn) => Ok(turn),
            None => Err(Failure::At(left)),
        },
    }
}

/// The first digit.
#[tactic(auto, unfolding(crate::specs::tools::Format::read_byte))]
fn first_value(cursor: &mut Cursor<'_>, low: u64, high: u64) -> Result<u64, Failure>
    requires top { high < 2 ^ 32 }
    requires bottom { low < 2 ^ 33 }
    ensures answer { Reads (read (byte_format (first_digit low high)) cursor.old) result cursor.new }
    ensures fits { IfOk result (λ n. n ≤ high) }
{
    let left = cursor.left();
    match cursor.next() {
        None => Err(Failure::At(0)),
        Some(byte) => {
            if byte >= 48 && byte <= 57 && can_follow(low, high, u64::from(byte - 48)) {
                Ok(u64::from(byte - 48))
            } else {
                Err(Failure::At(left))
            }
        }
    }
}

/// The further digits, and the byte that ends them.
pub(crate) fn more_digits(
    cursor: &mut Cursor<'_>,
    low: u64,
    high: u64,
    end: End,
    first: u64,
) -> Result<(u64, bool), Failure>
    requires top { high < 2 ^ 32 }
    requires bottom { low < 2 ^ 33 }
    requires size { first ≤ high }
    ensures answer { Reads (read (loop (λ v. byte_format (next_digit low high (end_of end) v)) first) cursor.old) result cursor.new }
    ensures fits { IfOk result (λ z. z.0 ≤ high) }
{
    let mut value = first;
    for _ in 0..cursor.left() + 1 {
        match take_turn(cursor, low, high, end, value)? {
            Turn::More(more) => value = more,
            Turn::Last(last, ended) => return Ok((last, ended)),
        }
    }
    Err(Failure::At(cursor.left()))
}

/// A number of the range, and whether it is the last of its list.
pub fn number(
    cursor: &mut Cursor<'_>,
    low: u64,
    high: u64,
    end: End,
) -> Result<(u64, bool), Failure>
    requires top { high < 2 ^ 32 }
    requires bottom { low < 2 ^ 33 }
    ensures answer { Reads (read (number_format low high (end_of end)) cursor.old) result cursor.new }
    ensures fits { IfOk result (λ z. z.0 ≤ high) }
{
    let first = first_value(cursor, low, high)?;
    more_digits(cursor, low, high, end, first)
}

/// A number of the range, and this byte behind it.
pub fn number_and(cursor: &mut Cursor<'_>, end: u8, low: u64, high: u64) -> Result<u64, Failure>
    requires top { high < 2 ^ 32 }
    requires bottom { low < 2 ^ 33 }
    ensures answer { Reads (read (and_format end low high) cursor.old) result cursor.new }
    ensures fits { IfOk result (λ n. n ≤ high) }
{
    let (number, _) = number(cursor, low, high, End::Byte(end))?;
    Ok(number)
}
