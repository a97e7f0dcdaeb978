//! Numbers of 32 bits with a sign.

ghost use Rattle.line_format.specs.tools.Format.{read, byte as byte_format};
ghost use Rattle.line_format.specs.tools.Signed.{first_signed as first_format, behind_first as behind_format, signed_and as signed_format};
ghost use Rattle.line_format.specs.tools.Reads.{Reads};
ghost use Rattle.std.specs.Prelude.{◌≡◌, ◌≤◌, ◌<◌, IfOk, IfSome};

use crate::cursor::{Cursor, Failure};
use crate::numbers::{End, can_follow, more_digits, number_and};

const MOST: u64 = 2_147_483_647;

/// The minus, or the first digit.
#[tactic(auto, unfolding(crate::specs::tools::Format::read_byte))]
fn first_signed(cursor: &mut Cursor<'_>) -> Result<Option<u64>, Failure>
    ensures answer { Reads (read (byte_format first_format) cursor.old) result cursor.new }
    ensures digit { IfOk result (λ first. IfSome first (λ n. n ≤ 2147483647)) }
{
    let left = cursor.left();
    match cursor.next() {
        None => Err(Failure::At(0)),
        Some(b'-') => Ok(None),
        Some(byte) => {
            if byte >= 48 && byte <= 57 && can_follow(0, MOST, u64::from(byte - 48)) {
                Ok(Some(u64::from(byte - 48)))
            } else {
                Err(Failure::At(left))
            }
        }
    }
}

/// What comes behind the minus, or behind the first digit.
fn behind_first(cursor: &mut Cursor<'_>, end: u8, first: Option<u64>) -> Result<i32, Failure>
    requires { IfSome first (λ n. n ≤ 2147483647) }
    ensures { Reads (read (behind_format end first) cursor.old) result cursor.new }
{
    match first {
        None => {
            let magnitude = number_and(cursor, end, 1, MOST + 1)?;
            Ok(-(magnitude.saturating_sub(1) as i32) - 1)
        }
        Some(digit) => {
            let (value, _) = more_digits(cursor, 0, MOST, End::Byte(end), digit)?;
            Ok(value as i32)
        }
    }
}

/// A number of 32 bits with a sign, and this byte behind it.
pub fn signed_and(cursor: &mut Cursor<'_>, end: u8) -> Result<i32, Failure>
    ensures { Reads (read (signed_format end) cursor.old) result cursor.new }
{
    let first = first_signed(cursor)?;
    behind_first(cursor, end, first)
}
