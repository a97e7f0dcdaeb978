//! Keys of two numbers of 32 bits, each greater than the one before.

ghost use Rattle.std.specs.Prelude.{◌≡◌, ◌≤◌, ◌<◌, ◌^◌, IfOk};
ghost use Rattle.line_format.specs.tools.Format.{read};
ghost use Rattle.line_format.specs.tools.Keys.{after_pair, least_second as second_of, most_first as first_of, most_second as most_of, pair_key as key_format};
ghost use Rattle.line_format.specs.tools.Number.{number_and as and_format};
ghost use Rattle.line_format.specs.tools.Reads.{Reads};

use crate::cursor::{Cursor, Failure};
use crate::numbers::{GREATEST, number_and};

/// The least key behind this one.
pub fn key_after(first: u32, second: u32) -> (u64, u64)
    ensures answer { result ≡ after_pair (first, second) }
    ensures first { result.0 < 2 ^ 33 }
    ensures second { result.1 < 2 ^ 33 }
{
    if u64::from(second) < GREATEST {
        (u64::from(first), u64::from(second) + 1)
    } else {
        (u64::from(first) + 1, 0)
    }
}

/// The least second number that may stand behind this first one.
fn least_second(least: (u64, u64), first: u64) -> u64
    ensures answer { result ≡ second_of least first }
    ensures within { result ≤ least.1 }
{
    if first == least.0 { least.1 } else { 0 }
}

/// The greatest first number behind which enough keys are left.
fn most_first(least: (u64, u64), owed: u64) -> u64
    requires least { least.1 < 2 ^ 33 }
    requires owed { owed < 2 ^ 33 }
    ensures answer { result ≡ first_of least owed }
    ensures within { result < 2 ^ 32 }
{
    if least_second(least, GREATEST) + owed <= GREATEST {
        GREATEST
    } else {
        GREATEST - 1
    }
}

/// The greatest second number behind this first one.
fn most_second(first: u64, owed: u64) -> u64
    ensures answer { result ≡ most_of first owed }
    ensures within { result < 2 ^ 32 }
{
    if first < GREATEST {
        GREATEST
    } else {
        GREATEST.saturating_sub(owed)
    }
}

/// The first number of a key.
fn first_number(cursor: &mut Cursor<'_>, least: (u64, u64), owed: u64) -> Result<u64, Failure>
    requires first { least.0 < 2 ^ 33 }
    requires second { least.1 < 2 ^ 33 }
    requires owed { owed < 2 ^ 33 }
    ensures answer { Reads (read (and_format 32 least.0 (first_of least owed)) cursor.old) result cursor.new }
    ensures fits { IfOk result (λ n. n < 2 ^ 32) }
{
    number_and(cursor, 32, least.0, most_first(least, owed))
}

/// The second number behind this first one.
fn second_number(
    cursor: &mut Cursor<'_>,
    least: (u64, u64),
    first: u64,
    owed: u64,
) -> Result<u64, Failure>
    requires second { least.1 < 2 ^ 33 }
    ensures answer { Reads (read (and_format 32 (second_of least first) (most_of first owed)) cursor.old) result cursor.new }
    ensures fits { IfOk result (λ n. n < 2 ^ 32) }
{
    number_and(
        cursor,
        32,
        least_second(least, first),
        most_second(first, owed),
    )
}

/// A key from the least on that leaves as many greater ones as are owed.
pub fn pair_key(
    cursor: &mut Cursor<'_>,
    least: (u64, u64),
    owed: u64,
) -> Result<(u32, u32), Failure>
    requires first { least.0 < 2 ^ 33 }
    requires second { least.1 < 2 ^ 33 }
    requires owed { owed < 2 ^ 33 }
    ensures { Reads (read (key_format least owed) cursor.old) result cursor.new }
{
    let first = first_number(cursor, least, owed)?;
    let second = second_number(cursor, least, first, owed)?;
    Ok((first as u32, second as u32))
}
