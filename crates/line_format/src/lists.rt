//! Lists of numbers of 32 bits, with one byte between two of them and another behind the last. The same bytes, if any, stand in front of the digits of each.

ghost use Rattle.std.specs.Prelude.{◌≡◌, ◌≤◌, false};
ghost use Rattle.line_format.specs.tools.Format.{read, byte as byte_format, loop};
ghost use Rattle.line_format.specs.tools.Members.{AreMarks, member, members as members_format, any_members as any_format, rest_of, number_and_members as listed, number_and_option as optional, option_of, has_more as has_more_of};
ghost use Rattle.line_format.specs.tools.Reads.{Reads};

use crate::cursor::{Cursor, Failure};
use crate::numbers::{End, GREATEST, number, number_and};
use crate::words::word;
use sqlite_items::Items;
use std::alloc::Global;

/// Those behind the ones that were found, from the least on.
fn more_members(
    cursor: &mut Cursor<'_>,
    mut found: Items<u32>,
    lead: &[u8],
    between: u8,
    end: u8,
    rising: bool,
) -> Result<Items<u32>, Failure>
    requires { AreMarks between end }
    ensures { Reads (read (loop (member lead.now between end rising) (found, 0)) cursor.old) result cursor.new }
{
    let mut least = 0;
    for _ in 0..cursor.left() + 1 {
        word(cursor, lead)?;
        let ends = End::Member {
            between,
            end,
            rising,
        };
        let (value, ended) = number(cursor, least, GREATEST, ends)?;
        found.push(value as u32)?;
        if ended {
            return Ok(found);
        }
        least = if rising { value + 1 } else { 0 };
    }
    Err(Failure::At(cursor.left()))
}

/// One number or more.
pub fn members(
    alloc: Global,
    cursor: &mut Cursor<'_>,
    lead: &[u8],
    between: u8,
    end: u8,
    rising: bool,
) -> Result<Items<u32>, Failure>
    requires { AreMarks between end }
    ensures { Reads (read (members_format lead.now between end rising) cursor.old) result cursor.new }
{
    more_members(cursor, Items::new(alloc), lead, between, end, rising)
}

/// Whether a number comes, or the end.
#[tactic(auto, unfolding(crate::specs::tools::Format::read_byte))]
fn has_more(cursor: &mut Cursor<'_>, between: u8, end: u8, rising: bool) -> Result<bool, Failure>
    ensures { Reads (read (byte_format (has_more_of between end rising)) cursor.old) result cursor.new }
{
    let left = cursor.left();
    match cursor.next() {
        None => Err(Failure::At(0)),
        Some(byte) => {
            if byte == end {
                Ok(false)
            } else if byte == between {
                Ok(true)
            } else {
                Err(Failure::At(left))
            }
        }
    }
}

/// As many numbers as there are, none too.
pub fn any_members(
    alloc: Global,
    cursor: &mut Cursor<'_>,
    lead: &[u8],
    between: u8,
    end: u8,
    rising: bool,
) -> Result<Items<u32>, Failure>
    requires { AreMarks between end }
    ensures { Reads (read (any_format lead.now between end rising) cursor.old) result cursor.new }
{
    if has_more(cursor, between, end, rising)? {
        members(alloc, cursor, lead, between, end, rising)
    } else {
        Ok(Items::new(alloc))
    }
}

/// The numbers behind one that is the last or not.
fn rest(
    alloc: Global,
    cursor: &mut Cursor<'_>,
    lead: &[u8],
    between: u8,
    end: u8,
    rising: bool,
    ended: bool,
) -> Result<Items<u32>, Failure>
    requires { AreMarks between end }
    ensures { Reads (read (rest_of lead.now between end rising ended) cursor.old) result cursor.new }
{
    if ended {
        Ok(Items::new(alloc))
    } else {
        members(alloc, cursor, lead, between, end, rising)
    }
}

/// A number, and as many as come behind it.
pub fn number_and_members(
    alloc: Global,
    cursor: &mut Cursor<'_>,
    lead: &[u8],
    between: u8,
    end: u8,
    rising: bool,
) -> Result<(u32, Items<u32>), Failure>
    requires { AreMarks between end }
    ensures { Reads (read (listed lead.now between end rising) cursor.old) result cursor.new }
{
    let ends = End::Member {
        between,
        end,
        rising: false,
    };
    let (first, ended) = number(cursor, 0, GREATEST, ends)?;
    let others = rest(alloc, cursor, lead, between, end, rising, ended)?;
    Ok((first as u32, others))
}

/// A number behind one that is not the last.
fn option(
    cursor: &mut Cursor<'_>,
    between: u8,
    end: u8,
    ended: bool,
) -> Result<Option<u32>, Failure>
    ensures { Reads (read (option_of between end ended) cursor.old) result cursor.new }
{
    if ended {
        Ok(None)
    } else {
        Ok(Some(number_and(cursor, end, 0, GREATEST)? as u32))
    }
}

/// A number, and one more or none.
pub fn number_and_option(
    cursor: &mut Cursor<'_>,
    between: u8,
    end: u8,
) -> Result<(u32, Option<u32>), Failure>
    ensures { Reads (read (optional between end) cursor.old) result cursor.new }
{
    let ends = End::Member {
        between,
        end,
        rising: false,
    };
    let (first, ended) = number(cursor, 0, GREATEST, ends)?;
    let second = option(cursor, between, end, ended)?;
    Ok((first as u32, second))
}
