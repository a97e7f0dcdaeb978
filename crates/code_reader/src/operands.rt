//! What instructions are made of: numbers, temporaries, places.

ghost use Rattle.std.specs.Prelude.{◌≡◌};
ghost use Rattle.line_format.specs.tools.Format.{read};
ghost use Rattle.line_format.specs.tools.Members.{AreMarks};
ghost use Rattle.line_format.specs.tools.Reads.{Reads};
ghost use Rattle.text_law.specs.tools.Instrs.{number as number_format, temp as temp_format, pair, place as place_format, place_of as place_from};

use crate::words::place_word;
use line_format::{Cursor, Failure, GREATEST, number_and, number_and_members, word};
use sqlite_items::Items;
use std::alloc::Global;
use tac_ir::Place;

/// A number, and this byte behind it.
pub fn small(cursor: &mut Cursor<'_>, end: u8) -> Result<u32, Failure>
    ensures { Reads (read (number_format end) cursor.old) result cursor.new }
{
    Ok(number_and(cursor, end, 0, GREATEST)? as u32)
}

/// A temporary, and this byte behind it.
pub(crate) fn temp(cursor: &mut Cursor<'_>, end: u8) -> Result<u32, Failure>
    ensures { Reads (read (temp_format end) cursor.old) result cursor.new }
{
    word(cursor, b"t")?;
    small(cursor, end)
}

/// Two temporaries and a number, to the end of the line.
pub(crate) fn temps_and_number(cursor: &mut Cursor<'_>) -> Result<(u32, (u32, u32)), Failure>
    ensures { Reads (read (pair (temp_format 32) (pair (temp_format 32) (number_format 10))) cursor.old) result cursor.new }
{
    let first = temp(cursor, b' ')?;
    let second = temp(cursor, b' ')?;
    let number = small(cursor, b'\n')?;
    Ok((first, (second, number)))
}

fn place_of(global: bool, var: u32, path: Items<u32>) -> Place
    ensures { result ≡ place_from global (var, path) }
{
    if global {
        Place::Global { var, path }
    } else {
        Place::Local { var, path }
    }
}

/// A place, and this byte behind it.
pub(crate) fn place_and(alloc: Global, cursor: &mut Cursor<'_>, end: u8) -> Result<Place, Failure>
    requires { AreMarks 46 end }
    ensures { Reads (read (place_format end) cursor.old) result cursor.new }
{
    let global = place_word(cursor)?;
    let (var, path) = number_and_members(alloc, cursor, b"", b'.', end, false)?;
    Ok(place_of(global, var, path))
}
