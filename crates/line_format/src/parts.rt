//! A value as often as it is promised.

ghost use Rattle.std.specs.Prelude.{◌≡◌, []};
ghost use Rattle.line_format.specs.tools.Format.{Format, read, loop};
ghost use Rattle.line_format.specs.tools.Times.{next_one, times as times_format};
ghost use Rattle.line_format.specs.tools.Reads.{Reads};

use crate::cursor::{Cursor, Failure};
use sqlite_items::Items;
use std::alloc::Global;

/// A kind of value that is read from bytes.
pub trait Part {
    type Value: Drop;

    /// How it stands there.
    ghost format: { Format Self.Value };

    fn read(alloc: Global, cursor: &mut Cursor<'_>) -> Result<Self::Value, Failure>
        ensures { Reads (read format cursor.old) result cursor.new };
}

/// One, and as many as are owed behind it. Each takes a byte, so no more come than bytes are left.
fn next_times<P: Part>(
    alloc: Global,
    cursor: &mut Cursor<'_>,
    behind: u64,
) -> Result<Items<P::Value>, Failure>
    ensures { Reads (read (loop (next_one P.format) ([], behind)) cursor.old) result cursor.new }
{
    let mut found = Items::new(alloc);
    let mut owed = behind;
    for _ in 0..cursor.left() + 1 {
        let part = P::read(alloc, cursor)?;
        found.push(part)?;
        if owed == 0 {
            return Ok(found);
        }
        owed -= 1;
    }
    Err(Failure::At(cursor.left()))
}

/// So many.
pub fn times<P: Part>(
    alloc: Global,
    cursor: &mut Cursor<'_>,
    count: u64,
) -> Result<Items<P::Value>, Failure>
    ensures { Reads (read (times_format P.format count) cursor.old) result cursor.new }
{
    if count == 0 {
        Ok(Items::new(alloc))
    } else {
        next_times::<P>(alloc, cursor, count - 1)
    }
}
