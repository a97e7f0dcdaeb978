//! Words that must stand as they are.

ghost use Rattle.line_format.specs.tools.Format.{read, byte as byte_format};
ghost use Rattle.line_format.specs.tools.Words.{exactly, word as word_format};
ghost use Rattle.line_format.specs.tools.Reads.{Reads};

use crate::cursor::{Cursor, Failure};

/// These bytes.
pub fn word(cursor: &mut Cursor<'_>, text: &[u8]) -> Result<(), Failure>
    ensures { Reads (read (word_format text.now) cursor.old) result cursor.new }
{
    for byte in text {
        exact_byte(cursor, *byte)?;
    }
    Ok(())
}

#[tactic(auto, unfolding(crate::specs::tools::Format::read_byte))]
fn exact_byte(cursor: &mut Cursor<'_>, byte: u8) -> Result<(), Failure>
    ensures { Reads (read (byte_format (exactly byte)) cursor.old) result cursor.new }
{
    let left = cursor.left();
    match cursor.next() {
        None => Err(Failure::At(0)),
        Some(found) => {
            if found == byte {
                Ok(())
            } else {
                Err(Failure::At(left))
            }
        }
    }
}
