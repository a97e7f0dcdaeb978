//! Words of the tables and of the first line.

ghost use Rattle.std.specs.Prelude.{◌≡◌};
ghost use Rattle.line_format.specs.tools.Format.{read};
ghost use Rattle.line_format.specs.tools.Words.{one_of as one_format};
ghost use Rattle.line_format.specs.tools.Reads.{Reads};
ghost use Rattle.text_law.specs.tools.Parts.{check_words};
ghost use Rattle.text_law.specs.tools.Whole.{sizes};

use line_format::{Cursor, Failure, one_of};
use tac_ir::Size;

const CHECK_WORDS: [(&str, bool); 2] = [("checked", false), ("removed", true)];

const SIZES: [(&str, Size); 2] = [("dfimod 2\n", Size::Small), ("dfimod 3\n", Size::Large)];

/// Whether the read goes unchecked.
pub(crate) fn check_word(cursor: &mut Cursor<'_>) -> Result<bool, Failure>
    ensures { Reads (read (one_format check_words) cursor.old) result cursor.new }
{
    one_of(cursor, &CHECK_WORDS)
}

/// The first line.
pub(crate) fn first_line(cursor: &mut Cursor<'_>) -> Result<Size, Failure>
    ensures { Reads (read (one_format sizes) cursor.old) result cursor.new }
{
    one_of(cursor, &SIZES)
}
