//! One word of a table.

ghost use Rattle.std.specs.Prelude.{◌≡◌, ◌≤◌, length, map, true};
ghost use Rattle.line_format.specs.tools.Format.{read};
ghost use Rattle.line_format.specs.tools.Words.{one_of as one_format, common as common_of, furthest as furthest_of, is_table};
ghost use Rattle.line_format.specs.tools.Reads.{Reads};

use crate::cursor::{Cursor, Failure};

/// How many bytes the two have in common from their fronts on.
fn common(word: &[u8], bytes: &[u8]) -> u64
    ensures answer { result ≡ common_of word.now bytes.now }
    ensures within { result ≤ length bytes.now }
{
    let most = word.len().min(bytes.len());
    for index in 0..most {
        if word[index] != bytes[index] {
            return index as u64;
        }
    }
    most as u64
}

/// How far some word of the table goes.
fn furthest<T: Copy>(table: &[(&str, T)], bytes: &[u8]) -> u64
    ensures answer { result ≡ furthest_of (map (λ row. (row.0.now, row.1)) table.now) bytes.now }
    ensures within { result ≤ length bytes.now }
{
    let mut most = 0;
    for row in table {
        most = most.max(common(row.0.as_bytes(), bytes));
    }
    most
}

/// What the word stands for that comes next.
pub fn one_of<T: Copy>(cursor: &mut Cursor<'_>, table: &[(&str, T)]) -> Result<T, Failure>
    requires { is_table (map (λ row. (row.0.now, row.1)) table.now) ≡ true }
    ensures { Reads (read (one_format (map (λ row. (row.0.now, row.1)) table.now)) cursor.old) result cursor.new }
{
    for row in table {
        if cursor.skip(row.0.as_bytes()) {
            return Ok(row.1);
        }
    }
    Err(Failure::At(cursor.left() - furthest(table, cursor.rest())))
}
