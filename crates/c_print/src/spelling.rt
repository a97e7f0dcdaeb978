//! How a token is written.

ghost use Rattle.std.specs.Prelude.{◌≡◌, ◌++◌, OnOk, slice_get};
ghost use Rattle.c_print.specs.Spelling as spec;

use c_lex::{Kind, mark_text, word_text};
use dfi_base::{Memory, Text};
use itoa::Buffer;
use sqlite_items::Items;

/// The name of this number, and nothing where there is none.
fn name(names: &Items<Text>, number: u32) -> &[u8]
    ensures { result.now ≡ spec.of_name (slice_get names.now number) }
{
    match names.get(number as usize) {
        Some(name) => name.bytes(),
        None => b"",
    }
}

/// Writes a token behind the text.
pub fn spell(text: &mut Vec<u8>, names: &Items<Text>, kind: Kind) -> Result<(), Memory>
    ensures { OnOk result (text.new.items ≡ text.old.items ++ spec.spelled names.now kind) }
{
    match kind {
        Kind::Word(word) => text.extend_from_slice(word_text(word).as_bytes())?,
        Kind::Id(number) => text.extend_from_slice(name(names, number))?,
        Kind::Num(value) => text.extend_from_slice(Buffer::new().format(value).as_bytes())?,
        Kind::Mark(mark) => text.extend_from_slice(mark_text(mark).as_bytes())?,
    }
    Ok(())
}
