//! A line for each value, and their number before them.

ghost use Rattle.std.specs.Prelude.{◌≡◌, ◌++◌, ◌∷◌, [], ◌≤◌, ℕ, List, OnOk, IfErr, length};
ghost use Rattle.std.specs.List.{All};
ghost use Rattle.std.specs.Fmt.{decimal};
ghost use Rattle.std.specs.String.{string_bytes};
ghost use Rattle.line_format.specs.Lines.{greatest, line, lines as lines_text};
ghost use Rattle.line_writer.specs.Writes.{Writes, Passes};
ghost use Rattle.line_writer.specs.declared.fault.WriteFault.{WriteFault};

use crate::fault::{WriteFault, within_limit};
use dfi_base::Memory;

/// A kind of value that is written as a line.
pub trait Line {
    type Value;

    /// The words of the line.
    ghost words: { Self.Value → List (List ℕ) };

    /// What its type says of a value.
    ghost fits: { Self.Value → Type 0 };

    fn write(text: &mut String, value: &Self::Value) -> Result<(), Memory>
        ensures text { OnOk result (string_bytes text.new ≡ string_bytes text.old ++ line (words value.now) []) }
        ensures fit { OnOk result (fits value.now) };
}

/// A line for each.
pub fn lines<L: Line>(text: &mut String, values: &[L::Value]) -> Result<(), WriteFault>
    ensures text { OnOk result (Writes (lines_text L.words values.now) (string_bytes text.old) (string_bytes text.new)) }
    ensures long { IfErr result (λ fault. fault ≡ WriteFault.Long → Passes (lines_text L.words values.now) (string_bytes text.old)) }
    ensures fit { OnOk result (All L.fits values.now) }
    ensures few { OnOk result (length values.now ≤ greatest) }
{
    for value in values {
        L::write(text, value)?;
        within_limit(text)?;
    }
    Ok(())
}

/// How many there are behind a name.
pub fn count(text: &mut String, name: &str, many: usize) -> Result<(), Memory>
    ensures { OnOk result (Writes (line (name.now ∷ decimal many ∷ [])) (string_bytes text.old) (string_bytes text.new)) }
{
    writeln!(text, "{name} {many}")?;
    Ok(())
}

/// How many there are behind a name, and a line for each.
pub fn section<L: Line>(
    text: &mut String,
    name: &str,
    values: &[L::Value],
) -> Result<(), WriteFault>
    ensures text { OnOk result (Writes (λ rest. line (name.now ∷ decimal (length values.now) ∷ []) (lines_text L.words values.now rest)) (string_bytes text.old) (string_bytes text.new)) }
    ensures long { IfErr result (λ fault. fault ≡ WriteFault.Long → Passes (λ rest. line (name.now ∷ decimal (length values.now) ∷ []) (lines_text L.words values.now rest)) (string_bytes text.old)) }
    ensures fit { OnOk result (All L.fits values.now) }
    ensures few { OnOk result (length values.now ≤ greatest) }
{
    count(text, name, values.len())?;
    lines::<L>(text, values)
}
