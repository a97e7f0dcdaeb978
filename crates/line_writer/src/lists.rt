//! Numbers are written.

ghost use Rattle.std.specs.Prelude.{◌≡◌, ◌++◌, ◌∷◌, [], OnOk, false};
ghost use Rattle.std.specs.Fmt.{decimal};
ghost use Rattle.std.specs.List.{flat_map};
ghost use Rattle.std.specs.String.{string_bytes};
ghost use Rattle.line_format.specs.Lines.{Fit};

use dfi_base::Memory;

/// Each number, behind the same bytes.
pub fn numbers(text: &mut String, lead: &str, numbers: &[u32]) -> Result<(), Memory>
    ensures text { OnOk result (string_bytes text.new ≡ string_bytes text.old ++ flat_map (λ n. lead.now ++ decimal n) numbers.now) }
    ensures fit { OnOk result (Fit false 0 numbers.now) }
{
    for number in numbers {
        write!(text, "{lead}{number}")?;
    }
    Ok(())
}

/// Each number behind the same bytes, to the end of the line.
pub fn numbers_to_end(text: &mut String, lead: &str, list: &[u32]) -> Result<(), Memory>
    ensures text { OnOk result (string_bytes text.new ≡ string_bytes text.old ++ (flat_map (λ n. lead.now ++ decimal n) list.now ++ 10 ∷ [])) }
    ensures fit { OnOk result (Fit false 0 list.now) }
{
    numbers(text, lead, list)?;
    writeln!(text)?;
    Ok(())
}
