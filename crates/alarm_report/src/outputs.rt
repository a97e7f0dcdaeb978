ghost use Rattle.std.specs.Prelude.{◌≡◌, ◌++◌, OnOk};
ghost use Rattle.std.specs.List.{flat_map};
ghost use Rattle.std.specs.String.{string_bytes};
ghost use Rattle.tac_ir.specs.Text.{output_of};

use dfi_base::Memory;
use tac_ir::{Entry, Op};

/// Adds a line for each number that the entries put out.
pub(crate) fn push_outputs(text: &mut String, entries: &[Entry]) -> Result<(), Memory>
    ensures { OnOk result (string_bytes text.new
        ≡ string_bytes text.old ++ flat_map (λ e. output_of e.op) entries.now) }
{
    for entry in entries {
        push_output(text, entry.op)?;
    }
    Ok(())
}

fn push_output(text: &mut String, op: Op) -> Result<(), Memory>
    ensures { OnOk result (string_bytes text.new ≡ string_bytes text.old ++ output_of op) }
{
    if let Op::Out { value } = op {
        writeln!(text, "{value}")?;
    }
    Ok(())
}
