//! A module is written as text.

ghost use Rattle.std.specs.Prelude.{◌≡◌, ◌<◌, ◌≤◌, ◌++◌, ◌∷◌, [], codes, OnOk, IfOk, IfErr, length};
ghost use Rattle.std.specs.String.{string_bytes};
ghost use Rattle.dfi_base.specs.Limits.{file_limit};
ghost use Rattle.line_format.specs.Lines.{line};
ghost use Rattle.line_writer.specs.Writes.{Writes, Passes};
ghost use Rattle.line_writer.specs.declared.fault.WriteFault.{WriteFault};
ghost use Rattle.text_law.specs.ModuleText.{module_text, text_then, version};
ghost use Rattle.text_law.specs.IsModule.{IsModule};
ghost use Rattle.text_law.specs.IsText.{IsText};

use crate::written::{classes, points, reach, sets};
use code_writer::code;
use dfi_base::Memory;
use line_writer::{WriteFault, within_limit};
use std::alloc::Global;
use tac_ir::{Module, Size};

fn first_line(text: &mut String, size: Size) -> Result<(), Memory>
    ensures { OnOk result (Writes (line (codes "dfimod" ∷ version size ∷ [])) (string_bytes text.old) (string_bytes text.new)) }
{
    match size {
        Size::Small => writeln!(text, "dfimod 2")?,
        Size::Large => writeln!(text, "dfimod 3")?,
    }
    Ok(())
}

fn last_line(text: &mut String) -> Result<(), Memory>
    ensures { OnOk result (Writes (line (codes "end" ∷ [])) (string_bytes text.old) (string_bytes text.new)) }
{
    writeln!(text, "end")?;
    Ok(())
}

fn whole_module(text: &mut String, m: &Module) -> Result<(), WriteFault>
    ensures text { OnOk result (Writes (text_then m.now) (string_bytes text.old) (string_bytes text.new)) }
    ensures long { IfErr result (λ fault. fault ≡ WriteFault.Long → Passes (text_then m.now) (string_bytes text.old)) }
    ensures fit { OnOk result (IsModule m.now) }
{
    first_line(text, m.size)?;
    code(text, &m.code)?;
    classes(text, m.classes.list.as_slice())?;
    sets(text, m.removed.as_slice(), m.sets.lists.as_slice())?;
    points(text, m.points.rows.as_slice())?;
    reach(text, m.reach.as_slice())?;
    last_line(text)?;
    Ok(())
}

/// The text of the module. It is given up with the first line that ends behind the limit.
pub fn write_module(alloc: Global, m: &Module) -> Result<Vec<u8>, WriteFault>
    ensures text { IfOk result (λ bytes. IsText bytes.items m.now) }
    ensures short { IfOk result (λ bytes. length bytes.items ≤ file_limit) }
    ensures long { IfErr result (λ fault. fault ≡ WriteFault.Long → file_limit < length (module_text m.now)) }
{
    let mut text = String::new(alloc);
    whole_module(&mut text, m)?;
    within_limit(&text)?;
    Ok(text.into_bytes())
}
