//! Places are written.

ghost use Rattle.std.specs.Prelude.{◌≡◌, ◌++◌, OnOk};
ghost use Rattle.std.specs.Fmt.{decimal};
ghost use Rattle.std.specs.String.{string_bytes};
ghost use Rattle.text_law.specs.ModuleText.{fields, place as place_text};
ghost use Rattle.text_law.specs.IsModule.{Is32Bits, Are32Bits, IsPlace};

use dfi_base::Memory;
use line_writer::numbers;
use tac_ir::Place;

fn variable(text: &mut String, kind: &str, var: u32, path: &[u32]) -> Result<(), Memory>
    ensures text { OnOk result (string_bytes text.new ≡ string_bytes text.old ++ (kind.now ++ (decimal var ++ fields path.now))) }
    ensures fit { OnOk result (Is32Bits var × Are32Bits path.now) }
{
    write!(text, "{kind}{var}")?;
    numbers(text, ".", path)
}

pub(crate) fn place(text: &mut String, place: &Place) -> Result<(), Memory>
    ensures text { OnOk result (string_bytes text.new ≡ string_bytes text.old ++ place_text place.now) }
    ensures fit { OnOk result (IsPlace place.now) }
{
    match place {
        Place::Global { var, path } => variable(text, "g", *var, path.as_slice()),
        Place::Local { var, path } => variable(text, "l", *var, path.as_slice()),
    }
}
