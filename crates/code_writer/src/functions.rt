//! Functions and whole code are written.

ghost use Rattle.std.specs.Prelude.{◌≡◌, ◌++◌, ◌∷◌, [], codes, OnOk, IfErr, length};
ghost use Rattle.std.specs.Fmt.{decimal};
ghost use Rattle.std.specs.String.{string_bytes};
ghost use Rattle.line_format.specs.Lines.{line as line_text, lines as lines_text};
ghost use Rattle.line_writer.specs.Writes.{Writes, Passes};
ghost use Rattle.line_writer.specs.declared.fault.WriteFault.{WriteFault};
ghost use Rattle.text_law.specs.ModuleText.{count as count_text, fun_text, funs_text, code_text};
ghost use Rattle.text_law.specs.IsModule.{Is32Bits, Counted, IsFun, IsCode};

use crate::instrs::InstrLine;
use crate::sections::{GlobalLine, ShapeLine, SiteLine, VarLine};
use dfi_base::Memory;
use line_writer::{WriteFault, count, lines, section, within_limit};
use tac_ir::{Code, Fun};

/// The numbers of a function: parameters, variables, instructions, line.
fn head(text: &mut String, params: u32, vars: usize, code: usize, line: u32) -> Result<(), Memory>
    ensures text { OnOk result (Writes (line_text (codes "function" ∷ decimal params ∷ decimal vars ∷ decimal code ∷ decimal line ∷ [])) (string_bytes text.old) (string_bytes text.new)) }
    ensures fit { OnOk result (Is32Bits params × Is32Bits line) }
{
    writeln!(text, "function {params} {vars} {code} {line}")?;
    Ok(())
}

fn fun(text: &mut String, fun: &Fun) -> Result<(), WriteFault>
    ensures text { OnOk result (Writes (fun_text fun.now) (string_bytes text.old) (string_bytes text.new)) }
    ensures long { IfErr result (λ fault. fault ≡ WriteFault.Long → Passes (fun_text fun.now) (string_bytes text.old)) }
    ensures fit { OnOk result (IsFun fun.now) }
{
    head(text, fun.params, fun.vars.len(), fun.code.len(), fun.line)?;
    lines::<VarLine>(text, fun.vars.as_slice())?;
    lines::<InstrLine>(text, fun.code.as_slice())
}

fn all_funs(text: &mut String, funs: &[Fun]) -> Result<(), WriteFault>
    ensures text { OnOk result (Writes (funs_text funs.now) (string_bytes text.old) (string_bytes text.new)) }
    ensures long { IfErr result (λ fault. fault ≡ WriteFault.Long → Passes (funs_text funs.now) (string_bytes text.old)) }
    ensures fit { OnOk result (Counted IsFun funs.now) }
{
    for each in funs {
        fun(text, each)?;
        within_limit(text)?;
    }
    Ok(())
}

/// How many functions there are, which is main, and they.
fn funs(text: &mut String, main: u32, funs: &[Fun]) -> Result<(), WriteFault>
    ensures text { OnOk result (Writes (λ rest. count_text (codes "functions") funs.now (line_text (codes "main" ∷ decimal main ∷ []) (funs_text funs.now rest))) (string_bytes text.old) (string_bytes text.new)) }
    ensures long { IfErr result (λ fault. fault ≡ WriteFault.Long → Passes (λ rest. count_text (codes "functions") funs.now (line_text (codes "main" ∷ decimal main ∷ []) (funs_text funs.now rest))) (string_bytes text.old)) }
    ensures fit { OnOk result (Is32Bits main × Counted IsFun funs.now) }
{
    count(text, "functions", funs.len())?;
    count(text, "main", main as usize)?;
    all_funs(text, funs)
}

/// The text of code.
pub fn code(text: &mut String, code: &Code) -> Result<(), WriteFault>
    ensures text { OnOk result (Writes (code_text code.now) (string_bytes text.old) (string_bytes text.new)) }
    ensures long { IfErr result (λ fault. fault ≡ WriteFault.Long → Passes (code_text code.now) (string_bytes text.old)) }
    ensures fit { OnOk result (IsCode code.now) }
{
    section::<ShapeLine>(text, "shapes", code.shapes.as_slice())?;
    section::<GlobalLine>(text, "globals", code.globals.as_slice())?;
    section::<SiteLine>(text, "sites", code.sites.as_slice())?;
    funs(text, code.main, code.funs.as_slice())
}
