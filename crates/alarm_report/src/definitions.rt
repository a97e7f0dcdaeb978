ghost use Rattle.std.specs.Prelude.{◌≡◌};
ghost use Rattle.tac_ir.specs.Layout;
ghost use Rattle.tac_ir.specs.Text;

use dfi_base::Point;
use tac_ir::{Code, Fun, Instr, Lined};

/// The line of a point, and 0 where there is no instruction.
pub(crate) fn line_at(code: &Code, point: Point) -> u32
    ensures { result ≡ Layout.line_at code.now point }
{
    let Some(fun) = code.funs.get(point.fun as usize) else {
        return 0;
    };
    match fun.code.get(point.at as usize) {
        Some(lined) => lined.line,
        None => 0,
    }
}

/// The line of a definition, and 0 where nothing defines it. The first definitions are those of the globals.
pub(crate) fn line_of_definition(code: &Code, def: usize) -> u32
    ensures { result ≡ Text.line_of_def code.now def }
{
    match code.globals.get(def.saturating_sub(1)) {
        Some(global) => global.line,
        None => line_in(code.funs.as_slice(), def),
    }
}

fn line_in(funs: &[Fun], def: usize) -> u32
    ensures { result ≡ Text.line_in funs.now def }
{
    for fun in funs {
        if let Some(line) = line_among(fun.code.as_slice(), def) {
            return line;
        }
    }
    0
}

fn line_among(lines: &[Lined], def: usize) -> Option<u32>
    ensures { result ≡ Text.line_among lines.now def }
{
    for lined in lines {
        if defines(&lined.instr, def) {
            return Some(lined.line);
        }
    }
    None
}

// Whether an instruction is this definition.
fn defines(instr: &Instr, def: usize) -> bool
    ensures { result ≡ Text.defines def instr.now }
{
    match instr {
        Instr::Set { def: own, .. }
        | Instr::Store { def: own, .. }
        | Instr::Call { def: own, .. } => { *own as usize == def }
        _ => false,
    }
}
