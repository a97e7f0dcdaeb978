//! Code, from drafts.

ghost use Rattle.std.specs.Prelude.{◌≡◌, reverse, IfOk};
ghost use Rattle.tac_lower.specs.CodeOf.{all_of, types_needed, code_with};
ghost use Rattle.tac_lower.specs.Shapes.{shapes_of};
ghost use Rattle.tac_lower.specs.tools.Interning.{AreFew, joined};

use crate::draft::Draft;
use crate::structs::Structs;
use crate::types::Interner;
use c_typed::{Function, Typed};
use dfi_base::Memory;
use sqlite_items::Items;
use std::alloc::Global;
use tac_ir::{Code, Fun, Lined};

/// The items, the last one first.
pub(crate) fn reversed<T: Drop>(alloc: Global, items: Items<T>) -> Result<Items<T>, Memory>
    ensures { IfOk result (λ turned. turned ≡ reverse items) }
{
    let mut items = items;
    let mut turned = Items::new(alloc);
    while let Some(item) = items.pop() {
        turned.push(item)?;
    }
    Ok(turned)
}

/// The functions, of the shapes of their variables and their lines.
fn join(
    alloc: Global,
    functions: &[Function],
    frames: Items<Items<u32>>,
    lines: Items<Items<Lined>>,
) -> Result<Items<Fun>, Memory>
    ensures { IfOk result (λ made. made ≡ joined functions.now frames lines) }
{
    let mut frames = reversed(alloc, frames)?;
    let mut lines = reversed(alloc, lines)?;
    let mut funs = Items::new(alloc);
    for function in functions {
        let (Some(vars), Some(code)) = (frames.pop(), lines.pop()) else {
            break;
        };
        funs.push(Fun {
            params: function.parameters,
            vars,
            code,
            line: function.line.0,
        })?;
    }
    Ok(funs)
}

/// The code of a program, of the drafts of its functions.
pub(crate) fn finish(
    alloc: Global,
    program: &Typed,
    drafts: Items<Items<Draft>>,
) -> Result<Code, Memory>
    requires { AreFew (shapes_of program.now.structs (types_needed program.now (all_of drafts))) }
    ensures { IfOk result (λ code. code ≡ code_with program.now drafts) }
{
    let items = program.structs.as_slice();
    let structs = Structs::new(alloc, items);
    let functions = program.functions.as_slice();
    let mut interner = Interner::new(&structs)?;
    let globals = interner.globals(&structs, program.globals.as_slice())?;
    let frames = interner.frames(&structs, functions)?;
    let sites = interner.sites(&structs, drafts.as_slice())?;
    let lines = interner.lines(&structs, drafts)?;
    let funs = join(alloc, functions, frames, lines)?;
    let shapes = interner.shapes.into_items(alloc)?;
    Ok(Code {
        shapes,
        globals,
        sites,
        main: program.main,
        funs,
    })
}
