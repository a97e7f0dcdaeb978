//! Lowering a program.

ghost use Rattle.c_typed.specs.IsWell.{IsWell};
ghost use Rattle.tac_lower.specs.Lowers.{Lowers};

use crate::fault::LowerFault;
use crate::finish::finish;
use crate::functions::emit_functions;
use crate::limits::passed;
use c_typed::{Typed, typed_is_well};
use std::alloc::Global;
use tac_ir::Code;

/// Each typed program is well-formed.
fn known(program: &Typed)
    ensures { IsWell program.now }
{
    typed_is_well();
    let _main = program.main;
}

/// The code of a program, or the first limit that it passes.
pub fn lower(alloc: Global, program: &Typed) -> Result<Code, LowerFault>
    ensures { Lowers program.now result }
{
    known(program);
    let drafts = emit_functions(alloc, program)?;
    let code = finish(alloc, program, drafts)?;
    match passed(alloc, &code)? {
        None => Ok(code),
        Some(fault) => Err(fault),
    }
}
