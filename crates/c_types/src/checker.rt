//! The check of a whole program.

ghost use Rattle.c_typed.specs.Checks.{Checks};

use crate::programs;
use c_ast::Ast;
use c_typed::{TypeFault, Typed};
use std::alloc::Global;

/// Types a program, or tells the first rule that it breaks: that of the earliest token, and at one token the first in the
/// order of `TypeFault`.
pub fn check(alloc: Global, ast: Ast) -> Result<Typed, TypeFault>
    ensures { Checks ast result }
{
    let program = programs::walk(alloc, ast.names.as_slice(), ast.items.as_slice(), ast.last)?;
    let functions = c_sites::number(alloc, program.functions.as_slice())?;
    Ok(Typed {
        structs: program.structs,
        globals: program.globals,
        functions,
        main: program.main,
    })
}
