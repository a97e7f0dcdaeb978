//! Functions with their sites numbered.

ghost use Rattle.std.specs.Prelude.{◌≡◌, IfOk, IfErr, map};
ghost use Rattle.c_typed.specs.declared.fault.TypeFault.{TypeFault};
ghost use Rattle.c_typed.specs.Sites.{function, in_turn, numbered};
ghost use Rattle.c_sites.specs.tools.Numbers.{Numbers};

use crate::stmts::body;
use c_typed::{Function, ObjectType, TypeFault, Variable};
use sqlite_items::Items;
use std::alloc::{AllocError, Global};

fn copy_variables(alloc: Global, variables: &[Variable]) -> Result<Items<Variable>, AllocError>
    ensures { IfOk result (λ vs. vs ≡ variables.now) }
{
    let mut copies = Items::new(alloc);
    for variable in variables {
        copies.push(Variable {
            line: variable.line,
            object: variable.object.copy(alloc)?,
        })?;
    }
    Ok(copies)
}

fn copy_result(alloc: Global, object: &Option<ObjectType>) -> Result<Option<ObjectType>, AllocError>
    ensures { IfOk result (λ o. o ≡ object.now) }
{
    match object {
        None => Ok(None),
        Some(object) => Ok(Some(object.copy(alloc)?)),
    }
}

fn number_function(alloc: Global, f: &Function, next: &mut u32) -> Result<Function, TypeFault>
    ensures { Numbers result next.old next.new (function f.now) }
{
    let result = copy_result(alloc, &f.result)?;
    let variables = copy_variables(alloc, f.variables.as_slice())?;
    let body = body(alloc, f.body.as_slice(), next)?;
    Ok(Function {
        line: f.line,
        result,
        parameters: f.parameters,
        variables,
        body,
        close: f.close,
    })
}

fn number_from(
    alloc: Global,
    functions: &[Function],
    next: &mut u32,
) -> Result<Items<Function>, TypeFault>
    ensures { Numbers result next.old next.new (in_turn (map function functions.now)) }
{
    let mut numbered = Items::new(alloc);
    for f in functions {
        numbered.push(number_function(alloc, f, next)?)?;
    }
    Ok(numbered)
}

/// The functions of a program with their heap sites numbered from 0, in the order of the code.
pub fn number(alloc: Global, functions: &[Function]) -> Result<Items<Function>, TypeFault>
    ensures numbered { IfOk result (λ fs. fs ≡ numbered functions.now) }
    ensures memory { IfErr result (λ e. e ≡ TypeFault.Memory) }
{
    let mut next = 0;
    number_from(alloc, functions, &mut next)
}
