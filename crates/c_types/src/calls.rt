//! Calls whose arguments are whole.

ghost use Rattle.std.specs.Prelude.{◌≡◌, Err};
ghost use Rattle.c_typed.specs.declared.expr.Form.TheOpen.{Form-F};
ghost use Rattle.c_typed.specs.Faults as faults;
ghost use Rattle.c_typed.specs.Exprs as defined;
ghost use Rattle.c_types.specs.tools.Tables.{looked};
ghost use Rattle.c_types.specs.tools.ExprWalk as walk;
ghost use Rattle.c_types.specs.tools.Steps.{Finds, kept};

use crate::held::refused;
use crate::outline::{Outline, Signature};
use c_ast::Ident;
use c_typed::{Expr, ExprType, Form, ObjectType, TypeFault};
use dfi_base::Line;
use sqlite_items::Items;
use std::alloc::Global;

pub fn get_int(line: Line, values: Items<Expr>) -> Result<Expr, TypeFault>
    ensures { Finds result (kept faults.mismatch line (defined.asked Form-F.GetInt values)) }
{
    if !values.is_empty() {
        return Err(TypeFault::Mismatch { line });
    }
    Ok(Expr {
        typing: ExprType::Int,
        form: Form::GetInt,
    })
}

pub fn left(line: Line, values: Items<Expr>) -> Result<Expr, TypeFault>
    ensures { Finds result (kept faults.mismatch line (defined.asked Form-F.Left values)) }
{
    if !values.is_empty() {
        return Err(TypeFault::Mismatch { line });
    }
    Ok(Expr {
        typing: ExprType::Int,
        form: Form::Left,
    })
}

/// The only one of these.
fn only(values: Items<Expr>) -> Option<Expr>
    ensures { result ≡ walk.only values }
{
    let mut values = values;
    let last = values.pop()?;
    if values.is_empty() {
        Some(last)
    } else {
        drop(last);
        None
    }
}

/// What `putint` is asked for.
pub fn put_int(line: Line, values: Items<Expr>) -> Result<Expr, TypeFault>
    ensures { Finds result (kept faults.mismatch line (walk.put_only (walk.only values))) }
{
    let Some(e) = only(values) else {
        return Err(TypeFault::Mismatch { line });
    };
    if !matches!(e.typing, ExprType::Int | ExprType::Unknown) {
        return refused(e, TypeFault::Mismatch { line });
    }
    Ok(e)
}

/// What `free` is asked for.
pub fn free(line: Line, values: Items<Expr>) -> Result<Expr, TypeFault>
    ensures { Finds result (kept faults.mismatch line (walk.freed_only (walk.only values))) }
{
    let Some(e) = only(values) else {
        return Err(TypeFault::Mismatch { line });
    };
    if !matches!(
        e.typing,
        ExprType::Pointer(_) | ExprType::Null | ExprType::Unknown
    ) {
        return refused(e, TypeFault::Mismatch { line });
    }
    Ok(e)
}

/// A call without a value, where one stands.
pub fn no_value(asked: Result<Expr, TypeFault>) -> Result<Expr, TypeFault>
    ensures { result ≡ walk.unvalued asked }
{
    drop(asked?);
    Ok(Expr {
        typing: ExprType::Void,
        form: Form::Null,
    })
}

/// The fault of a call of `main`.
pub fn main_called(outline: &Outline, f: Ident) -> TypeFault
    ensures { Err result ≡ walk.main_call (looked outline.now.numbers f.name) f }
{
    match outline.numbers.get(f.name) {
        Some(_) => TypeFault::Mismatch { line: f.line },
        None => TypeFault::Unknown { line: f.line },
    }
}

/// Whether each parameter accepts its value.
fn all_fit(alloc: Global, values: &[Expr], parameters: &[ObjectType]) -> bool
    ensures { result ≡ defined.all_fit values.now parameters.now }
{
    if values.len() != parameters.len() {
        return false;
    }
    for i in 0..values.len() {
        if !parameters[i].accepts(alloc, &values[i].typing) {
            return false;
        }
    }
    true
}

/// A call of a function that the text defines.
pub fn apply(
    alloc: Global,
    line: Line,
    function: u32,
    signature: &Signature,
    arguments: Items<Expr>,
) -> Result<Expr, TypeFault>
    ensures { Finds result (kept faults.mismatch line (walk.applied function signature.now arguments)) }
{
    if !all_fit(alloc, arguments.as_slice(), signature.parameters.as_slice()) {
        return Err(TypeFault::Mismatch { line });
    }
    Ok(Expr {
        typing: called_type(alloc, &signature.result),
        form: Form::Call {
            function,
            arguments,
        },
    })
}

fn called_type(alloc: Global, object: &Option<ObjectType>) -> ExprType
    ensures { result ≡ defined.called_type object.now }
{
    match object {
        None => ExprType::Void,
        Some(object) => match object.scalar(alloc) {
            None => ExprType::Unknown,
            Some(v) => v,
        },
    }
}
