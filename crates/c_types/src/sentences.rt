//! Statements of operands that are whole.

ghost use Rattle.std.specs.Prelude.{◌≡◌, Ok, Some, None};
ghost use Rattle.c_typed.specs.declared.stmt.Stmt.TheOpen.{Stmt-F};
ghost use Rattle.c_typed.specs.Faults as faults;
ghost use Rattle.c_typed.specs.Stmts as defined;
ghost use Rattle.c_types.specs.tools.Steps.{Finds, kept};

use crate::held::refused;
use c_ast::AssignOp;
use c_typed::{Condition, Expr, ExprType, ObjectType, Stmt, TypeFault};
use dfi_base::Line;
use std::alloc::Global;

/// What is tested.
pub fn tested(line: Line, e: Expr) -> Result<Condition, TypeFault>
    ensures { Finds result (kept faults.mismatch line (defined.tested line e)) }
{
    if !e.typing.is_truth() {
        return refused(e, TypeFault::Mismatch { line });
    }
    Ok(Condition { line, value: e })
}

fn moves(op: AssignOp) -> bool
    ensures { result ≡ defined.moves op }
{
    matches!(op, AssignOp::Add | AssignOp::Sub)
}

fn compounds(op: AssignOp, target: &ExprType, value: &ExprType) -> bool
    ensures { result ≡ defined.compounds op target.now value.now }
{
    match (target, value) {
        (_, ExprType::Void) => false,
        (ExprType::Unknown, _) | (_, ExprType::Unknown) => true,
        (ExprType::Int, ExprType::Int) => true,
        (ExprType::Pointer(_), ExprType::Int) => moves(op),
        _ => false,
    }
}

fn assigns(op: AssignOp, target: &ExprType, value: &ExprType) -> bool
    ensures { result ≡ defined.assigns_scalar op target.now value.now }
{
    match op {
        AssignOp::Plain => value.suits(target),
        _ => compounds(op, target, value),
    }
}

/// The type of what stands at a scalar place.
fn scalar_at(alloc: Global, typing: &ExprType) -> Option<ExprType>
    ensures { result ≡ defined.scalar_at typing.now }
{
    match typing {
        ExprType::Place(object) => object.scalar(alloc),
        ExprType::Unknown => Some(ExprType::Unknown),
        _ => None,
    }
}

pub fn assigned(
    alloc: Global,
    line: Line,
    op: AssignOp,
    target: Expr,
    value: Expr,
) -> Result<Stmt, TypeFault>
    ensures { Finds result (kept faults.mismatch line (defined.assigned line op target value)) }
{
    let Some(scalar) = scalar_at(alloc, &target.typing) else {
        return refused((target, value), TypeFault::Mismatch { line });
    };
    if !assigns(op, &scalar, &value.typing) {
        return refused((target, value), TypeFault::Mismatch { line });
    }
    Ok(Stmt::Assign {
        line,
        target,
        op,
        value,
    })
}

/// `++`
pub fn incremented(alloc: Global, line: Line, target: Expr) -> Result<Stmt, TypeFault>
    ensures { Finds result
        (kept faults.mismatch line (defined.counted target (Stmt-F.Increment line target))) }
{
    match scalar_at(alloc, &target.typing) {
        None => refused(target, TypeFault::Mismatch { line }),
        Some(_) => Ok(Stmt::Increment { line, target }),
    }
}

/// `--`
pub fn decremented(alloc: Global, line: Line, target: Expr) -> Result<Stmt, TypeFault>
    ensures { Finds result
        (kept faults.mismatch line (defined.counted target (Stmt-F.Decrement line target))) }
{
    match scalar_at(alloc, &target.typing) {
        None => refused(target, TypeFault::Mismatch { line }),
        Some(_) => Ok(Stmt::Decrement { line, target }),
    }
}

/// A `return` of a function with this result.
pub fn returned(
    alloc: Global,
    line: Line,
    result_type: &Option<ObjectType>,
    value: Option<Expr>,
) -> Result<Stmt, TypeFault>
    ensures { Finds result (kept faults.mismatch line (defined.returns line result_type.now value)) }
{
    let fits = match (result_type, &value) {
        (None, None) => true,
        (Some(object), Some(e)) => object.takes(alloc, &e.typing),
        _ => false,
    };
    if !fits {
        return refused(value, TypeFault::Mismatch { line });
    }
    Ok(Stmt::Return { line, value })
}
