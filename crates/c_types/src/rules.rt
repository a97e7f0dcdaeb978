//! What an operator makes of operands that are whole.

ghost use Rattle.std.specs.Prelude.{◌≡◌, IfOk};
ghost use Rattle.c_typed.specs.Faults as faults;
ghost use Rattle.c_typed.specs.Exprs as defined;
ghost use Rattle.c_types.specs.tools.ExprWalk.{cast};
ghost use Rattle.c_types.specs.tools.Steps.{Finds, kept};

use crate::held::refused;
use crate::nodes;
use crate::operators::binary_type;
use c_ast::BinaryOp;
use c_typed::{Expr, ExprType, ObjectType, PrefixOp, TypeFault};
use dfi_base::Line;
use sqlite_items::Boxed;
use std::alloc::{AllocError, Global};

/// The value of an expression.
pub fn value(alloc: Global, line: Line, e: Expr) -> Result<Expr, TypeFault>
    ensures { Finds result (kept faults.mismatch line (defined.value_by_type e e.typing)) }
{
    let ExprType::Place(object) = &e.typing else {
        return Ok(e);
    };
    let is_array = !object.lengths.is_empty();
    match object.value(alloc) {
        Ok(Some(typing)) if is_array => Ok(nodes::decay(alloc, typing, e)?),
        Ok(Some(typing)) => Ok(nodes::read(alloc, typing, e)?),
        Ok(None) => refused(e, TypeFault::Mismatch { line }),
        Err(_) => refused(e, TypeFault::Memory),
    }
}

/// The expression as a place.
pub fn place(line: Line, e: Expr) -> Result<Expr, TypeFault>
    ensures { Finds result (kept faults.not_lvalue line (defined.place_by_type e e.typing)) }
{
    if matches!(e.typing, ExprType::Place(_) | ExprType::Unknown) {
        Ok(e)
    } else {
        refused(e, TypeFault::NotLvalue { line })
    }
}

/// `+e`
pub fn plus(line: Line, e: Expr) -> Result<Expr, TypeFault>
    ensures { Finds result (kept faults.mismatch line (defined.plus e e.typing)) }
{
    if matches!(e.typing, ExprType::Int | ExprType::Unknown) {
        Ok(e)
    } else {
        refused(e, TypeFault::Mismatch { line })
    }
}

/// `-e` and `~e`
pub fn int_prefix(alloc: Global, line: Line, op: PrefixOp, e: Expr) -> Result<Expr, TypeFault>
    ensures { Finds result (kept faults.mismatch line (defined.int_prefix op e e.typing)) }
{
    if e.typing.is_unknown() {
        return Ok(nodes::prefix(alloc, ExprType::Unknown, op, e)?);
    }
    if matches!(e.typing, ExprType::Int) {
        Ok(nodes::prefix(alloc, ExprType::Int, op, e)?)
    } else {
        refused(e, TypeFault::Mismatch { line })
    }
}

/// `!e`
pub fn negation(alloc: Global, line: Line, e: Expr) -> Result<Expr, TypeFault>
    ensures { Finds result (kept faults.mismatch line (defined.negation e)) }
{
    if e.typing.is_unknown() {
        return Ok(nodes::prefix(alloc, ExprType::Unknown, PrefixOp::Not, e)?);
    }
    if e.typing.is_truth() {
        Ok(nodes::prefix(alloc, ExprType::Int, PrefixOp::Not, e)?)
    } else {
        refused(e, TypeFault::Mismatch { line })
    }
}

/// `*e`
pub fn pointed_at(alloc: Global, line: Line, e: Expr) -> Result<Expr, TypeFault>
    ensures { Finds result (kept faults.mismatch line (defined.pointed_at e e.typing)) }
{
    if e.typing.is_unknown() {
        return Ok(nodes::deref(alloc, ExprType::Unknown, e)?);
    }
    let ExprType::Pointer(object) = &e.typing else {
        return refused(e, TypeFault::Mismatch { line });
    };
    match object.copy(alloc) {
        Ok(object) => Ok(nodes::deref(alloc, ExprType::Place(object), e)?),
        Err(_) => refused(e, TypeFault::Memory),
    }
}

/// `&e`
pub fn address(alloc: Global, line: Line, e: Expr) -> Result<Expr, TypeFault>
    ensures { Finds result (kept faults.mismatch line (defined.address e e.typing)) }
{
    if e.typing.is_unknown() {
        return Ok(nodes::address(alloc, ExprType::Unknown, e)?);
    }
    let ExprType::Place(object) = &e.typing else {
        return refused(e, TypeFault::Mismatch { line });
    };
    if !object.lengths.is_empty() {
        return refused(e, TypeFault::Mismatch { line });
    }
    match object.copy(alloc) {
        Ok(object) => Ok(nodes::address(alloc, ExprType::Pointer(object), e)?),
        Err(_) => refused(e, TypeFault::Memory),
    }
}

/// `e[i]`
pub fn item_at(
    alloc: Global,
    line: Line,
    pointer: Boxed<Expr>,
    index: Expr,
) -> Result<Expr, TypeFault>
    ensures { Finds result (kept faults.mismatch line (defined.item_at pointer index pointer.typing index.typing)) }
{
    if pointer.get().typing.is_unknown() || index.typing.is_unknown() {
        return Ok(nodes::index(alloc, ExprType::Unknown, pointer, index)?);
    }
    let ExprType::Pointer(object) = &pointer.get().typing else {
        return refused((pointer, index), TypeFault::Mismatch { line });
    };
    if !matches!(index.typing, ExprType::Int) {
        return refused((pointer, index), TypeFault::Mismatch { line });
    }
    match object.copy(alloc) {
        Ok(object) => Ok(nodes::index(alloc, ExprType::Place(object), pointer, index)?),
        Err(_) => refused((pointer, index), TypeFault::Memory),
    }
}

/// An operator between two operands.
pub fn binary(
    alloc: Global,
    line: Line,
    op: BinaryOp,
    left: Boxed<Expr>,
    right: Expr,
) -> Result<Expr, TypeFault>
    ensures { Finds result (kept faults.mismatch line (defined.binary op left right)) }
{
    if left.get().typing.is_unknown() || right.typing.is_unknown() {
        return Ok(nodes::binary(alloc, ExprType::Unknown, left, op, right)?);
    }
    match binary_type(alloc, op, &left.get().typing, &right.typing) {
        Ok(Some(typing)) => Ok(nodes::binary(alloc, typing, left, op, right)?),
        Ok(None) => refused((left, right), TypeFault::Mismatch { line }),
        Err(_) => refused((left, right), TypeFault::Memory),
    }
}

/// A cast, which only stands before a call of `malloc`.
pub fn cast(
    alloc: Global,
    line: Line,
    allocates: bool,
    object: ObjectType,
    e: Expr,
) -> Result<Expr, TypeFault>
    ensures { Finds result (kept faults.mismatch line (cast allocates object e)) }
{
    if allocates && object.takes(alloc, &e.typing) {
        Ok(e)
    } else {
        refused(e, TypeFault::Mismatch { line })
    }
}
