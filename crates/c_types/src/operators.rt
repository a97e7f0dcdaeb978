//! The types of operators between two operands (C99 6.5.5 to 6.5.14).

ghost use Rattle.std.specs.Prelude.{◌≡◌, IfOk};
ghost use Rattle.c_typed.specs.Exprs as defined;

use c_ast::BinaryOp;
use c_typed::ExprType;
use std::alloc::{AllocError, Global};

fn of_ints(left: &ExprType, right: &ExprType) -> Option<ExprType>
    ensures { result ≡ defined.of_ints left.now right.now }
{
    match (left, right) {
        (ExprType::Int, ExprType::Int) => Some(ExprType::Int),
        _ => None,
    }
}

fn of_truths(left: &ExprType, right: &ExprType) -> Option<ExprType>
    ensures { result ≡ defined.of_truths left.now right.now }
{
    if left.is_truth() && right.is_truth() {
        Some(ExprType::Int)
    } else {
        None
    }
}

fn of_sum(alloc: Global, left: &ExprType, right: &ExprType) -> Result<Option<ExprType>, AllocError>
    ensures { IfOk result (λ t. t ≡ defined.of_sum left.now right.now) }
{
    match (left, right) {
        (ExprType::Int, ExprType::Int) => Ok(Some(ExprType::Int)),
        (ExprType::Pointer(object), ExprType::Int) => Ok(Some(ExprType::Pointer(object.copy(
            alloc,
        )?))),
        (ExprType::Int, ExprType::Pointer(object)) => Ok(Some(ExprType::Pointer(object.copy(
            alloc,
        )?))),
        _ => Ok(None),
    }
}

fn of_difference(
    alloc: Global,
    left: &ExprType,
    right: &ExprType,
) -> Result<Option<ExprType>, AllocError>
    ensures { IfOk result (λ t. t ≡ defined.of_difference left.now right.now) }
{
    match (left, right) {
        (ExprType::Int, ExprType::Int) => Ok(Some(ExprType::Int)),
        (ExprType::Pointer(object), ExprType::Int) => Ok(Some(ExprType::Pointer(object.copy(
            alloc,
        )?))),
        _ => Ok(None),
    }
}

fn are_equal_types(left: &ExprType, right: &ExprType) -> bool
    ensures { result ≡ defined.are_equal_types left.now right.now }
{
    match (left, right) {
        (ExprType::Null, ExprType::Null) => true,
        _ => left.suits(right) || right.suits(left),
    }
}

fn of_equality(left: &ExprType, right: &ExprType) -> Option<ExprType>
    ensures { result ≡ defined.of_equality left.now right.now }
{
    if are_equal_types(left, right) {
        Some(ExprType::Int)
    } else {
        None
    }
}

/// The type of what an operator makes of operands of these types.
pub fn binary_type(
    alloc: Global,
    op: BinaryOp,
    left: &ExprType,
    right: &ExprType,
) -> Result<Option<ExprType>, AllocError>
    ensures { IfOk result (λ t. t ≡ defined.binary_type op left.now right.now) }
{
    match op {
        BinaryOp::Or | BinaryOp::And => Ok(of_truths(left, right)),
        BinaryOp::Equal | BinaryOp::NotEqual => Ok(of_equality(left, right)),
        BinaryOp::Add => of_sum(alloc, left, right),
        BinaryOp::Sub => of_difference(alloc, left, right),
        _ => Ok(of_ints(left, right)),
    }
}
