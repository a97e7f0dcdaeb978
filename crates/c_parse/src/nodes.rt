//! Expressions with what stands in them on the heap.

ghost use Rattle.std.specs.Prelude.{◌≡◌, IfOk};
ghost use Rattle.c_parse.specs.Nodes as spec;

use c_ast::{BinaryOp, Expr, Form, Ident, TypeName, UnaryOp};
use dfi_base::Line;
use sqlite_items::Boxed;
use std::alloc::{AllocError, Global};

pub fn binary(
    alloc: Global,
    line: Line,
    left: Expr,
    op: BinaryOp,
    right: Expr,
) -> Result<Expr, AllocError>
    ensures { IfOk result (λ e. e ≡ spec.Binary line left op right) }
{
    let left = Boxed::new(alloc, left)?;
    let right = Boxed::new(alloc, right)?;
    let form = Form::Binary { left, op, right };
    Ok(Expr { line, form })
}

pub fn unary(alloc: Global, line: Line, op: UnaryOp, operand: Expr) -> Result<Expr, AllocError>
    ensures { IfOk result (λ e. e ≡ spec.Unary line op operand) }
{
    let operand = Boxed::new(alloc, operand)?;
    let form = Form::Unary { op, operand };
    Ok(Expr { line, form })
}

pub fn cast(alloc: Global, line: Line, to: TypeName, operand: Expr) -> Result<Expr, AllocError>
    ensures { IfOk result (λ e. e ≡ spec.Cast line to operand) }
{
    let operand = Boxed::new(alloc, operand)?;
    let form = Form::Cast { to, operand };
    Ok(Expr { line, form })
}

pub fn index(alloc: Global, line: Line, array: Expr, index: Expr) -> Result<Expr, AllocError>
    ensures { IfOk result (λ e. e ≡ spec.Index line array index) }
{
    let array = Boxed::new(alloc, array)?;
    let index = Boxed::new(alloc, index)?;
    let form = Form::Index { array, index };
    Ok(Expr { line, form })
}

pub fn field(alloc: Global, line: Line, whole: Expr, field: Ident) -> Result<Expr, AllocError>
    ensures { IfOk result (λ e. e ≡ spec.Field line whole field) }
{
    let whole = Boxed::new(alloc, whole)?;
    let form = Form::Field { whole, field };
    Ok(Expr { line, form })
}

pub fn arrow(alloc: Global, line: Line, pointer: Expr, field: Ident) -> Result<Expr, AllocError>
    ensures { IfOk result (λ e. e ≡ spec.Arrow line pointer field) }
{
    let pointer = Boxed::new(alloc, pointer)?;
    let form = Form::Arrow { pointer, field };
    Ok(Expr { line, form })
}
