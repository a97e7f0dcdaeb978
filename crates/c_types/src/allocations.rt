//! Calls of `malloc`.

ghost use Rattle.std.specs.Prelude.{◌≡◌, IfOk};
ghost use Rattle.std.specs.Option.{option_copied};
ghost use Rattle.c_types.specs.declared.outline.Outline.{Outline};
ghost use Rattle.c_types.specs.declared.known.Known.{Known};
ghost use Rattle.c_typed.specs.declared.types.ExprType.{ExprType};
ghost use Rattle.c_typed.specs.declared.expr.Form.TheOpen.{Form-F};
ghost use Rattle.c_typed.specs.Exprs.{made};
ghost use Rattle.c_typed.specs.Faults as faults;
ghost use Rattle.c_types.specs.tools.Outlines.{means_malloc};
ghost use Rattle.c_types.specs.tools.ExprWalk as walk;
ghost use Rattle.c_types.specs.tools.Steps.{Finds, kept};

use crate::known::Known;
use crate::outline::{Outline, Spelling};
use c_ast::{BinaryOp, Expr as SourceExpr, Form as SourceForm, TypeName};
use c_typed::{Expr, ExprType, Form, ObjectType, TypeFault};
use dfi_base::Line;
use sqlite_items::Boxed;
use std::alloc::{AllocError, Global};

/// The name that an expression is a call of.
fn called(e: &SourceExpr) -> Option<u32>
    ensures { (o : Outline) (k : Known) → (walk.expr_walk o k e.now).calls ≡ result }
{
    match &e.form {
        SourceForm::Call { function, .. } => Some(function.name),
        _ => None,
    }
}

/// The type that an expression is `sizeof` of.
pub fn sized(e: &SourceExpr) -> Option<&TypeName>
    ensures { (o : Outline) (k : Known) → (walk.expr_walk o k e.now).sizeof
        ≡ walk.sizeof_as o k (option_copied result) }
{
    match &e.form {
        SourceForm::Sizeof(t) => Some(t),
        _ => None,
    }
}

pub fn is_mul(op: BinaryOp) -> bool
    ensures { result ≡ walk.is_mul op }
{
    matches!(op, BinaryOp::Mul)
}

fn means_malloc(outline: &Outline, known: &Known, name: u32) -> bool
    ensures { result ≡ means_malloc outline.now known.now name }
{
    match known.find(name) {
        Some(_) => false,
        None => matches!(outline.spelling(name), Spelling::Malloc),
    }
}

/// Whether an expression is a call of `malloc`.
pub fn is_malloc(outline: &Outline, known: &Known, e: &SourceExpr) -> bool
    ensures { result
        ≡ walk.calls_malloc outline.now known.now
        (walk.expr_walk outline.now known.now e.now).calls }
{
    match called(e) {
        None => false,
        Some(name) => means_malloc(outline, known, name),
    }
}

/// A call of `malloc` for `count` items, or for one.
pub fn allocated(
    alloc: Global,
    line: Line,
    item: ObjectType,
    count: Option<Boxed<Expr>>,
) -> Result<Expr, TypeFault>
    ensures { Finds result
        (kept faults.mismatch line (walk.allocated_by item count)) }
{
    match count {
        None => Ok(of_items(alloc, item, None)?),
        Some(e) => counted(alloc, line, item, e),
    }
}

/// A call of `malloc` for so many items.
fn counted(
    alloc: Global,
    line: Line,
    item: ObjectType,
    count: Boxed<Expr>,
) -> Result<Expr, TypeFault>
    ensures { Finds result (kept faults.mismatch line (walk.new_by item count count.typing)) }
{
    if !matches!(count.get().typing, ExprType::Int | ExprType::Unknown) {
        return Err(TypeFault::Mismatch { line });
    }
    Ok(of_items(alloc, item, Some(count))?)
}

/// Its site has no number yet.
fn of_items(alloc: Global, item: ObjectType, count: Option<Boxed<Expr>>) -> Result<Expr, AllocError>
    ensures { IfOk result (λ e. e ≡ made (ExprType.Pointer item) (Form-F.New 0 item count)) }
{
    Ok(Expr {
        typing: ExprType::Pointer(item.copy(alloc)?),
        form: Form::New {
            site: 0,
            item,
            count,
        },
    })
}
