//! Statements of the source, form by form (C99 6.8, and `par`).

ghost use Rattle.std.specs.Prelude.{◌≡◌, map};
ghost use Rattle.c_types.specs.tools.ExprWalk.{expr_walk};
ghost use Rattle.c_typed.specs.declared.stmt.Stmt.TheOpen.{Stmt-F};
ghost use Rattle.c_typed.specs.Stmts as defined;
ghost use Rattle.c_types.specs.tools.Steps.{Finds, Leaves};
ghost use Rattle.c_types.specs.tools.StmtWalk as walk;

use crate::decls::local_decl;
use crate::held::refused;
use crate::known::{Around, Known};
use crate::outline::{Outline, Spelling};
use crate::{calls, exprs, sentences};
use c_ast::{AssignOp, Expr as SourceExpr, ForStart, Ident, Simple};
use c_typed::{Condition, Expr, Stmt, TypeFault};
use dfi_base::Line;
use sqlite_items::{Boxed, Items};
use std::alloc::Global;

/// A condition, an `int` or a pointer, before it is boxed.
fn test(
    alloc: Global,
    outline: &Outline,
    known: &Known,
    e: &SourceExpr,
) -> Result<Condition, TypeFault>
    ensures { Finds result (walk.condition_walk outline.now known.now e.now) }
{
    let value = exprs::value(alloc, outline, known, e)?;
    sentences::tested(e.line, value)
}

/// A condition.
pub fn condition(
    alloc: Global,
    outline: &Outline,
    known: &Known,
    e: &SourceExpr,
) -> Result<Boxed<Condition>, TypeFault>
    ensures { Finds result (walk.condition_walk outline.now known.now e.now) }
{
    Ok(Boxed::new(alloc, test(alloc, outline, known, e)?)?)
}

pub fn condition_there(
    alloc: Global,
    outline: &Outline,
    known: &Known,
    e: &Option<SourceExpr>,
) -> Result<Option<Boxed<Condition>>, TypeFault>
    ensures { Finds result (walk.condition_there_walk outline.now known.now e.now) }
{
    match e {
        None => Ok(None),
        Some(e) => Ok(Some(condition(alloc, outline, known, e)?)),
    }
}

/// The condition, out of its box.
pub fn unboxed(condition: Option<Boxed<Condition>>) -> Option<Condition>
    ensures { result ≡ condition }
{
    match condition {
        None => None,
        Some(condition) => Some(condition.into_inner()),
    }
}

fn assignment(
    alloc: Global,
    outline: &Outline,
    known: &Known,
    line: Line,
    target: &SourceExpr,
    op: AssignOp,
    value: &SourceExpr,
) -> Result<Stmt, TypeFault>
    ensures { Finds result
        (walk.assign_walk outline.now known.now line target.now op value.now) }
{
    let target = exprs::place(alloc, outline, known, target)?;
    match exprs::value(alloc, outline, known, value) {
        Ok(value) => sentences::assigned(alloc, line, op, target, value),
        Err(fault) => refused(target, fault),
    }
}

fn put_int(
    alloc: Global,
    outline: &Outline,
    known: &Known,
    line: Line,
    items: &[SourceExpr],
) -> Result<Stmt, TypeFault>
    ensures { Finds result
        (walk.put_walk line (map (expr_walk outline.now known.now) items.now)) }
{
    let values = exprs::arguments(alloc, outline, known, items)?;
    let value = calls::put_int(line, values)?;
    Ok(Stmt::PutInt { line, value })
}

fn free(
    alloc: Global,
    outline: &Outline,
    known: &Known,
    line: Line,
    items: &[SourceExpr],
) -> Result<Stmt, TypeFault>
    ensures { Finds result
        (walk.free_walk line (map (expr_walk outline.now known.now) items.now)) }
{
    let values = exprs::arguments(alloc, outline, known, items)?;
    let pointer = calls::free(line, values)?;
    Ok(Stmt::Free { line, pointer })
}

fn unused(
    alloc: Global,
    outline: &Outline,
    known: &Known,
    f: Ident,
    items: &[SourceExpr],
) -> Result<Stmt, TypeFault>
    ensures { Finds result
        (walk.unused_walk outline.now known.now f (map (expr_walk outline.now known.now) items.now)) }
{
    let line = f.line;
    let call = exprs::call(alloc, outline, known, line, f, items)?;
    Ok(Stmt::Call { line, call })
}

/// A call: `putint`, `free`, or any whose value goes unused.
fn call(
    alloc: Global,
    outline: &Outline,
    known: &Known,
    f: Ident,
    items: &[SourceExpr],
) -> Result<Stmt, TypeFault>
    ensures { Finds result
        (walk.call_walk outline.now known.now f (map (expr_walk outline.now known.now) items.now)) }
{
    if known.find(f.name).is_some() {
        return unused(alloc, outline, known, f, items);
    }
    match outline.spelling(f.name) {
        Spelling::PutInt => put_int(alloc, outline, known, f.line, items),
        Spelling::Free => free(alloc, outline, known, f.line, items),
        _ => unused(alloc, outline, known, f, items),
    }
}

/// A simple statement.
pub fn simple(
    alloc: Global,
    outline: &Outline,
    known: &Known,
    s: &Simple,
) -> Result<Stmt, TypeFault>
    ensures { Finds result (walk.simple_walk outline.now known.now s.now) }
{
    match s {
        Simple::Assign {
            line,
            target,
            op,
            value,
        } => assignment(alloc, outline, known, *line, target, *op, value),
        Simple::Increment { line, target } | Simple::PreIncrement { line, target } => {
            let target = exprs::place(alloc, outline, known, target)?;
            sentences::incremented(alloc, *line, target)
        }
        Simple::Decrement { line, target } | Simple::PreDecrement { line, target } => {
            let target = exprs::place(alloc, outline, known, target)?;
            sentences::decremented(alloc, *line, target)
        }
        Simple::Call {
            function,
            arguments,
        } => call(alloc, outline, known, *function, arguments.as_slice()),
    }
}

fn value_there(
    alloc: Global,
    outline: &Outline,
    known: &Known,
    e: &Option<SourceExpr>,
) -> Result<Option<Expr>, TypeFault>
    ensures { Finds result (walk.value_there_walk outline.now known.now e.now) }
{
    match e {
        None => Ok(None),
        Some(e) => Ok(Some(exprs::value(alloc, outline, known, e)?)),
    }
}

/// A `return`: inside a branch it is told before faults of its value, but behind a value of another type.
pub fn returned(
    alloc: Global,
    outline: &Outline,
    known: &Known,
    line: Line,
    in_branch: bool,
    e: &Option<SourceExpr>,
) -> Result<Stmt, TypeFault>
    ensures { Finds result
        (walk.returned line in_branch known.now.frame.result
        (walk.value_there_walk outline.now known.now e.now)) }
{
    match value_there(alloc, outline, known, e) {
        Ok(value) => {
            let s = sentences::returned(alloc, line, &known.frame.result, value)?;
            if in_branch {
                refused(s, TypeFault::Escape { line })
            } else {
                Ok(s)
            }
        }
        Err(TypeFault::Memory) => Err(TypeFault::Memory),
        Err(e) => Err(if in_branch {
            TypeFault::Escape { line }
        } else {
            e
        }),
    }
}

/// `break`: a loop stands round it, and no branch between.
pub fn break_loop(around: Around, line: Line) -> Result<Stmt, TypeFault>
    ensures { Finds result (walk.within_loop line (Stmt-F.Break line) around) }
{
    if around.in_loop {
        Ok(Stmt::Break { line })
    } else {
        Err(TypeFault::Escape { line })
    }
}

/// `continue`, as `break`.
pub fn continue_loop(around: Around, line: Line) -> Result<Stmt, TypeFault>
    ensures { Finds result (walk.within_loop line (Stmt-F.Continue line) around) }
{
    if around.in_loop {
        Ok(Stmt::Continue { line })
    } else {
        Err(TypeFault::Escape { line })
    }
}

/// The empty statement.
pub fn empty(alloc: Global) -> Stmt
    ensures { result ≡ defined.empty }
{
    Stmt::Block(Items::new(alloc))
}

/// The first part of a `for`, before it is boxed.
fn first_part(
    alloc: Global,
    outline: &Outline,
    known: &mut Known,
    first: &ForStart,
) -> Result<Stmt, TypeFault>
    ensures { Leaves result known.new (walk.start_walk outline.now first.now known.old) }
{
    match first {
        ForStart::Decl(d) => local_decl(alloc, outline, known, d),
        ForStart::Simple(None) => Ok(empty(alloc)),
        ForStart::Simple(Some(s)) => simple(alloc, outline, known, s),
    }
}

/// The first part of a `for`.
pub fn start(
    alloc: Global,
    outline: &Outline,
    known: &mut Known,
    first: &ForStart,
) -> Result<Boxed<Stmt>, TypeFault>
    ensures { Leaves result known.new (walk.start_walk outline.now first.now known.old) }
{
    Ok(Boxed::new(alloc, first_part(alloc, outline, known, first)?)?)
}

/// The last part of a `for`, before it is boxed.
fn last_part(
    alloc: Global,
    outline: &Outline,
    known: &Known,
    last: &Option<Simple>,
) -> Result<Stmt, TypeFault>
    ensures { Finds result (walk.step_walk outline.now known.now last.now) }
{
    match last {
        None => Ok(empty(alloc)),
        Some(s) => simple(alloc, outline, known, s),
    }
}

/// The last part of a `for`.
pub fn step(
    alloc: Global,
    outline: &Outline,
    known: &Known,
    last: &Option<Simple>,
) -> Result<Boxed<Stmt>, TypeFault>
    ensures { Finds result (walk.step_walk outline.now known.now last.now) }
{
    Ok(Boxed::new(alloc, last_part(alloc, outline, known, last)?)?)
}
