//! Statements with their sites numbered, form by form.

ghost use Rattle.std.specs.Prelude.{map};
ghost use Rattle.c_typed.specs.Sites.{stmt, condition, condition_there, expr_there, in_turn};
ghost use Rattle.c_sites.specs.tools.Numbers.{Numbers, sited_branch, assignment};

use crate::exprs;
use c_ast::AssignOp;
use c_typed::{Branch, Condition, Expr, Stmt, TypeFault};
use dfi_base::Line;
use sqlite_items::{Boxed, Items};
use std::alloc::Global;

fn condition(alloc: Global, c: &Condition, next: &mut u32) -> Result<Condition, TypeFault>
    ensures { Numbers result next.old next.new (condition c.now) }
{
    let value = exprs::number(alloc, &c.value, next)?;
    Ok(Condition {
        line: c.line,
        value,
    })
}

fn condition_there(
    alloc: Global,
    c: &Option<Condition>,
    next: &mut u32,
) -> Result<Option<Condition>, TypeFault>
    ensures { Numbers result next.old next.new (condition_there c.now) }
{
    match c {
        None => Ok(None),
        Some(c) => Ok(Some(condition(alloc, c, next)?)),
    }
}

fn value_there(
    alloc: Global,
    value: &Option<Expr>,
    next: &mut u32,
) -> Result<Option<Expr>, TypeFault>
    ensures { Numbers result next.old next.new (expr_there value.now) }
{
    match value {
        None => Ok(None),
        Some(e) => Ok(Some(exprs::number(alloc, e, next)?)),
    }
}

fn assignment(
    alloc: Global,
    line: Line,
    target: &Expr,
    op: AssignOp,
    value: &Expr,
    next: &mut u32,
) -> Result<Stmt, TypeFault>
    ensures { Numbers result next.old next.new (assignment line target.now op value.now) }
{
    let target = Boxed::new(alloc, exprs::number(alloc, target, next)?)?;
    let value = exprs::number(alloc, value, next)?;
    Ok(Stmt::Assign {
        line,
        target: target.into_inner(),
        op,
        value,
    })
}

/// A statement.
#[cycle(stmts)]
#[tactic(auto, unfolding(c_typed::specs::Sites::stmt))]
fn number(alloc: Global, s: &Stmt, next: &mut u32) -> Result<Stmt, TypeFault>
    ensures { Numbers result next.old next.new (stmt s.now) }
{
    match s {
        Stmt::Block(ss) => Ok(Stmt::Block(body(alloc, ss.as_slice(), next)?)),
        Stmt::Assign {
            line,
            target,
            op,
            value,
        } => assignment(alloc, *line, target, *op, value, next),
        Stmt::Increment { line, target } => {
            let target = exprs::number(alloc, target, next)?;
            Ok(Stmt::Increment {
                line: *line,
                target,
            })
        }
        Stmt::Decrement { line, target } => {
            let target = exprs::number(alloc, target, next)?;
            Ok(Stmt::Decrement {
                line: *line,
                target,
            })
        }
        Stmt::Call { line, call } => {
            let call = exprs::number(alloc, call, next)?;
            Ok(Stmt::Call { line: *line, call })
        }
        Stmt::PutInt { line, value } => {
            let value = exprs::number(alloc, value, next)?;
            Ok(Stmt::PutInt { line: *line, value })
        }
        Stmt::Free { line, pointer } => {
            let pointer = exprs::number(alloc, pointer, next)?;
            Ok(Stmt::Free {
                line: *line,
                pointer,
            })
        }
        Stmt::Return { line, value } => {
            let value = value_there(alloc, value, next)?;
            Ok(Stmt::Return { line: *line, value })
        }
        Stmt::Break { line } => Ok(Stmt::Break { line: *line }),
        Stmt::Continue { line } => Ok(Stmt::Continue { line: *line }),
        Stmt::If {
            line,
            condition: c,
            first,
            second,
        } => {
            let c = Boxed::new(alloc, condition(alloc, c, next)?)?;
            let first = boxed(alloc, first, next)?;
            let second = match second {
                None => None,
                Some(second) => Some(boxed(alloc, second, next)?),
            };
            Ok(Stmt::If {
                line: *line,
                condition: c.into_inner(),
                first,
                second,
            })
        }
        Stmt::While {
            line,
            condition: c,
            body,
        } => {
            let c = Boxed::new(alloc, condition(alloc, c, next)?)?;
            let body = boxed(alloc, body, next)?;
            Ok(Stmt::While {
                line: *line,
                condition: c.into_inner(),
                body,
            })
        }
        Stmt::For {
            line,
            start,
            condition: c,
            step,
            body,
        } => {
            let start = boxed(alloc, start, next)?;
            let c = Boxed::new(alloc, condition_there(alloc, c, next)?)?;
            // the body stands before the step
            let body: Boxed<Stmt> = boxed(alloc, body, next)?;
            let step: Boxed<Stmt> = boxed(alloc, step, next)?;
            Ok(Stmt::For {
                line: *line,
                start,
                condition: c.into_inner(),
                step,
                body,
            })
        }
        Stmt::Par { line, branches: bs } => {
            let branches = branches(alloc, bs.as_slice(), next)?;
            Ok(Stmt::Par {
                line: *line,
                branches,
            })
        }
    }
}

/// A statement that is part of another.
#[cycle(stmts)]
fn boxed(alloc: Global, s: &Boxed<Stmt>, next: &mut u32) -> Result<Boxed<Stmt>, TypeFault>
    ensures { Numbers result next.old next.new (stmt s.now) }
{
    let s = number(alloc, s.get(), next)?;
    Ok(Boxed::new(alloc, s)?)
}

/// Statements in turn.
#[cycle(stmts)]
pub fn body(alloc: Global, ss: &[Stmt], next: &mut u32) -> Result<Items<Stmt>, TypeFault>
    ensures { Numbers result next.old next.new (in_turn (map stmt ss.now)) }
{
    let mut numbered = Items::new(alloc);
    for s in ss {
        numbered.push(number(alloc, s, next)?)?;
    }
    Ok(numbered)
}

#[cycle(stmts)]
fn branch(alloc: Global, b: &Branch<Stmt>, next: &mut u32) -> Result<Branch<Stmt>, TypeFault>
    ensures { Numbers result next.old next.new (sited_branch b.now) }
{
    let body = body(alloc, b.body.as_slice(), next)?;
    Ok(Branch {
        body,
        close: b.close,
    })
}

#[cycle(stmts)]
fn branches(
    alloc: Global,
    bs: &[Branch<Stmt>],
    next: &mut u32,
) -> Result<Items<Branch<Stmt>>, TypeFault>
    ensures { Numbers result next.old next.new (in_turn (map sited_branch bs.now)) }
{
    let mut numbered = Items::new(alloc);
    for b in bs {
        numbered.push(branch(alloc, b, next)?)?;
    }
    Ok(numbered)
}
