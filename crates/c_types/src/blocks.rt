//! Blocks, and the statements that hold statements (C99 6.8, and `par`).

ghost use Rattle.std.specs.Prelude.{◌≡◌};
ghost use Rattle.c_types.specs.tools.Steps.{Leaves};
ghost use Rattle.c_types.specs.tools.StmtWalk as walk;

use crate::decls::local_decl;
use crate::known::{Around, Known};
use crate::outline::Outline;
use crate::stmts::{
    break_loop, condition, condition_there, continue_loop, empty, returned, simple, start, step,
    unboxed,
};
use c_ast::{Block, BlockItem, Expr as SourceExpr, ForStart, Simple, Stmt as SourceStmt};
use c_typed::{Branch, Condition, Stmt, TypeFault};
use dfi_base::Line;
use sqlite_items::{Boxed, Items};
use std::alloc::Global;

/// A statement, and what is known behind it.
#[cycle(stmts)]
pub fn stmt(
    alloc: Global,
    outline: &Outline,
    known: &mut Known,
    around: Around,
    s: &SourceStmt,
) -> Result<Stmt, TypeFault>
    ensures { Leaves result known.new (walk.stmt_walk outline.now s.now around known.old) }
{
    match s {
        SourceStmt::Block(b) => braces(alloc, outline, known, around, b.items.as_slice()),
        SourceStmt::Empty { .. } => Ok(empty(alloc)),
        SourceStmt::Simple(s) => simple(alloc, outline, known, s),
        SourceStmt::Return { line, value } => {
            returned(alloc, outline, known, *line, around.in_branch, value)
        }
        SourceStmt::Break { line } => break_loop(around, *line),
        SourceStmt::Continue { line } => continue_loop(around, *line),
        SourceStmt::If {
            line,
            condition: c,
            first,
            second,
        } => {
            let condition = condition(alloc, outline, known, c)?;
            let first = boxed(alloc, outline, known, around, first.get())?;
            if_else(
                alloc, outline, known, around, *line, condition, first, second,
            )
        }
        SourceStmt::While {
            line,
            condition,
            body,
        } => while_loop(alloc, outline, known, around, *line, condition, body.get()),
        SourceStmt::For {
            line,
            start,
            condition,
            step,
            body,
        } => for_loop(
            alloc,
            outline,
            known,
            around,
            *line,
            start,
            condition,
            step,
            body.get(),
        ),
        SourceStmt::Par { line, branches } => {
            par(alloc, outline, known, *line, branches.as_slice())
        }
    }
}

/// A statement that is part of another.
#[cycle(stmts)]
fn boxed(
    alloc: Global,
    outline: &Outline,
    known: &mut Known,
    around: Around,
    s: &SourceStmt,
) -> Result<Boxed<Stmt>, TypeFault>
    ensures { Leaves result known.new (walk.stmt_walk outline.now s.now around known.old) }
{
    Ok(Boxed::new(alloc, stmt(alloc, outline, known, around, s)?)?)
}

/// The statement behind `else`, if there is one.
#[cycle(stmts)]
fn otherwise(
    alloc: Global,
    outline: &Outline,
    known: &mut Known,
    around: Around,
    s: &Option<Boxed<SourceStmt>>,
) -> Result<Option<Boxed<Stmt>>, TypeFault>
    ensures { Leaves result known.new
        (walk.source_second_walk outline.now around s.now known.old) }
{
    match s {
        None => Ok(None),
        Some(s) => Ok(Some(boxed(alloc, outline, known, around, s.get())?)),
    }
}

/// An `if`, of which the condition and the first statement are whole.
#[cycle(stmts)]
fn if_else(
    alloc: Global,
    outline: &Outline,
    known: &mut Known,
    around: Around,
    line: Line,
    condition: Boxed<Condition>,
    first: Boxed<Stmt>,
    second: &Option<Boxed<SourceStmt>>,
) -> Result<Stmt, TypeFault>
    ensures { Leaves result known.new
        (walk.if_rest outline.now line condition first around second.now known.old) }
{
    let second = otherwise(alloc, outline, known, around, second)?;
    Ok(Stmt::If {
        line,
        condition: condition.into_inner(),
        first,
        second,
    })
}

#[cycle(stmts)]
fn while_loop(
    alloc: Global,
    outline: &Outline,
    known: &mut Known,
    around: Around,
    line: Line,
    c: &SourceExpr,
    body: &SourceStmt,
) -> Result<Stmt, TypeFault>
    ensures { Leaves result known.new
        (walk.scoped (walk.while_walk outline.now line c.now (walk.stmt_walk outline.now body.now)
        around) known.old) }
{
    known.open()?;
    let condition = condition(alloc, outline, known, c)?;
    let body = boxed(alloc, outline, known, around.in_a_loop(), body)?;
    known.close()?;
    Ok(Stmt::While {
        line,
        condition: condition.into_inner(),
        body,
    })
}

#[cycle(stmts)]
fn for_loop(
    alloc: Global,
    outline: &Outline,
    known: &mut Known,
    around: Around,
    line: Line,
    first: &ForStart,
    c: &Option<SourceExpr>,
    last: &Option<Simple>,
    body: &SourceStmt,
) -> Result<Stmt, TypeFault>
    ensures { Leaves result known.new
        (walk.scoped (walk.for_walk outline.now line first.now c.now last.now
        (walk.stmt_walk outline.now body.now) around) known.old) }
{
    known.open()?;
    let start = start(alloc, outline, known, first)?;
    let condition = condition_there(alloc, outline, known, c)?;
    let step = step(alloc, outline, known, last)?;
    let body = boxed(alloc, outline, known, around.in_a_loop(), body)?;
    known.close()?;
    Ok(Stmt::For {
        line,
        start,
        condition: unboxed(condition),
        step,
        body,
    })
}

/// The items of a block, in the scope round it.
#[cycle(stmts)]
fn block_item(
    alloc: Global,
    outline: &Outline,
    known: &mut Known,
    around: Around,
    item: &BlockItem<SourceStmt>,
) -> Result<Stmt, TypeFault>
    ensures { Leaves result known.new
        (walk.source_item_walk outline.now around item.now known.old) }
{
    match item {
        BlockItem::Decl(d) => local_decl(alloc, outline, known, d),
        BlockItem::Stmt(s) => stmt(alloc, outline, known, around, s),
    }
}

#[cycle(stmts)]
pub fn block_items(
    alloc: Global,
    outline: &Outline,
    known: &mut Known,
    around: Around,
    items: &[BlockItem<SourceStmt>],
) -> Result<Items<Stmt>, TypeFault>
    ensures { Leaves result known.new
        (walk.source_items_walk outline.now around items.now known.old) }
{
    let mut body = Items::new(alloc);
    for item in items {
        body.push(block_item(alloc, outline, known, around, item)?)?;
    }
    Ok(body)
}

/// The items of a block, in a scope of its own.
#[cycle(stmts)]
fn block(
    alloc: Global,
    outline: &Outline,
    known: &mut Known,
    around: Around,
    items: &[BlockItem<SourceStmt>],
) -> Result<Items<Stmt>, TypeFault>
    ensures { Leaves result known.new
        (walk.scoped (walk.source_items_walk outline.now around items.now) known.old) }
{
    known.open()?;
    let body = block_items(alloc, outline, known, around, items)?;
    known.close()?;
    Ok(body)
}

#[cycle(stmts)]
fn braces(
    alloc: Global,
    outline: &Outline,
    known: &mut Known,
    around: Around,
    items: &[BlockItem<SourceStmt>],
) -> Result<Stmt, TypeFault>
    ensures { Leaves result known.new (walk.source_block_walk outline.now around items.now known.old) }
{
    Ok(Stmt::Block(block(alloc, outline, known, around, items)?))
}

/// A branch of a `par`.
#[cycle(stmts)]
fn branch(
    alloc: Global,
    outline: &Outline,
    known: &mut Known,
    b: &Block<SourceStmt>,
) -> Result<Branch<Stmt>, TypeFault>
    ensures { Leaves result known.new (walk.source_branch_walk outline.now b.now known.old) }
{
    let around = Around {
        in_loop: false,
        in_branch: true,
    };
    let body = block(alloc, outline, known, around, b.items.as_slice())?;
    Ok(Branch {
        body,
        close: b.close,
    })
}

#[cycle(stmts)]
fn branches(
    alloc: Global,
    outline: &Outline,
    known: &mut Known,
    bs: &[Block<SourceStmt>],
) -> Result<Items<Branch<Stmt>>, TypeFault>
    ensures { Leaves result known.new (walk.source_branches_walk outline.now bs.now known.old) }
{
    let mut branches = Items::new(alloc);
    for b in bs {
        branches.push(branch(alloc, outline, known, b)?)?;
    }
    Ok(branches)
}

#[cycle(stmts)]
fn par(
    alloc: Global,
    outline: &Outline,
    known: &mut Known,
    line: Line,
    bs: &[Block<SourceStmt>],
) -> Result<Stmt, TypeFault>
    ensures { Leaves result known.new (walk.source_par_walk outline.now line bs.now known.old) }
{
    if bs.len() < 2 || bs.len() > 15 {
        return Err(TypeFault::Branches { line });
    }
    let branches = branches(alloc, outline, known, bs)?;
    Ok(Stmt::Par { line, branches })
}
