//! Statements: one in another stands in `<` and `>`.

use crate::decls::decl_row;
use crate::part::{Part, Row, row};
use c_ast::{BlockItem, ForStart, Simple, Stmt};

pub fn stmt_row<'a>(part: Part<'a>) -> Row<'a> {
    match part {
        Part::Simple(simple) => simple_row(simple),
        Part::Stmt(stmt) => one_row(stmt),
        Part::Inner(word, stmt) => row!(Part::Word(word), Part::Stmt(stmt.get()), Part::Word(">")),
        Part::Else(Some(stmt)) => row!(Part::Inner("else<", stmt)),
        Part::Else(None) => row!(),
        Part::Start(start) => start_row(start),
        Part::Step(Some(simple)) => row!(Part::Word(";"), Part::Simple(simple)),
        Part::Step(None) => row!(Part::Word(";")),
        _ => block_row(part),
    }
}

fn block_row<'a>(part: Part<'a>) -> Row<'a> {
    match part {
        Part::Block(block) => row!(
            Part::Mark(block.line),
            Part::Word("{"),
            Part::BlockItems(block.items.as_slice()),
            Part::Mark(block.close),
            Part::Word("}")
        ),
        Part::BlockItems([BlockItem::Decl(decl), rest @ ..]) => {
            row!(Part::Decl(decl), Part::BlockItems(rest))
        }
        Part::BlockItems([BlockItem::Stmt(stmt), rest @ ..]) => {
            row!(Part::Stmt(stmt), Part::BlockItems(rest))
        }
        Part::BlockItems([]) => row!(),
        Part::Branches([first, rest @ ..]) => row!(Part::Block(first), Part::Branches(rest)),
        Part::Branches([]) => row!(),
        _ => decl_row(part),
    }
}

fn simple_row(simple: &Simple) -> Row<'_> {
    match simple {
        Simple::Assign {
            line,
            target,
            op,
            value,
        } => row!(
            Part::Mark(*line),
            Part::Expr(target),
            Part::Assign(*op),
            Part::Expr(value)
        ),
        Simple::Increment { line, target } => {
            row!(Part::Mark(*line), Part::Expr(target), Part::Word("++"))
        }
        Simple::Decrement { line, target } => {
            row!(Part::Mark(*line), Part::Expr(target), Part::Word("--"))
        }
        Simple::PreIncrement { line, target } => {
            row!(Part::Mark(*line), Part::Word("++"), Part::Expr(target))
        }
        Simple::PreDecrement { line, target } => {
            row!(Part::Mark(*line), Part::Word("--"), Part::Expr(target))
        }
        Simple::Call {
            function,
            arguments,
        } => row!(
            Part::Name(*function),
            Part::Word("("),
            Part::Arguments(arguments.as_slice()),
            Part::Word(")")
        ),
    }
}

fn start_row(start: &ForStart) -> Row<'_> {
    match start {
        ForStart::Decl(decl) => row!(Part::Word("for("), Part::Decl(decl)),
        ForStart::Simple(Some(simple)) => {
            row!(Part::Word("for("), Part::Simple(simple), Part::Word(";"))
        }
        ForStart::Simple(None) => row!(Part::Word("for(;")),
    }
}

fn one_row(stmt: &Stmt) -> Row<'_> {
    match stmt {
        Stmt::Block(block) => row!(Part::Block(block)),
        Stmt::Empty { line } => row!(Part::Mark(*line), Part::Word(";")),
        Stmt::Simple(simple) => row!(Part::Simple(simple), Part::Word(";")),
        Stmt::Return { line, value } => row!(
            Part::Mark(*line),
            Part::Word("return"),
            Part::Given(" ", value),
            Part::Word(";")
        ),
        Stmt::Break { line } => row!(Part::Mark(*line), Part::Word("break;")),
        Stmt::Continue { line } => row!(Part::Mark(*line), Part::Word("continue;")),
        Stmt::If {
            line,
            condition,
            first,
            second,
        } => row!(
            Part::Mark(*line),
            Part::Word("if("),
            Part::Expr(condition),
            Part::Inner(")<", first),
            Part::Else(second)
        ),
        Stmt::While {
            line,
            condition,
            body,
        } => row!(
            Part::Mark(*line),
            Part::Word("while("),
            Part::Expr(condition),
            Part::Inner(")<", body)
        ),
        Stmt::For {
            line,
            start,
            condition,
            step,
            body,
        } => row!(
            Part::Mark(*line),
            Part::Start(start),
            Part::Given("", condition),
            Part::Step(step),
            Part::Inner(")<", body)
        ),
        Stmt::Par { line, branches } => row!(
            Part::Mark(*line),
            Part::Word("par{"),
            Part::Branches(branches.as_slice()),
            Part::Word("}")
        ),
    }
}
