//! Simple statements, and what else stands in the parentheses of statements.

ghost use Rattle.std.specs.Prelude.{◌≡◌, [], ◌∷◌};
ghost use Rattle.c_parse.specs.tools.StmtParser as spec;
ghost use Rattle.c_parse.specs.tools.Reads.{Reads};
ghost use Rattle.c_parse.specs.declared.sorts.SubjectEnd.{SubjectEnd};
ghost use Rattle.dfi_base.specs.Limits.{nesting_limit};

use crate::cursor::{Cursor, Failure};
use crate::decls::{decl, expr_at, operand_at, unary_at};
use crate::sorts::{SubjectEnd, is_base, is_end, subject_end};
use crate::subject::Subject;
use c_ast::{Expr, ForStart, Simple};
use c_lex::Mark;
use dfi_base::Line;
use std::alloc::Global;

fn increment(cursor: &mut Cursor<'_>, line: Line, subject: Subject) -> Result<Simple, Failure>
    ensures { Reads (spec.increment_by nesting_limit line subject cursor.old) result cursor.new }
{
    match subject {
        Subject::Prefixed(_) => Err(Failure::Unexpected(cursor.left())),
        postfix => {
            cursor.mark(Mark::PlusPlus)?;
            let target = postfix.into_expr();
            Ok(Simple::Increment { line, target })
        }
    }
}

fn decrement(cursor: &mut Cursor<'_>, line: Line, subject: Subject) -> Result<Simple, Failure>
    ensures { Reads (spec.decrement_by nesting_limit line subject cursor.old) result cursor.new }
{
    match subject {
        Subject::Prefixed(_) => Err(Failure::Unexpected(cursor.left())),
        postfix => {
            cursor.mark(Mark::MinusMinus)?;
            let target = postfix.into_expr();
            Ok(Simple::Decrement { line, target })
        }
    }
}

fn assign(
    alloc: Global,
    cursor: &mut Cursor<'_>,
    counter: u32,
    line: Line,
    subject: Subject,
) -> Result<Simple, Failure>
    ensures { Reads (spec.simple_by nesting_limit line counter subject SubjectEnd.Assign cursor.old) result cursor.new }
{
    let op = cursor.assign()?;
    let value = expr_at(alloc, cursor, counter)?;
    let target = subject.into_expr();
    Ok(Simple::Assign {
        line,
        target,
        op,
        value,
    })
}

fn call(cursor: &mut Cursor<'_>, subject: Subject) -> Result<Simple, Failure>
    ensures { Reads (spec.call_by nesting_limit subject cursor.old) result cursor.new }
{
    match subject {
        Subject::Call(function, arguments) => Ok(Simple::Call {
            function,
            arguments,
        }),
        _ => Err(Failure::Unexpected(cursor.left())),
    }
}

/// Behind the operand.
#[tactic(auto, unfolding(crate::specs::tools::StmtParser::simple_end))]
fn simple_end(
    alloc: Global,
    cursor: &mut Cursor<'_>,
    counter: u32,
    line: Line,
    subject: Subject,
) -> Result<Simple, Failure>
    ensures { Reads (spec.simple_end nesting_limit line counter subject cursor.old) result cursor.new }
{
    match subject_end(cursor.kind()) {
        SubjectEnd::Assign => assign(alloc, cursor, counter, line, subject),
        SubjectEnd::Increment => increment(cursor, line, subject),
        SubjectEnd::Decrement => decrement(cursor, line, subject),
        SubjectEnd::Other => call(cursor, subject),
    }
}

#[tactic(auto, unfolding(crate::specs::tools::StmtParser::simple_from))]
fn simple_from(
    alloc: Global,
    cursor: &mut Cursor<'_>,
    counter: u32,
    line: Line,
) -> Result<Simple, Failure>
    ensures { Reads (spec.simple_from nesting_limit counter line cursor.old) result cursor.new }
{
    match subject_end(cursor.kind()) {
        SubjectEnd::Increment => {
            cursor.mark(Mark::PlusPlus)?;
            let target = unary_at(alloc, cursor, counter)?;
            Ok(Simple::PreIncrement { line, target })
        }
        SubjectEnd::Decrement => {
            cursor.mark(Mark::MinusMinus)?;
            let target = unary_at(alloc, cursor, counter)?;
            Ok(Simple::PreDecrement { line, target })
        }
        SubjectEnd::Assign => Err(Failure::Unexpected(cursor.left())),
        SubjectEnd::Other => {
            let subject = operand_at(alloc, cursor, counter)?;
            simple_end(alloc, cursor, counter, line, subject)
        }
    }
}

#[tactic(auto, unfolding(crate::specs::tools::StmtParser::simple))]
pub fn simple(alloc: Global, cursor: &mut Cursor<'_>, counter: u32) -> Result<Simple, Failure>
    ensures { Reads (spec.simple nesting_limit counter cursor.old) result cursor.new }
{
    match cursor.line() {
        Some(line) => simple_from(alloc, cursor, counter, line),
        None => Err(Failure::Unexpected(cursor.left())),
    }
}

/// Before a semicolon.
#[tactic(auto, unfolding(crate::specs::tools::StmtParser::optional_expr))]
pub fn optional_expr(
    alloc: Global,
    cursor: &mut Cursor<'_>,
    counter: u32,
) -> Result<Option<Expr>, Failure>
    ensures { Reads (spec.optional_expr nesting_limit counter cursor.old) result cursor.new }
{
    if is_end(Mark::Semicolon, cursor.kind()) {
        return Ok(None);
    }
    let expr = expr_at(alloc, cursor, counter)?;
    Ok(Some(expr))
}

/// Before this mark.
#[tactic(auto, unfolding(crate::specs::tools::StmtParser::optional_simple))]
pub fn optional_simple(
    alloc: Global,
    cursor: &mut Cursor<'_>,
    mark: Mark,
    counter: u32,
) -> Result<Option<Simple>, Failure>
    ensures { Reads (spec.optional_simple nesting_limit mark counter cursor.old) result cursor.new }
{
    if is_end(mark, cursor.kind()) {
        return Ok(None);
    }
    let simple = simple(alloc, cursor, counter)?;
    Ok(Some(simple))
}

#[tactic(auto, unfolding(crate::specs::tools::StmtParser::for_start))]
pub fn for_start(alloc: Global, cursor: &mut Cursor<'_>, counter: u32) -> Result<ForStart, Failure>
    ensures { Reads (spec.for_start nesting_limit counter cursor.old) result cursor.new }
{
    if is_base(cursor.kind()) {
        let decl = decl(alloc, cursor, counter)?;
        return Ok(ForStart::Decl(decl));
    }
    let simple = optional_simple(alloc, cursor, Mark::Semicolon, counter)?;
    cursor.mark(Mark::Semicolon)?;
    Ok(ForStart::Simple(simple))
}

/// In parentheses.
#[tactic(auto, unfolding(crate::specs::tools::StmtParser::condition))]
pub fn condition(alloc: Global, cursor: &mut Cursor<'_>, counter: u32) -> Result<Expr, Failure>
    ensures { Reads (spec.condition nesting_limit counter cursor.old) result cursor.new }
{
    cursor.mark(Mark::OpenParen)?;
    let condition = expr_at(alloc, cursor, counter)?;
    cursor.mark(Mark::CloseParen)?;
    Ok(condition)
}
