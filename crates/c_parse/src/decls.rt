//! Declarations, and expressions where a statement has them.

ghost use Rattle.std.specs.Prelude.{◌≡◌, [], ◌∷◌};
ghost use Rattle.c_parse.specs.tools.StmtParser as spec;
ghost use Rattle.c_parse.specs.tools.Reads.{Reads};
ghost use Rattle.dfi_base.specs.Limits.{nesting_limit};

use crate::cursor::{Cursor, Failure};
use crate::exprs::{Exprs, subject};
use crate::subject::Subject;
use crate::types::{base, declarator};
use c_ast::{Base, Decl, DeclItem, Declarator, Expr};
use c_lex::Mark;
use dfi_base::limits::NESTING_LIMIT;
use sqlite_items::Items;
use std::alloc::Global;

#[tactic(auto, unfolding(crate::specs::tools::StmtParser::operand_at))]
pub fn operand_at(alloc: Global, cursor: &mut Cursor<'_>, counter: u32) -> Result<Subject, Failure>
    ensures { Reads (spec.operand_at nesting_limit counter cursor.old) result cursor.new }
{
    subject(alloc, cursor, NESTING_LIMIT, counter)
}

#[tactic(auto, unfolding(crate::specs::tools::StmtParser::unary_at))]
pub fn unary_at(alloc: Global, cursor: &mut Cursor<'_>, counter: u32) -> Result<Expr, Failure>
    ensures { Reads (spec.unary_at nesting_limit counter cursor.old) result cursor.new }
{
    let exprs = Exprs {
        alloc,
        fuel: NESTING_LIMIT,
        subject,
    };
    exprs.unary(cursor, counter)
}

#[tactic(auto, unfolding(crate::specs::tools::StmtParser::expr_at))]
pub fn expr_at(alloc: Global, cursor: &mut Cursor<'_>, counter: u32) -> Result<Expr, Failure>
    ensures { Reads (spec.expr_at nesting_limit counter cursor.old) result cursor.new }
{
    let exprs = Exprs {
        alloc,
        fuel: NESTING_LIMIT,
        subject,
    };
    exprs.expr(cursor, counter)
}

/// Behind the declarator.
#[tactic(auto, unfolding(crate::specs::tools::StmtParser::valued))]
pub fn valued(
    alloc: Global,
    cursor: &mut Cursor<'_>,
    counter: u32,
    declarator: Declarator,
) -> Result<DeclItem, Failure>
    ensures { Reads (spec.valued nesting_limit counter declarator cursor.old) result cursor.new }
{
    if !cursor.is_mark(Mark::Assign) {
        return Ok(DeclItem {
            declarator,
            value: None,
        });
    }
    cursor.mark(Mark::Assign)?;
    let value = expr_at(alloc, cursor, counter)?;
    Ok(DeclItem {
        declarator,
        value: Some(value),
    })
}

#[tactic(auto, unfolding(crate::specs::tools::StmtParser::decl_item))]
fn decl_item(alloc: Global, cursor: &mut Cursor<'_>, counter: u32) -> Result<DeclItem, Failure>
    ensures { Reads (spec.decl_item nesting_limit counter cursor.old) result cursor.new }
{
    let declarator = declarator(alloc, cursor)?;
    valued(alloc, cursor, counter, declarator)
}

fn more_items(
    alloc: Global,
    cursor: &mut Cursor<'_>,
    counter: u32,
    mut found: Items<DeclItem>,
) -> Result<Items<DeclItem>, Failure>
    ensures { Reads (spec.more_items nesting_limit counter found cursor.old) result cursor.new }
{
    let turns = cursor.left() + 1;
    for _turn in 0..turns {
        if !cursor.is_mark(Mark::Comma) {
            return Ok(found);
        }
        cursor.mark(Mark::Comma)?;
        let next = decl_item(alloc, cursor, counter)?;
        found.push(next)?;
    }
    Err(Failure::Unexpected(cursor.left()))
}

/// Behind the first item.
#[tactic(auto, unfolding(crate::specs::tools::StmtParser::decl_rest))]
pub fn decl_rest(
    alloc: Global,
    cursor: &mut Cursor<'_>,
    counter: u32,
    base: Base,
    first: DeclItem,
) -> Result<Decl, Failure>
    ensures { Reads (spec.decl_rest nesting_limit counter base first cursor.old) result cursor.new }
{
    let mut found = Items::new(alloc);
    found.push(first)?;
    let items = more_items(alloc, cursor, counter, found)?;
    cursor.mark(Mark::Semicolon)?;
    Ok(Decl { base, items })
}

#[tactic(auto, unfolding(crate::specs::tools::StmtParser::decl))]
pub fn decl(alloc: Global, cursor: &mut Cursor<'_>, counter: u32) -> Result<Decl, Failure>
    ensures { Reads (spec.decl nesting_limit counter cursor.old) result cursor.new }
{
    let base = base(cursor)?;
    let first = decl_item(alloc, cursor, counter)?;
    decl_rest(alloc, cursor, counter, base, first)
}
