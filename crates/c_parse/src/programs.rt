//! Items of a program, and whole programs.

ghost use Rattle.std.specs.Prelude.{◌≡◌, [], ◌∷◌, IfOk};
ghost use Rattle.c_parse.specs.tools.ProgramParser as spec;
ghost use Rattle.c_parse.specs.tools.Reads.{Reads};
ghost use Rattle.dfi_base.specs.Limits.{nesting_limit};

use crate::cursor::{Cursor, Failure};
use crate::decls::{decl_rest, valued};
use crate::sorts::{ItemStart, is_open, item_start};
use crate::stmts::{Stmts, stmt};
use crate::types::{base, declarator, declared, parameter_list, stars};
use c_ast::{
    Base, Block, Declarator, Field, Function, Ident, Item, Param, Params, Proto, ProtoParam,
    ProtoParams, ResultType, Stmt, StructDef,
};
use c_lex::{Mark, Word};
use dfi_base::Line;
use dfi_base::limits::NESTING_LIMIT;
use sqlite_items::Items;
use std::alloc::{AllocError, Global};

fn more_declarators(
    alloc: Global,
    cursor: &mut Cursor<'_>,
    mut found: Items<Declarator>,
) -> Result<Items<Declarator>, Failure>
    ensures { Reads (spec.more_declarators found cursor.old) result cursor.new }
{
    let turns = cursor.left() + 1;
    for _turn in 0..turns {
        if !cursor.is_mark(Mark::Comma) {
            return Ok(found);
        }
        cursor.mark(Mark::Comma)?;
        let next = declarator(alloc, cursor)?;
        found.push(next)?;
    }
    Err(Failure::Unexpected(cursor.left()))
}

#[tactic(auto, unfolding(crate::specs::tools::ProgramParser::field))]
fn field(alloc: Global, cursor: &mut Cursor<'_>) -> Result<Field, Failure>
    ensures { Reads (spec.field cursor.old) result cursor.new }
{
    let base = base(cursor)?;
    let first = declarator(alloc, cursor)?;
    let mut found = Items::new(alloc);
    found.push(first)?;
    let items = more_declarators(alloc, cursor, found)?;
    cursor.mark(Mark::Semicolon)?;
    Ok(Field { base, items })
}

fn more_fields(
    alloc: Global,
    cursor: &mut Cursor<'_>,
    mut found: Items<Field>,
) -> Result<Items<Field>, Failure>
    ensures { Reads (spec.more_fields found cursor.old) result cursor.new }
{
    let turns = cursor.left() + 1;
    for _turn in 0..turns {
        if !is_open(cursor.kind()) {
            return Ok(found);
        }
        let next = field(alloc, cursor)?;
        found.push(next)?;
    }
    Err(Failure::Unexpected(cursor.left()))
}

/// Behind the tag.
#[tactic(auto, unfolding(crate::specs::tools::ProgramParser::struct_rest))]
fn struct_rest(
    alloc: Global,
    cursor: &mut Cursor<'_>,
    line: Line,
    tag: Ident,
) -> Result<Item, Failure>
    ensures { Reads (spec.struct_rest line tag cursor.old) result cursor.new }
{
    cursor.mark(Mark::OpenBrace)?;
    let first = field(alloc, cursor)?;
    let mut found = Items::new(alloc);
    found.push(first)?;
    let fields = more_fields(alloc, cursor, found)?;
    cursor.mark(Mark::CloseBrace)?;
    cursor.mark(Mark::Semicolon)?;
    Ok(Item::Struct(StructDef { line, tag, fields }))
}

#[tactic(auto, unfolding(crate::specs::tools::ProgramParser::body))]
fn body(alloc: Global, cursor: &mut Cursor<'_>) -> Result<Block<Stmt>, Failure>
    ensures { Reads (spec.body nesting_limit cursor.old) result cursor.new }
{
    let stmts = Stmts {
        alloc,
        fuel: NESTING_LIMIT,
        stmt,
    };
    stmts.block(cursor, 0)
}

/// With the name of each, if every one has a name.
fn all_named(alloc: Global, params: &[ProtoParam]) -> Result<Option<Items<Param>>, AllocError>
    ensures { IfOk result (λ all. all ≡ spec.all_named params.now) }
{
    let mut found = Items::new(alloc);
    for param in params {
        let Some(name) = param.name else {
            return Ok(None);
        };
        found.push(Param {
            base: param.base,
            stars: param.stars,
            name,
            brackets: param.brackets,
        })?;
    }
    Ok(Some(found))
}

fn named_params(alloc: Global, params: &ProtoParams) -> Result<Option<Params>, AllocError>
    ensures { IfOk result (λ named. named ≡ spec.named_params params.now) }
{
    match params {
        ProtoParams::Empty => Ok(Some(Params::Empty)),
        ProtoParams::Void { line } => Ok(Some(Params::Void { line: *line })),
        ProtoParams::List(params) => {
            let named = all_named(alloc, params.as_slice())?;
            Ok(named.map(Params::List))
        }
    }
}

/// Behind the closing parenthesis: a function only where each parameter has a name.
#[tactic(auto, unfolding(crate::specs::tools::ProgramParser::signature_end))]
fn signature_end(
    alloc: Global,
    cursor: &mut Cursor<'_>,
    of: ResultType,
    name: Ident,
    params: ProtoParams,
) -> Result<Item, Failure>
    ensures { Reads (spec.signature_end nesting_limit of name params cursor.old) result cursor.new }
{
    if !cursor.is_mark(Mark::OpenBrace) {
        cursor.mark(Mark::Semicolon)?;
        return Ok(Item::Proto(Proto {
            result: of,
            name,
            params,
        }));
    }
    match named_params(alloc, &params)? {
        Some(params) => {
            let body = body(alloc, cursor)?;
            Ok(Item::Function(Function {
                result: of,
                name,
                params,
                body,
            }))
        }
        None => Err(Failure::Unexpected(cursor.left())),
    }
}

#[tactic(auto, unfolding(crate::specs::tools::ProgramParser::signature))]
fn signature(
    alloc: Global,
    cursor: &mut Cursor<'_>,
    of: ResultType,
    name: Ident,
) -> Result<Item, Failure>
    ensures { Reads (spec.signature nesting_limit of name cursor.old) result cursor.new }
{
    cursor.mark(Mark::OpenParen)?;
    let params = parameter_list(alloc, cursor)?;
    cursor.mark(Mark::CloseParen)?;
    signature_end(alloc, cursor, of, name, params)
}

/// Behind the first name.
#[tactic(auto, unfolding(crate::specs::tools::ProgramParser::global_end))]
fn global_end(
    alloc: Global,
    cursor: &mut Cursor<'_>,
    line: Line,
    base: Base,
    stars: u32,
    name: Ident,
) -> Result<Item, Failure>
    ensures { Reads (spec.global_end nesting_limit line base stars name cursor.old) result cursor.new }
{
    if cursor.is_mark(Mark::OpenParen) {
        return signature(alloc, cursor, ResultType::Type { base, stars }, name);
    }
    let declarator = declared(alloc, cursor, line, stars, name)?;
    let first = valued(alloc, cursor, 0, declarator)?;
    let decl = decl_rest(alloc, cursor, 0, base, first)?;
    Ok(Item::Decl(decl))
}

#[tactic(auto, unfolding(crate::specs::tools::ProgramParser::global_from))]
fn global_from(
    alloc: Global,
    cursor: &mut Cursor<'_>,
    base: Base,
    line: Line,
) -> Result<Item, Failure>
    ensures { Reads (spec.global_from nesting_limit base line cursor.old) result cursor.new }
{
    let stars = stars(cursor)?;
    let name = cursor.ident()?;
    global_end(alloc, cursor, line, base, stars, name)
}

/// Behind the base.
#[tactic(auto, unfolding(crate::specs::tools::ProgramParser::global))]
fn global(alloc: Global, cursor: &mut Cursor<'_>, base: Base) -> Result<Item, Failure>
    ensures { Reads (spec.global nesting_limit base cursor.old) result cursor.new }
{
    match cursor.line() {
        Some(line) => global_from(alloc, cursor, base, line),
        None => Err(Failure::Unexpected(cursor.left())),
    }
}

/// Behind the tag.
#[tactic(auto, unfolding(crate::specs::tools::ProgramParser::tagged))]
fn tagged(alloc: Global, cursor: &mut Cursor<'_>, line: Line, tag: Ident) -> Result<Item, Failure>
    ensures { Reads (spec.tagged nesting_limit line tag cursor.old) result cursor.new }
{
    if cursor.is_mark(Mark::OpenBrace) {
        return struct_rest(alloc, cursor, line, tag);
    }
    global(alloc, cursor, Base::Struct { line, tag })
}

#[tactic(auto, unfolding(crate::specs::tools::ProgramParser::item))]
fn item(alloc: Global, cursor: &mut Cursor<'_>) -> Result<Item, Failure>
    ensures { Reads (spec.item nesting_limit cursor.old) result cursor.new }
{
    match item_start(cursor.kind()) {
        ItemStart::Int => {
            let line = cursor.word(Word::Int)?;
            global(alloc, cursor, Base::Int { line })
        }
        ItemStart::Struct => {
            let line = cursor.word(Word::Struct)?;
            let tag = cursor.ident()?;
            tagged(alloc, cursor, line, tag)
        }
        ItemStart::Void => {
            let line = cursor.word(Word::Void)?;
            let name = cursor.ident()?;
            signature(alloc, cursor, ResultType::Void { line }, name)
        }
        ItemStart::Other => Err(Failure::Unexpected(cursor.left())),
    }
}

fn items(
    alloc: Global,
    cursor: &mut Cursor<'_>,
    mut found: Items<Item>,
) -> Result<Items<Item>, Failure>
    ensures { Reads (spec.more_items nesting_limit found cursor.old) result cursor.new }
{
    let turns = cursor.left() + 1;
    for _turn in 0..turns {
        if cursor.kind().is_none() {
            return Ok(found);
        }
        let next = item(alloc, cursor)?;
        found.push(next)?;
    }
    Err(Failure::Unexpected(cursor.left()))
}

/// Every token.
#[tactic(auto, unfolding(crate::specs::tools::ProgramParser::program))]
pub fn program(alloc: Global, cursor: &mut Cursor<'_>) -> Result<Items<Item>, Failure>
    ensures { Reads (spec.program nesting_limit cursor.old) result cursor.new }
{
    let items = items(alloc, cursor, Items::new(alloc))?;
    cursor.finish()?;
    Ok(items)
}
