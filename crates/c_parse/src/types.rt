//! Types and declarators.

ghost use Rattle.std.specs.Prelude.{◌≡◌};
ghost use Rattle.c_parse.specs.tools.TypeParser as spec;
ghost use Rattle.c_parse.specs.tools.Reads.{Reads};

use crate::cursor::{Cursor, Failure};
use crate::sorts::{BaseWord, ListStart, base_word, list_start};
use c_ast::{Base, Brackets, Declarator, Ident, ProtoParam, ProtoParams, TypeName};
use c_lex::{Mark, Word};
use dfi_base::Line;
use sqlite_items::Items;
use std::alloc::Global;

#[tactic(auto, unfolding(crate::specs::tools::TypeParser::base))]
pub fn base(cursor: &mut Cursor<'_>) -> Result<Base, Failure>
    ensures { Reads (spec.base cursor.old) result cursor.new }
{
    match base_word(cursor.kind()) {
        BaseWord::Int => {
            let line = cursor.word(Word::Int)?;
            Ok(Base::Int { line })
        }
        BaseWord::Struct => {
            let line = cursor.word(Word::Struct)?;
            let tag = cursor.ident()?;
            Ok(Base::Struct { line, tag })
        }
        BaseWord::Other => Err(Failure::Unexpected(cursor.left())),
    }
}

pub fn stars(cursor: &mut Cursor<'_>) -> Result<u32, Failure>
    ensures { Reads (spec.stars cursor.old) result cursor.new }
{
    let turns = cursor.left() + 1;
    for stars in 0..turns {
        if !cursor.is_mark(Mark::Star) {
            return Ok(stars);
        }
        cursor.mark(Mark::Star)?;
    }
    Err(Failure::Unexpected(cursor.left()))
}

#[tactic(auto, unfolding(crate::specs::tools::TypeParser::type_name))]
pub fn type_name(cursor: &mut Cursor<'_>) -> Result<TypeName, Failure>
    ensures { Reads (spec.type_name cursor.old) result cursor.new }
{
    let base = base(cursor)?;
    let stars = stars(cursor)?;
    Ok(TypeName { base, stars })
}

#[tactic(auto, unfolding(crate::specs::tools::TypeParser::bracketed))]
fn bracketed(cursor: &mut Cursor<'_>) -> Result<i32, Failure>
    ensures { Reads (spec.bracketed cursor.old) result cursor.new }
{
    cursor.mark(Mark::OpenBracket)?;
    let length = cursor.number()?;
    cursor.mark(Mark::CloseBracket)?;
    Ok(length)
}

fn more_lengths(cursor: &mut Cursor<'_>, mut found: Items<i32>) -> Result<Items<i32>, Failure>
    ensures { Reads (spec.more_lengths found cursor.old) result cursor.new }
{
    let turns = cursor.left() + 1;
    for _turn in 0..turns {
        if !cursor.is_mark(Mark::OpenBracket) {
            return Ok(found);
        }
        let next = bracketed(cursor)?;
        found.push(next)?;
    }
    Err(Failure::Unexpected(cursor.left()))
}

/// Behind the name.
#[tactic(auto, unfolding(crate::specs::tools::TypeParser::declared))]
pub fn declared(
    alloc: Global,
    cursor: &mut Cursor<'_>,
    line: Line,
    stars: u32,
    name: Ident,
) -> Result<Declarator, Failure>
    ensures { Reads (spec.declared line stars name cursor.old) result cursor.new }
{
    let lengths = more_lengths(cursor, Items::new(alloc))?;
    Ok(Declarator {
        line,
        stars,
        name,
        lengths,
    })
}

#[tactic(auto, unfolding(crate::specs::tools::TypeParser::declarator_from))]
fn declarator_from(
    alloc: Global,
    cursor: &mut Cursor<'_>,
    line: Line,
) -> Result<Declarator, Failure>
    ensures { Reads (spec.declarator_from line cursor.old) result cursor.new }
{
    let stars = stars(cursor)?;
    let name = cursor.ident()?;
    declared(alloc, cursor, line, stars, name)
}

#[tactic(auto, unfolding(crate::specs::tools::TypeParser::declarator))]
pub fn declarator(alloc: Global, cursor: &mut Cursor<'_>) -> Result<Declarator, Failure>
    ensures { Reads (spec.declarator cursor.old) result cursor.new }
{
    match cursor.line() {
        Some(line) => declarator_from(alloc, cursor, line),
        None => Err(Failure::Unexpected(cursor.left())),
    }
}

#[tactic(auto, unfolding(crate::specs::tools::TypeParser::brackets))]
fn brackets(cursor: &mut Cursor<'_>) -> Result<Brackets, Failure>
    ensures { Reads (spec.brackets cursor.old) result cursor.new }
{
    if !cursor.is_mark(Mark::OpenBracket) {
        return Ok(Brackets::Absent);
    }
    cursor.mark(Mark::OpenBracket)?;
    if cursor.is_mark(Mark::CloseBracket) {
        cursor.mark(Mark::CloseBracket)?;
        return Ok(Brackets::Empty);
    }
    let length = cursor.number()?;
    cursor.mark(Mark::CloseBracket)?;
    Ok(Brackets::Length(length))
}

#[tactic(auto, unfolding(crate::specs::tools::TypeParser::name))]
fn name(cursor: &mut Cursor<'_>) -> Result<Option<Ident>, Failure>
    ensures { Reads (spec.name cursor.old) result cursor.new }
{
    if !cursor.is_ident() {
        return Ok(None);
    }
    let name = cursor.ident()?;
    Ok(Some(name))
}

#[tactic(auto, unfolding(crate::specs::tools::TypeParser::param))]
fn param(cursor: &mut Cursor<'_>) -> Result<ProtoParam, Failure>
    ensures { Reads (spec.param cursor.old) result cursor.new }
{
    let base = base(cursor)?;
    let stars = stars(cursor)?;
    let name = name(cursor)?;
    let brackets = brackets(cursor)?;
    Ok(ProtoParam {
        base,
        stars,
        name,
        brackets,
    })
}

fn more_params(
    cursor: &mut Cursor<'_>,
    mut found: Items<ProtoParam>,
) -> Result<Items<ProtoParam>, Failure>
    ensures { Reads (spec.more_params found cursor.old) result cursor.new }
{
    let turns = cursor.left() + 1;
    for _turn in 0..turns {
        if !cursor.is_mark(Mark::Comma) {
            return Ok(found);
        }
        cursor.mark(Mark::Comma)?;
        let next = param(cursor)?;
        found.push(next)?;
    }
    Err(Failure::Unexpected(cursor.left()))
}

#[tactic(auto, unfolding(crate::specs::tools::TypeParser::params))]
fn params(alloc: Global, cursor: &mut Cursor<'_>) -> Result<Items<ProtoParam>, Failure>
    ensures { Reads (spec.params cursor.old) result cursor.new }
{
    let first = param(cursor)?;
    let mut found = Items::new(alloc);
    found.push(first)?;
    more_params(cursor, found)
}

#[tactic(auto, unfolding(crate::specs::tools::TypeParser::parameter_list))]
pub fn parameter_list(alloc: Global, cursor: &mut Cursor<'_>) -> Result<ProtoParams, Failure>
    ensures { Reads (spec.parameter_list cursor.old) result cursor.new }
{
    match list_start(cursor.kind()) {
        ListStart::Empty => Ok(ProtoParams::Empty),
        ListStart::Void => {
            let line = cursor.word(Word::Void)?;
            Ok(ProtoParams::Void { line })
        }
        ListStart::List => {
            let params = params(alloc, cursor)?;
            Ok(ProtoParams::List(params))
        }
    }
}
