//! The parser of a whole source.

ghost use Rattle.std.specs.Prelude.{◌≡◌};
ghost use Rattle.c_parse.specs.tools.Failures as spec;
ghost use Rattle.c_parse.specs.Parsed.{IsProgram, Says};
ghost use Rattle.c_parse.specs.Symbol.{symbols_of};

use crate::cursor::{Cursor, Failure};
use crate::fault::ParseFault;
use crate::programs::program;
use c_ast::{Ast, Item};
use c_lex::Lexed;
use dfi_base::Line;
use sqlite_items::Items;
use std::alloc::Global;

/// The tree of the tokens of a source, or the first of them that fails.
pub fn parse(alloc: Global, lexed: Lexed) -> Result<Ast, ParseFault>
    ensures { Says lexed result }
{
    match read(alloc, &lexed) {
        Ok(items) => Ok(tree(lexed, items)),
        Err(failure) => Err(fault_of(&lexed, failure)),
    }
}

fn tree(lexed: Lexed, items: Items<Item>) -> Ast
    requires { IsProgram (symbols_of lexed.tokens) items }
    ensures { result ≡ record { items = items; names = lexed.names; last = lexed.last } }
{
    Ast {
        items,
        names: lexed.names,
        last: lexed.last,
    }
}

fn read(alloc: Global, lexed: &Lexed) -> Result<Items<Item>, Failure>
    ensures { spec.Tells lexed.now result }
{
    let mut cursor = Cursor::new(lexed.tokens.as_slice());
    program(alloc, &mut cursor)
}

/// The place of the token from which on so many are `left`.
fn place(lexed: &Lexed, left: u32) -> u32
    ensures { result ≡ spec.place lexed.now left }
{
    (lexed.tokens.len() as u32).saturating_sub(left)
}

fn line_from(lexed: &Lexed, left: u32) -> Line
    ensures { result ≡ spec.line_from lexed.now left }
{
    match lexed.tokens.as_slice().get(place(lexed, left) as usize) {
        Some(token) => token.line,
        None => lexed.last,
    }
}

fn fault_of(lexed: &Lexed, failure: Failure) -> ParseFault
    ensures { result ≡ spec.fault_of lexed.now failure }
{
    match failure {
        Failure::Memory => ParseFault::Memory,
        Failure::Unexpected(left) => ParseFault::Unexpected {
            token: place(lexed, left),
            line: line_from(lexed, left),
        },
        Failure::Deep(left) => ParseFault::Deep {
            line: line_from(lexed, left),
        },
    }
}
