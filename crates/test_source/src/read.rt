//! What a source is read to.

use crate::fault::Fault;
use c_ast::Ast;
use c_lex::{Lexed, lex};
use c_parse::parse;
use std::alloc::Global;

/// The lexer takes fewer bytes than this.
const MOST_BYTES: usize = 1 << 31;

pub fn tokens_of(alloc: Global, source: &[u8]) -> Result<Lexed, Fault> {
    if source.len() >= MOST_BYTES {
        return Err(Fault::Long);
    }
    Ok(lex(alloc, source)?)
}

pub fn tree_of(alloc: Global, source: &[u8]) -> Result<Ast, Fault> {
    Ok(parse(alloc, tokens_of(alloc, source)?)?)
}
