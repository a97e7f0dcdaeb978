//! Tokens as text.

use crate::kinds::word_text;
use crate::names::write_names;
use c_lex::{Kind, Lexed, Token, mark_text};
use dfi_base::{Memory, Text};
use std::alloc::Global;

fn write_kind(text: &mut String, kind: Kind) -> Result<(), Memory> {
    match kind {
        Kind::Word(word) => text.push_str(word_text(word))?,
        Kind::Id(number) => write!(text, "name {number}")?,
        Kind::Num(value) => write!(text, "number {value}")?,
        Kind::Mark(mark) => text.push_str(mark_text(mark))?,
    }
    Ok(())
}

fn write_tokens(text: &mut String, tokens: &[Token]) -> Result<(), Memory> {
    for token in tokens {
        write!(text, "{}:{}..{} ", token.line.0, token.start, token.end)?;
        write_kind(text, token.kind)?;
        text.push(' ')?;
    }
    Ok(())
}

/// The tokens with their lines and places, the names by their numbers, and the line of the last byte.
pub fn tell_tokens(alloc: Global, lexed: &Lexed) -> Result<String, Memory> {
    let mut text = String::new(alloc);
    write_tokens(&mut text, lexed.tokens.as_slice())?;
    write_names(&mut text, lexed.names.as_slice(), lexed.last)?;
    Ok(text)
}

fn same_kinds(some: &[Token], others: &[Token]) -> bool {
    some.len() == others.len()
        && some
            .iter()
            .zip(others)
            .all(|(one, other)| one.kind == other.kind)
}

fn same_names(some: &[Text], others: &[Text]) -> bool {
    some.len() == others.len()
        && some
            .iter()
            .zip(others)
            .all(|(one, other)| one.bytes() == other.bytes())
}

/// Whether these are the same tokens, with the same names, wherever they stand.
pub fn same_tokens(some: &Lexed, others: &Lexed) -> bool {
    same_kinds(some.tokens.as_slice(), others.tokens.as_slice())
        && same_names(some.names.as_slice(), others.names.as_slice())
}
