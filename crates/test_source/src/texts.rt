//! Canonical texts, each read again.

use crate::fault::Fault;
use crate::names::push_bytes;
use crate::read::{tokens_of, tree_of};
use crate::tokens::same_tokens;
use c_ast::Ast;
use c_print::print;
use dfi_base::Memory;
use std::alloc::Global;

fn printed(alloc: Global, ast: &Ast) -> Result<Vec<u8>, Fault> {
    Ok(print(alloc, ast)?)
}

fn text_of(alloc: Global, source: &[u8]) -> Result<Vec<u8>, Fault> {
    let ast = tree_of(alloc, source)?;
    printed(alloc, &ast)
}

fn letters(alloc: Global, bytes: &[u8]) -> Result<String, Memory> {
    let mut text = String::new(alloc);
    push_bytes(&mut text, bytes)?;
    Ok(text)
}

// What a canonical text is read to, unless its own text is the same.
fn difference(alloc: Global, text: &[u8]) -> Result<Option<String>, Memory> {
    let words = match text_of(alloc, text) {
        Ok(again) => {
            if again.as_slice() == text {
                return Ok(None);
            }
            letters(alloc, &again)?
        }
        Err(fault) => fault.into_words(alloc)?,
    };
    Ok(Some(format!(in alloc; "again {words}")?))
}

/// The canonical text of a source.
pub fn tell_text(alloc: Global, source: &[u8]) -> Result<String, Fault> {
    let text = text_of(alloc, source)?;
    match difference(alloc, &text)? {
        Some(line) => Ok(line),
        None => Ok(letters(alloc, &text)?),
    }
}

/// Whether the canonical text of a source has itself as its text, and the tokens of the source.
pub fn tell_again(alloc: Global, source: &[u8]) -> Result<String, Fault> {
    let text = text_of(alloc, source)?;
    if let Some(line) = difference(alloc, &text)? {
        return Ok(line);
    }
    let kept = same_tokens(&tokens_of(alloc, source)?, &tokens_of(alloc, &text)?);
    let words = if kept {
        "the same tokens"
    } else {
        "other tokens"
    };
    Ok(String::from_str(alloc, words)?)
}
