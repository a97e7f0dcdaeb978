//! The answer to a line.

use crate::fault::Fault;
use crate::marks::Marks;
use crate::names::write_names;
use crate::order::{Asked, Order, order_of};
use crate::read::{tokens_of, tree_of};
use crate::texts::{tell_again, tell_text};
use crate::tokens::tell_tokens;
use crate::writer::Writer;
use c_ast::Ast;
use c_lex::Lexed;
use dfi_base::Memory;
use std::alloc::Global;

/// The answer to a line of the table.
pub fn answer(alloc: Global, line: &str) -> Result<String, Memory> {
    if line.is_empty() || line.starts_with('#') {
        return Ok(String::from_str(alloc, line)?);
    }
    match order_of(alloc, line)? {
        Some(order) => tell_order(alloc, &order),
        None => Ok(format!(in alloc; "unknown line: {line}")?),
    }
}

fn tell_order(alloc: Global, order: &Order) -> Result<String, Memory> {
    match tell_source(alloc, &order.source, order.asked) {
        Ok(text) => Ok(text),
        Err(fault) => fault.into_words(alloc),
    }
}

fn tell_source(alloc: Global, source: &[u8], asked: Asked) -> Result<String, Fault> {
    match asked {
        Asked::Tokens | Asked::Count => tell_lexed(alloc, &tokens_of(alloc, source)?, asked),
        Asked::Text => tell_text(alloc, source),
        Asked::Again => tell_again(alloc, source),
        Asked::Tree(_) | Asked::Items => tell_ast(alloc, &tree_of(alloc, source)?, asked),
    }
}

fn tell_lexed(alloc: Global, lexed: &Lexed, asked: Asked) -> Result<String, Fault> {
    match asked {
        Asked::Count => Ok(format!(in alloc; "tokens {}", lexed.tokens.len())?),
        _ => Ok(tell_tokens(alloc, lexed)?),
    }
}

fn tell_ast(alloc: Global, ast: &Ast, asked: Asked) -> Result<String, Fault> {
    match asked {
        Asked::Tree(marks) => Ok(tell_tree(alloc, ast, marks)?),
        _ => Ok(format!(in alloc; "items {}", ast.items.len())?),
    }
}

fn tell_tree(alloc: Global, ast: &Ast, marks: Marks) -> Result<String, Memory> {
    let mut writer = Writer::new(alloc, ast.names.as_slice(), marks);
    writer.write_items(ast.items.as_slice())?;
    let mut text = writer.into_text();
    if marks == Marks::Lines {
        text.push(' ')?;
        write_names(&mut text, ast.names.as_slice(), ast.last)?;
    }
    Ok(text)
}
