//! What a line of the table asks for.

use crate::marks::Marks;
use crate::source::source_of;
use dfi_base::Memory;
use std::alloc::Global;

/// What is told of a source.
#[derive(Clone, Copy)]
pub enum Asked {
    Tokens,
    /// How many tokens it has.
    Count,
    Tree(Marks),
    /// How many items its tree has.
    Items,
    /// Its canonical text.
    Text,
    /// Whether its canonical text is read as it is.
    Again,
}

/// A source, and what is told of it.
#[derive(Drop)]
pub struct Order {
    pub source: Vec<u8>,
    pub asked: Asked,
}

fn make_order(
    alloc: Global,
    text: &str,
    times: u32,
    asked: Asked,
) -> Result<Option<Order>, Memory> {
    let source = source_of(alloc, text, times)?;
    Ok(Some(Order { source, asked }))
}

fn in_body(alloc: Global, text: &str) -> Result<Option<Order>, Memory> {
    let text = format!(in alloc; "int main() {{ {text} }}")?;
    make_order(alloc, &text, 1, Asked::Tree(Marks::Hidden))
}

// The number of times stands before the text.
fn repeated(alloc: Global, rest: &str, asked: Asked) -> Result<Option<Order>, Memory> {
    let Some((times, text)) = rest.split_once(' ') else {
        return Ok(None);
    };
    let Ok(times) = times.parse::<u32>() else {
        return Ok(None);
    };
    make_order(alloc, text, times, asked)
}

/// What a line asks for, if it is an order.
pub fn order_of(alloc: Global, line: &str) -> Result<Option<Order>, Memory> {
    match line.split_once(' ') {
        Some(("tokens", text)) => make_order(alloc, text, 1, Asked::Tokens),
        Some(("count", rest)) => repeated(alloc, rest, Asked::Count),
        Some(("tree", text)) => make_order(alloc, text, 1, Asked::Tree(Marks::Hidden)),
        Some(("lines", text)) => make_order(alloc, text, 1, Asked::Tree(Marks::Lines)),
        Some(("body", text)) => in_body(alloc, text),
        Some(("items", rest)) => repeated(alloc, rest, Asked::Items),
        Some(("print", text)) => make_order(alloc, text, 1, Asked::Text),
        Some(("again", rest)) => repeated(alloc, rest, Asked::Again),
        _ => Ok(None),
    }
}
