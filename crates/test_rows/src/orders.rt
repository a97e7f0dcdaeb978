use least_rows::Rule;
use sqlite_items::Items;
use std::alloc::{AllocError, Global};

/// What a line asks for.
#[derive(Drop)]
pub enum Order {
    Begin { count: u32, width: u32 },
    Mask(Vec<u32>),
    Rule(Rule),
    Solve,
    Open,
    Show,
    Change(Change),
    Ask(Ask),
    Chain(u32),
    Wide { rows: u32, width: u32, rules: u32 },
    Text,
    Unknown,
}

/// How a row is changed.
#[derive(Clone, Copy)]
pub enum Change {
    Put { row: u32, member: u32, bit: bool },
    Or { row: u32, other: u32 },
    Under { row: u32, other: u32, mask: u32 },
    And { row: u32, other: u32 },
    Copy { row: u32, other: u32 },
}

/// What is asked about a row.
#[derive(Clone, Copy)]
pub enum Ask {
    Get { row: u32, member: u32 },
    Next { row: u32, from: u32 },
    Within { row: u32, other: u32 },
    Under { row: u32, other: u32, mask: u32 },
}

/// The order of a line.
pub fn order_of(alloc: Global, line: &str) -> Result<Order, AllocError> {
    let words: Vec<&str> = line.split(' ').collect(alloc)?;
    let Some((name, rest)) = words.as_slice().split_first() else {
        return Ok(Order::Unknown);
    };
    let numbers = numbers_of(alloc, rest)?;
    if numbers.len() < rest.len() {
        return Ok(if *name == "text" {
            Order::Text
        } else {
            Order::Unknown
        });
    }
    if let Some(rule) = rule_of(alloc, *name, numbers.as_slice())? {
        return Ok(Order::Rule(rule));
    }
    match *name {
        "mask" => Ok(Order::Mask(numbers)),
        name => Ok(plain_order(name, numbers.as_slice())),
    }
}

fn plain_order(name: &str, numbers: &[u32]) -> Order {
    if let Some(change) = change_of(name, numbers) {
        return Order::Change(change);
    }
    if let Some(ask) = ask_of(name, numbers) {
        return Order::Ask(ask);
    }
    match (name, numbers) {
        ("rows", [count, width]) => Order::Begin {
            count: *count,
            width: *width,
        },
        ("solve", []) => Order::Solve,
        ("open", []) => Order::Open,
        ("show", []) => Order::Show,
        ("chain", [count]) => Order::Chain(*count),
        ("wide", [rows, width, rules]) => Order::Wide {
            rows: *rows,
            width: *width,
            rules: *rules,
        },
        _ => Order::Unknown,
    }
}

fn change_of(name: &str, numbers: &[u32]) -> Option<Change> {
    match (name, numbers) {
        ("put", [row, member]) => Some(Change::Put {
            row: *row,
            member: *member,
            bit: true,
        }),
        ("clear", [row, member]) => Some(Change::Put {
            row: *row,
            member: *member,
            bit: false,
        }),
        ("or", [row, other]) => Some(Change::Or {
            row: *row,
            other: *other,
        }),
        ("under", [row, other, mask]) => Some(Change::Under {
            row: *row,
            other: *other,
            mask: *mask,
        }),
        ("and", [row, other]) => Some(Change::And {
            row: *row,
            other: *other,
        }),
        ("copy", [row, other]) => Some(Change::Copy {
            row: *row,
            other: *other,
        }),
        _ => None,
    }
}

fn ask_of(name: &str, numbers: &[u32]) -> Option<Ask> {
    match (name, numbers) {
        ("get", [row, member]) => Some(Ask::Get {
            row: *row,
            member: *member,
        }),
        ("next", [row, from]) => Some(Ask::Next {
            row: *row,
            from: *from,
        }),
        ("within", [row, other]) => Some(Ask::Within {
            row: *row,
            other: *other,
        }),
        ("within", [row, other, mask]) => Some(Ask::Under {
            row: *row,
            other: *other,
            mask: *mask,
        }),
        _ => None,
    }
}

fn rule_of(alloc: Global, name: &str, numbers: &[u32]) -> Result<Option<Rule>, AllocError> {
    let rule = match (name, numbers) {
        ("has", [row, member]) => Rule::Has {
            row: *row,
            member: *member,
        },
        ("flow", [from, to]) => Rule::Flow {
            from: *from,
            mask: None,
            to: *to,
        },
        ("keep", [from, mask, to]) => Rule::Flow {
            from: *from,
            mask: Some(*mask),
            to: *to,
        },
        ("shift", [from, mask, by, to]) => Rule::Shift {
            from: *from,
            mask: *mask,
            by: *by,
            to: *to,
        },
        ("meet", [to, first, rest @ ..]) => Rule::Meet {
            first: *first,
            rest: Items::from_slice(alloc, rest)?,
            to: *to,
        },
        ("guard", [test, member, from, to]) => Rule::Guard {
            test: *test,
            member: *member,
            from: *from,
            to: *to,
        },
        ("store", [targets, from]) => Rule::Store {
            targets: *targets,
            from: *from,
        },
        ("load", [sources, to]) => Rule::Load {
            sources: *sources,
            to: *to,
        },
        _ => return Ok(None),
    };
    Ok(Some(rule))
}

// The numbers that are numbers.
fn numbers_of(alloc: Global, words: &[&str]) -> Result<Vec<u32>, AllocError> {
    let mut numbers = Vec::new(alloc);
    for word in words {
        if let Ok(number) = word.parse::<u32>() {
            numbers.push(number)?;
        }
    }
    Ok(numbers)
}
