//! Tables as text, and tables that are made by their size.

use dfi_base::{Bits, Memory};
use least_rows::{Rule, System};
use sqlite_items::Items;
use std::alloc::{AllocError, Global};
use std::string::String;

/// The rows that have members.
pub fn shown(alloc: Global, rows: &[Bits]) -> Result<String, Memory> {
    let mut text = String::new(alloc);
    for (i, row) in rows.iter().enumerate() {
        let members = row.members(alloc)?;
        if !members.is_empty() {
            write_row(&mut text, i, members.as_slice())?;
        }
    }
    if text.is_empty() {
        text.push_str("empty")?;
    }
    Ok(text)
}

fn write_row(text: &mut String, number: usize, members: &[u32]) -> Result<(), AllocError> {
    if !text.is_empty() {
        text.push(' ')?;
    }
    write!(text, "{number}=")?;
    for (i, member) in members.iter().enumerate() {
        if i > 0 {
            text.push(',')?;
        }
        write!(text, "{member}")?;
    }
    Ok(())
}

/// How many members the first row has.
pub fn first_members(alloc: Global, rows: &[Bits]) -> Result<usize, Memory> {
    match rows.first() {
        Some(row) => Ok(row.members(alloc)?.len()),
        None => Ok(0),
    }
}

/// So many rows of so many bits.
pub fn empty_rows(alloc: Global, count: u32, width: u32) -> Result<Vec<Bits>, Memory> {
    let mut rows = Vec::new(alloc);
    for _ in 0..count {
        rows.push(Bits::new(alloc, width)?)?;
    }
    Ok(rows)
}

/// Each row flows into the one before it, and the last has a member: the rules in the worst order.
pub fn chain(alloc: Global, count: u32) -> Result<System, AllocError> {
    let mut rules = Items::new(alloc);
    for to in 0..count {
        rules.push(Rule::Flow {
            from: to.saturating_add(1),
            mask: None,
            to,
        })?;
    }
    rules.push(Rule::Has {
        row: count,
        member: 0,
    })?;
    Ok(System {
        width: 1,
        masks: Items::new(alloc),
        rules,
    })
}

/// Each row has a member of its own, flows into the next, and flows into one that is far from it.
pub fn wide(alloc: Global, rows: u32, width: u32, count: u32) -> Result<System, AllocError> {
    let mut rules = Items::new(alloc);
    for i in 0..count {
        rules.push(wide_rule(i, rows, width))?;
    }
    Ok(System {
        width,
        masks: Items::new(alloc),
        rules,
    })
}

fn wide_rule(i: u32, rows: u32, width: u32) -> Rule {
    let row = i.checked_rem(rows).unwrap_or(0);
    let round = i.checked_div(rows).unwrap_or(0);
    let next = row.saturating_add(1).checked_rem(rows).unwrap_or(0);
    let far = row.wrapping_mul(7919).checked_rem(rows).unwrap_or(0);
    match round {
        0 => Rule::Has {
            row,
            member: row.checked_rem(width).unwrap_or(0),
        },
        1 => Rule::Flow {
            from: row,
            mask: None,
            to: next,
        },
        _ => Rule::Flow {
            from: row,
            mask: None,
            to: far,
        },
    }
}
