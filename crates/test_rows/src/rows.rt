//! Changes of rows, and what is asked about them, where the numbers exist.

use crate::orders::{Ask, Change};
use dfi_base::{Bits, Memory};
use std::alloc::Global;

/// Whether the row changed, or nothing where a number does not exist.
pub fn change(alloc: Global, rows: &mut Vec<Bits>, change: Change) -> Result<Option<bool>, Memory> {
    match change {
        Change::Put { row, member, bit } => Ok(put(rows, row, member, bit)),
        Change::Or { row, other } => {
            let Some(other) = copy_of(alloc, rows, other)? else {
                return Ok(None);
            };
            Ok(or(rows, row, &other))
        }
        Change::Under { row, other, mask } => {
            let Some(other) = copy_of(alloc, rows, other)? else {
                return Ok(None);
            };
            let Some(mask) = copy_of(alloc, rows, mask)? else {
                return Ok(None);
            };
            Ok(or_masked(rows, row, &other, &mask))
        }
        Change::And { row, other } => {
            let Some(other) = copy_of(alloc, rows, other)? else {
                return Ok(None);
            };
            Ok(and(rows, row, &other))
        }
        Change::Copy { row, other } => {
            let Some(other) = copy_of(alloc, rows, other)? else {
                return Ok(None);
            };
            Ok(copy(rows, row, &other))
        }
    }
}

fn copy_of(alloc: Global, rows: &[Bits], row: u32) -> Result<Option<Bits>, Memory> {
    match rows.get(row as usize) {
        Some(row) => Ok(Some(row.try_clone(alloc)?)),
        None => Ok(None),
    }
}

fn put(rows: &mut Vec<Bits>, row: u32, member: u32, bit: bool) -> Option<bool> {
    let row = rows.get_mut(row as usize)?;
    if member >= row.len() {
        return None;
    }
    let before = row.get(member);
    row.put(member, bit);
    Some(before != bit)
}

fn or(rows: &mut Vec<Bits>, row: u32, other: &Bits) -> Option<bool> {
    let row = rows.get_mut(row as usize)?;
    if row.len() != other.len() {
        return None;
    }
    Some(row.or(other))
}

fn or_masked(rows: &mut Vec<Bits>, row: u32, other: &Bits, mask: &Bits) -> Option<bool> {
    let row = rows.get_mut(row as usize)?;
    if row.len() != other.len() || row.len() != mask.len() {
        return None;
    }
    Some(row.or_masked(other, mask))
}

fn and(rows: &mut Vec<Bits>, row: u32, other: &Bits) -> Option<bool> {
    let row = rows.get_mut(row as usize)?;
    if row.len() != other.len() {
        return None;
    }
    let less = !row.is_within(other);
    row.and(other);
    Some(less)
}

fn copy(rows: &mut Vec<Bits>, row: u32, other: &Bits) -> Option<bool> {
    let row = rows.get_mut(row as usize)?;
    if row.len() != other.len() {
        return None;
    }
    let same = row.is_within(other) && other.is_within(row);
    row.copy_from(other);
    Some(!same)
}

/// The answer, or nothing where a number does not exist: 0 and 1 for a truth value, and for the next member one more than it is.
pub fn ask(rows: &[Bits], ask: Ask) -> Option<u32> {
    match ask {
        Ask::Get { row, member } => get(rows, row, member),
        Ask::Next { row, from } => match rows.get(row as usize)?.next_member(from) {
            Some(member) => Some(member.saturating_add(1)),
            None => Some(0),
        },
        Ask::Within { row, other } => { within(rows.get(row as usize)?, rows.get(other as usize)?) }
        Ask::Under { row, other, mask } => within_masked(
            rows.get(row as usize)?,
            rows.get(other as usize)?,
            rows.get(mask as usize)?,
        ),
    }
}

fn get(rows: &[Bits], row: u32, member: u32) -> Option<u32> {
    let row = rows.get(row as usize)?;
    if member >= row.len() {
        return None;
    }
    Some(u32::from(row.get(member)))
}

fn within(row: &Bits, other: &Bits) -> Option<u32> {
    if row.len() != other.len() {
        return None;
    }
    Some(u32::from(row.is_within(other)))
}

fn within_masked(row: &Bits, other: &Bits, mask: &Bits) -> Option<u32> {
    if row.len() != other.len() || row.len() != mask.len() {
        return None;
    }
    Some(u32::from(row.is_within_masked(other, mask)))
}
