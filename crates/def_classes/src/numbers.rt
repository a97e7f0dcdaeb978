//! The classes of definitions: those in the sets of the same reads share one.
ghost use Rattle.std.specs.Prelude.{◌≡◌, ℕ, false, All, suc, ◌-◌, ◌<◌, ◌≤◌, ◌^◌, [], ◌∷◌, ◌++◌, length, map, replicate, slice_index_or, slice_set, IfOk, OnOk};
ghost use Rattle.std.specs.List.{range_with_len};
ghost use Rattle.tac_ir.specs.Answers.{has};
ghost use Rattle.flow_rules.specs.ClassOf.{ClassOf};
ghost use Rattle.def_classes.specs.IsWithin.{IsWithin};
ghost use Rattle.def_classes.specs.tools.EachOnce.{each_once, place_of};
ghost use Rattle.def_classes.specs.tools.Readers.{AddsReader, ends_in, readers_of, same_list, with_last};

use dfi_base::Memory;
use indexmap::IndexSet;
use sqlite_items::Items;
use std::alloc::Global;
use tac_ir::{Classes, Sets};

/// So many empty lists.
fn empty_rows(alloc: Global, count: u32) -> Result<Vec<Items<u32>>, Memory>
    ensures { IfOk result (λ rows. rows.items ≡ replicate count []) }
{
    let mut rows = Vec::new(alloc);
    for _ in 0..count {
        rows.push(Items::new(alloc))?;
    }
    Ok(rows)
}

/// Whether a row ends in a read.
fn ends_in(row: &[u32], read: u32) -> bool
    requires { 1 ≤ read }
    ensures { result ≡ ends_in row.now read }
{
    match row.last() {
        Some(last) => *last == read,
        None => false,
    }
}

/// Adds a read to the row of a definition, unless it is there as the last.
fn add_reader(rows: &mut Vec<Items<u32>>, definition: u32, read: u32) -> Result<(), Memory>
    requires from_one { 1 ≤ definition }
    requires within { definition ≤ length rows.old.items }
    requires read { 1 ≤ read }
    ensures { OnOk result (rows.new.items
        ≡ slice_set rows.old.items (definition - 1)
        (with_last (slice_index_or rows.old.items (definition - 1) []) read)) }
{
    let row = &mut rows[definition as usize - 1];
    if !ends_in(row.as_slice(), read) {
        row.push(read)?;
    }
    Ok(())
}

/// Adds a read to the row of each definition in its set; it is in no row before.
fn add_set(rows: &mut Vec<Items<u32>>, set: &[u32], read: u32) -> Result<(), Memory>
    requires members { All (IsWithin (length rows.old.items)) set.now }
    requires read { 1 ≤ read }
    requires new { (k : ℕ) → has (slice_index_or rows.old.items k []) read ≡ false }
    ensures count { OnOk result (length rows.new.items ≡ length rows.old.items) }
    ensures added { OnOk result (AddsReader set.now read rows.old.items rows.new.items) }
{
    for definition in set {
        add_reader(rows, *definition, read)?;
    }
    Ok(())
}

/// The reads that have each definition in their sets, from definition 1 on.
fn readers(alloc: Global, sets: &[Items<u32>], definitions: u32) -> Result<Vec<Items<u32>>, Memory>
    requires few { length sets.now < 2 ^ 31 }
    requires members { All (All (IsWithin definitions)) sets.now }
    ensures { IfOk result (λ rows. rows.items
        ≡ map (readers_of sets.now) (range_with_len 1 definitions)) }
{
    let mut rows = empty_rows(alloc, definitions)?;
    let mut read = 1;
    for set in sets {
        add_set(&mut rows, set.as_slice(), read)?;
        read += 1;
    }
    Ok(rows)
}

/// A number for each row, from 1: that of the first place of an equal one among the rows, each once.
fn number_rows(alloc: Global, rows: &[Items<u32>]) -> Result<Items<u32>, Memory>
    requires { length rows.now < 2 ^ 31 }
    ensures { IfOk result (λ numbers. numbers
        ≡ map (λ row. suc (place_of same_list (each_once same_list rows.now) row)) rows.now) }
{
    let mut numbers = Items::new(alloc);
    let mut distinct = IndexSet::new(alloc);
    for row in rows {
        let (place, _) = distinct.insert_full(row.as_slice())?;
        numbers.push(place as u32 + 1)?;
    }
    Ok(numbers)
}

/// The classes of so many definitions, by the sets of the reads.
pub fn classes(alloc: Global, s: &Sets, defs: u16) -> Result<Classes, Memory>
    requires few { length s.now.lists < 2 ^ 31 }
    requires members { All (All (IsWithin defs)) s.now.lists }
    ensures count { IfOk result (λ k. length k.list ≡ defs) }
    ensures each { IfOk result (λ k. (d : ℕ) → 1 ≤ d → d ≤ defs → ClassOf s.now.lists d (slice_index_or k.list (d - 1) 0)) }
{
    let rows = readers(alloc, s.lists.as_slice(), u32::from(defs))?;
    let list = number_rows(alloc, &rows)?;
    Ok(Classes { list })
}
