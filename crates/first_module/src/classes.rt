//! The classes of definitions: those with the same readers share a class.
ghost use Rattle.std.specs.Prelude.{◌≡◌, suc, ◌-◌, ◌<◌, ◌≤◌, ◌^◌, [], ◌∷◌, ◌++◌, length, map, replicate, slice_index_or, slice_set, IfOk, OnOk};
ghost use Rattle.std.specs.List.{AllByRecursion, range_with_len};
ghost use Rattle.first_module.specs.ClassesOf.{classes_of, readers_of, same_list};
ghost use Rattle.first_module.specs.EachOnce.{each_once, place_of};
ghost use Rattle.first_module.specs.tools.Readers.{AddsReader, Ascends};

use dfi_base::Memory;
use indexmap::IndexSet;
use sqlite_items::Items;
use std::alloc::Global;

/// So many empty lists.
fn empty_rows(alloc: Global, count: u32) -> Result<Vec<Items<u32>>, Memory>
    ensures { IfOk result (λ rows. rows.items ≡ replicate count []) }
{
    let mut rows = Vec::new(alloc);
    for _ in 0..count {
        rows.push(Items::new(alloc))?;
    }
    Ok(rows)
}

/// Adds a read to the row of a definition.
fn add_reader(rows: &mut Vec<Items<u32>>, definition: u32, read: u32) -> Result<(), Memory>
    requires from_one { 1 ≤ definition }
    requires within { definition ≤ length rows.old.items }
    ensures { OnOk result (rows.new.items
        ≡ slice_set rows.old.items (definition - 1)
        (slice_index_or rows.old.items (definition - 1) [] ++ read ∷ [])) }
{
    let row = &mut rows[definition as usize - 1];
    row.push(read)?;
    Ok(())
}

/// Adds a read to the row of each definition in its set.
fn add_set(rows: &mut Vec<Items<u32>>, set: &[u32], read: u32) -> Result<(), Memory>
    requires { Ascends 1 (suc (length rows.old.items)) set.now }
    ensures count { OnOk result (length rows.new.items ≡ length rows.old.items) }
    ensures added { OnOk result (AddsReader set.now read rows.old.items rows.new.items) }
{
    for definition in set {
        add_reader(rows, *definition, read)?;
    }
    Ok(())
}

/// The reads that have each definition in their sets, from definition 1 on.
fn readers(alloc: Global, sets: &[Items<u32>], definitions: u32) -> Result<Vec<Items<u32>>, Memory>
    requires few { length sets.now < 2 ^ 31 }
    requires sets { AllByRecursion (Ascends 1 (suc definitions)) sets.now }
    ensures { IfOk result (λ rows. rows.items
        ≡ map (readers_of sets.now) (range_with_len 1 definitions)) }
{
    let mut rows = empty_rows(alloc, definitions)?;
    let mut read = 1;
    for set in sets {
        add_set(&mut rows, set.as_slice(), read)?;
        read += 1;
    }
    Ok(rows)
}

/// A number for each row, from 1: that of the first place of an equal one among the rows, each once.
fn number_rows(alloc: Global, rows: &[Items<u32>]) -> Result<Items<u32>, Memory>
    requires { length rows.now < 2 ^ 31 }
    ensures { IfOk result (λ numbers. numbers
        ≡ map (λ row. suc (place_of same_list (each_once same_list rows.now) row)) rows.now) }
{
    let mut numbers = Items::new(alloc);
    let mut distinct = IndexSet::new(alloc);
    for row in rows {
        let (place, _) = distinct.insert_full(row.as_slice())?;
        numbers.push(place as u32 + 1)?;
    }
    Ok(numbers)
}

/// The classes of so many definitions, by the sets of the reads.
pub fn make_classes(
    alloc: Global,
    sets: &[Items<u32>],
    definitions: u32,
) -> Result<Items<u32>, Memory>
    requires few { length sets.now < 2 ^ 31 }
    requires definitions { definitions ≤ 4096 }
    requires sets { AllByRecursion (Ascends 1 (suc definitions)) sets.now }
    ensures { IfOk result (λ classes. classes ≡ classes_of sets.now definitions) }
{
    let rows = readers(alloc, sets, definitions)?;
    number_rows(alloc, &rows)
}
