ghost use Rattle.std.specs.Prelude.{◌≡◌, ◌+◌, ◌<◌, ◌≤◌, ◌^◌, false, None, Some, length, replicate, if◌then◌else◌, IfOk};
ghost use Rattle.std.specs.List.{range_with_len};
ghost use Rattle.tac_ir.specs.GoodForm.{GoodForm};
ghost use Rattle.tac_ir.specs.Numbers.{defs_in_code, reads_made};
ghost use Rattle.first_module.specs.ClassesOf.{classes_of};
ghost use Rattle.first_module.specs.SetsOf.{sets_of, straight_sets};
ghost use Rattle.first_module.specs.StraightLine.{is_straight};

use crate::classes::make_classes;
use crate::counts::{Counts, count};
use crate::steps::leads_to_items;
use crate::straight::straight_sets;
use dfi_base::Memory;
use sqlite_items::Items;
use std::alloc::Global;
use tac_ir::Code;

/// How many definitions and reads code has, with the starting definitions of globals.
fn count_in_code(code: &Code) -> Counts
    requires { GoodForm code.now }
    ensures definitions { result.definitions ≡ defs_in_code code.now }
    ensures few { result.definitions ≤ 4096 }
    ensures reads { result.reads ≡ length (reads_made code.now) }
{
    let Counts { definitions, reads } = count(code.funs.as_slice());
    Counts {
        definitions: code.globals.len() as u32 + definitions,
        reads,
    }
}

/// The sets of the reads of code that is a straight line.
fn sets_of_line(alloc: Global, code: &Code) -> Result<Option<Items<Items<u32>>>, Memory>
    requires { GoodForm code.now }
    ensures { IfOk result (λ sets. sets
        ≡ if is_straight code.now.funs then Some (straight_sets code.now.funs) else None) }
{
    let [main] = code.funs.as_slice() else {
        return Ok(None);
    };
    if !leads_to_items(main.code.as_slice()) {
        return Ok(None);
    }
    straight_sets(alloc, code.globals.len() as u32, main.code.as_slice())
}

/// The numbers from 1 on, so many.
fn numbers(alloc: Global, count: u32) -> Result<Vec<u32>, Memory>
    requires { count < 2 ^ 31 }
    ensures { IfOk result (λ numbers. numbers.items ≡ range_with_len 1 count) }
{
    let mut numbers = Vec::new(alloc);
    for number in 0..count {
        numbers.push(number + 1)?;
    }
    Ok(numbers)
}

/// So many sets, each with these definitions.
fn repeat_set(alloc: Global, reads: u32, definitions: &[u32]) -> Result<Items<Items<u32>>, Memory>
    ensures { IfOk result (λ sets. sets ≡ replicate reads definitions.now) }
{
    let mut sets = Items::new(alloc);
    for _ in 0..reads {
        sets.push(Items::from_slice(alloc, definitions)?)?;
    }
    Ok(sets)
}

/// The sets of reads, and the classes of definitions.
#[derive(Drop)]
pub struct Tables {
    pub sets: Items<Items<u32>>,
    pub classes: Items<u32>,
}

/// Each read allows each definition, so that all definitions share a class.
fn every_definition(alloc: Global, counts: Counts) -> Result<Tables, Memory>
    requires { counts.definitions < 2 ^ 31 }
    ensures sets { IfOk result (λ tables. tables.sets
        ≡ replicate counts.reads (range_with_len 1 counts.definitions)) }
    ensures classes { IfOk result (λ tables. tables.classes ≡ replicate counts.definitions 1) }
{
    let definitions = numbers(alloc, counts.definitions)?;
    Ok(Tables {
        sets: repeat_set(alloc, counts.reads, &definitions)?,
        classes: Items::from_vec(vec![in alloc; 1; counts.definitions as usize]?),
    })
}

/// The sets and classes of code.
pub fn make_tables(alloc: Global, code: &Code) -> Result<Tables, Memory>
    requires { GoodForm code.now }
    ensures sets { IfOk result (λ tables. tables.sets ≡ sets_of code.now) }
    ensures classes { IfOk result (λ tables. tables.classes
        ≡ classes_of (sets_of code.now) (defs_in_code code.now)) }
{
    let counts = count_in_code(code);
    let Some(sets) = sets_of_line(alloc, code)? else {
        return every_definition(alloc, counts);
    };
    let classes = make_classes(alloc, sets.as_slice(), counts.definitions)?;
    Ok(Tables { sets, classes })
}
