//! The sets of the reads of a straight line: the global behind each temporary and the definitions of each global so far are
//! kept, and a read copies them.
ghost use Rattle.std.specs.Prelude.{◌≡◌, ℕ, ◌+◌, ◌<◌, ◌≤◌, ◌^◌, None, [], ◌∷◌, ◌++◌, length, slice_index_or, slice_set, if◌then◌else◌, IfOk, OnOk, Some};
ghost use Rattle.std.specs.List.{AllByRecursion};
ghost use Rattle.first_module.specs.StraightLine.{is_straight_behind};
ghost use Rattle.first_module.specs.SetsOf.{sets_behind};
ghost use Rattle.first_module.specs.tools.Steps as definition;
ghost use Rattle.first_module.specs.tools.Steps.{IsStepWithin, definitions_after, last_of, sets_in};
ghost use Rattle.first_module.specs.tools.Trail.{HasTrail, Moves, NamesWithin, Sets};

use crate::steps::{Step, moved_by, step_of};
use dfi_base::Memory;
use sqlite_items::Items;
use std::alloc::Global;
use tac_ir::{Instr, Lined};

/// The last of some definitions, alone.
fn last_alone(alloc: Global, definitions: &[u32]) -> Result<Items<u32>, Memory>
    ensures { IfOk result (λ last. last ≡ last_of definitions.now) }
{
    let earlier = definitions.len().saturating_sub(1);
    Ok(Items::from_slice(alloc, &definitions[earlier..])?)
}

/// The definitions of each global before the first instruction: its starting definition.
fn first_definitions(alloc: Global, globals: u32) -> Result<Vec<Items<u32>>, Memory>
    requires { globals < 2 ^ 31 }
    ensures { IfOk result (λ definitions. HasTrail globals [] [] definitions.items) }
{
    let mut definitions = Vec::new(alloc);
    for global in 0..globals {
        definitions.push(Items::from_slice(alloc, &[global + 1])?)?;
    }
    Ok(definitions)
}

/// Adds the set of what a step reads.
fn add_set(
    alloc: Global,
    sets: &mut Items<Items<u32>>,
    definitions: &[Items<u32>],
    step: Step,
) -> Result<(), Memory>
    requires { IsStepWithin (length definitions.now) step }
    ensures { OnOk result (sets.new
        ≡ sets.old ++ sets_in (λ g. slice_index_or definitions.now g []) step) }
{
    match step {
        Step::Get { global } => {
            let earlier = &definitions[global as usize];
            sets.push(last_alone(alloc, earlier.as_slice())?)?;
        }
        Step::Load { global } => {
            let earlier = &definitions[global as usize];
            sets.push(Items::from_slice(alloc, earlier.as_slice())?)?;
        }
        Step::Quiet | Step::Write { .. } => (),
    }
    Ok(())
}

/// Adds what a step writes to the definitions of its global.
fn add_definition(definitions: &mut Vec<Items<u32>>, step: Step) -> Result<(), Memory>
    requires { IsStepWithin (length definitions.old.items) step }
    ensures { OnOk result (definitions.new.items ≡ definitions_after step definitions.old.items) }
{
    if let Step::Write { global, def } = step {
        let earlier = &mut definitions[global as usize];
        earlier.push(def)?;
    }
    Ok(())
}

/// Makes room for temporaries up to this one, which have no global behind them.
fn make_room(behind: &mut Vec<Option<u32>>, temp: u32) -> Result<(), Memory>
    ensures room { OnOk result (temp < length behind.new.items) }
    ensures same { OnOk result ((t : ℕ) → slice_index_or behind.new.items t None
        ≡ slice_index_or behind.old.items t None) }
{
    while behind.len() <= temp as usize {
        behind.push(None)?;
    }
    Ok(())
}

/// Sets the global behind a temporary.
fn set_behind(behind: &mut Vec<Option<u32>>, temp: u32, global: Option<u32>) -> Result<(), Memory>
    ensures { OnOk result (Sets temp global behind.old.items behind.new.items) }
{
    make_room(behind, temp)?;
    behind[temp as usize] = global;
    Ok(())
}

/// Sets what an instruction puts into a temporary.
fn move_pointer(behind: &mut Vec<Option<u32>>, instr: &Instr) -> Result<(), Memory>
    ensures { OnOk result (Moves behind.old.items instr.now behind.new.items) }
{
    if let Some((temp, global)) = moved_by(instr, behind) {
        set_behind(behind, temp, global)?;
    }
    Ok(())
}

/// The sets of the reads of these instructions of a function, if they are a straight line.
pub fn straight_sets(
    alloc: Global,
    globals: u32,
    code: &[Lined],
) -> Result<Option<Items<Items<u32>>>, Memory>
    requires few { globals < 2 ^ 31 }
    requires names { AllByRecursion (λ l. NamesWithin globals l.instr) code.now }
    ensures { IfOk result (λ sets. sets
        ≡ if is_straight_behind [] code.now then Some (sets_behind [] code.now) else None) }
{
    let mut sets = Items::new(alloc);
    let mut definitions = first_definitions(alloc, globals)?;
    let mut behind = Vec::new(alloc);
    for lined in code {
        let Some(step) = step_of(&lined.instr, &behind) else {
            return Ok(None);
        };
        add_set(alloc, &mut sets, &definitions, step)?;
        add_definition(&mut definitions, step)?;
        move_pointer(&mut behind, &lined.instr)?;
    }
    Ok(Some(sets))
}
