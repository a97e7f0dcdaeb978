ghost use Rattle.std.specs.Prelude.{◌≡◌, ◌<◌, ◌^◌, ℕ, ℤ, List, [], IfOk, length};
ghost use Rattle.word_table.specs.Tables.{CanRun};
ghost use Rattle.flat_core.specs.Stands.{IsCore, IsCoreOf};
ghost use Rattle.flat_core.specs.Runs.{refused_as, Gives, IsShort, GoesAlong, GoesByLeast};

use crate::fault::{RunFault, StepFault};
use crate::steps::Core;
use dfi_base::{Memory, Name};
use std::alloc::Global;
use tac_ir::{Journal, Module};

/// Who makes the events of a run.
#[derive(Drop)]
pub enum Turns {
    /// Each event is by the least runnable name.
    Least,
    /// The events are by these names, one each.
    Given(Vec<Name>),
}

/// The one run of a module along its turns: by given names as many entries as names, else up to its end.
pub fn run(
    alloc: Global,
    m: &Module,
    input: &[i32],
    turns: &Turns,
    budget: u64,
) -> Result<Journal, RunFault>
    requires can_run { CanRun m.now }
    requires few { length input.now < 2 ^ 31 }
    requires short { IsShort turns.now }
    ensures { Gives m.now input.now budget turns.now result }
{
    let mut core = Core::new(alloc, m, input)?;
    match turns {
        Turns::Least => least(&mut core, m, budget)?,
        Turns::Given(names) => along(&mut core, m, names, budget)?,
    }
    Ok(core.finish(budget))
}

// Goes on by these names.
fn along(core: &mut Core, m: &Module, names: &[Name], budget: u64) -> Result<(), RunFault>
    requires can_run { CanRun m.now }
    requires core { IsCore m.now core.old }
    requires first { core.old.entries ≡ [] }
    requires short { length names.now < 2 ^ 31 }
    ensures { (input : List ℤ) → IsCoreOf m.now input core.old → GoesAlong m.now input budget names.now result core.new }
{
    for (k, name) in names.iter().enumerate() {
        let place = k as u64 + 1;
        if place > budget {
            return Err(RunFault::Names { k: place });
        }
        match core.step(m, *name) {
            Ok(_) => {}
            Err(fault) => return Err(refused(fault, place)),
        }
    }
    Ok(())
}

// Why there is no run by this name, from 1.
fn refused(fault: StepFault, place: u64) -> RunFault
    ensures { result ≡ refused_as fault place }
{
    match fault {
        StepFault::Over | StepFault::NotRunnable => RunFault::Names { k: place },
        StepFault::Memory => RunFault::Memory,
    }
}

// Goes on by the least runnable names.
fn least(core: &mut Core, m: &Module, budget: u64) -> Result<(), Memory>
    requires can_run { CanRun m.now }
    requires core { IsCore m.now core.old }
    requires first { core.old.entries ≡ [] }
    ensures { IfOk result (λ _. (input : List ℤ) → IsCoreOf m.now input core.old → GoesByLeast m.now input budget core.new) }
{
    for _ in 0..budget {
        let Some(name) = core.least() else {
            return Ok(());
        };
        match core.step(m, name) {
            Ok(_) => {}
            Err(StepFault::Memory) => return Err(Memory),
            Err(StepFault::Over | StepFault::NotRunnable) => unreachable!(),
        }
    }
    Ok(())
}
