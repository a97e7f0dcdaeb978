//! Runs of a module.

ghost use Rattle.std.specs.Prelude.{◌≡◌, ◌<◌, ◌≤◌, ◌^◌, length, IfOk};
ghost use Rattle.tac_ir.specs.Lawful.{Lawful};
ghost use Rattle.word_table.specs.Tables.{CanRun};
ghost use Rattle.dfi_top.specs.Checked.{AllChecked};
ghost use Rattle.dfi_base.specs.Limits.{list_limit};
ghost use Rattle.dfi_top.specs.Reply.{RepliesToNames, RepliesToTurns, RunsByLeast, said_by, status_of, TellsRun};

use crate::refusals::{refuse_name_bytes, refuse_names};
use crate::reply::Reply;
use alarm_report::report;
use dfi_base::{Memory, Name};
use flat_core::{RunFault, Turns, run};
use number_lists::{ListFault, read_names};
use std::alloc::Global;
use tac_ir::{End, Journal, Module};

// The status of a run by its end.
fn status_of(end: End) -> u8
    ensures value { result ≡ status_of end }
    ensures small { result < 7 }
{
    match end {
        End::Done(_) | End::NoRun => 0,
        End::Alarm => 3,
        End::Trap => 4,
        End::Limit(_) | End::Cut => 5,
    }
}

// The text of a lawful run.
fn tell_run(alloc: Global, m: &Module, journal: Journal) -> Result<Reply, Memory>
    requires runs { CanRun m.now }
    requires lawful { Lawful m.now journal }
    ensures told { IfOk result (λ r. TellsRun m.now (said_by r)) }
    ensures journal { IfOk result (λ r. r.journal ≡ journal) }
{
    let text = report(alloc, m, &journal)?;
    let status = status_of(journal.end);
    Ok(Reply {
        text,
        status,
        journal,
    })
}

/// The run along the least runnable names.
pub fn run_by_least(alloc: Global, m: &Module, input: &[i32], budget: u64) -> Result<Reply, Memory>
    requires runs { CanRun m.now }
    requires checked { AllChecked m.now }
    requires few { length input.now < 2 ^ 31 }
    ensures { IfOk result (λ r. RunsByLeast m.now input.now budget (said_by r)) }
{
    match run(alloc, m, input, &Turns::Least, budget) {
        Ok(journal) => tell_run(alloc, m, journal),
        Err(_) => Err(Memory),
    }
}

/// The run along names, or the first of them that is refused.
fn run_along(
    alloc: Global,
    m: &Module,
    input: &[i32],
    budget: u64,
    names: Vec<Name>,
) -> Result<Reply, Memory>
    requires runs { CanRun m.now }
    requires checked { AllChecked m.now }
    requires few { length input.now < 2 ^ 31 }
    requires short { length names.items < 2 ^ 31 }
    ensures { IfOk result (λ r. RepliesToTurns m.now input.now budget names.items (said_by r)) }
{
    let turns = Turns::Given(names);
    match run(alloc, m, input, &turns, budget) {
        Ok(journal) => tell_run(alloc, m, journal),
        Err(RunFault::Names { k }) => refuse_names(alloc, k),
        Err(RunFault::Memory) => Err(Memory),
    }
}

/// The run along the names in these bytes.
pub fn run_along_bytes(
    alloc: Global,
    m: &Module,
    input: &[i32],
    budget: u64,
    bytes: &[u8],
) -> Result<Reply, Memory>
    requires runs { CanRun m.now }
    requires checked { AllChecked m.now }
    requires few { length input.now < 2 ^ 31 }
    requires short { length bytes.now ≤ list_limit }
    ensures { IfOk result (λ r. RepliesToNames m.now input.now budget bytes.now (said_by r)) }
{
    match read_names(alloc, bytes) {
        Ok(names) => run_along(alloc, m, input, budget, names),
        Err(ListFault::Refused { at }) => refuse_name_bytes(alloc, at),
        Err(ListFault::Memory) => Err(Memory),
    }
}
